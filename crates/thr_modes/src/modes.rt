// The modes of the macro blocks, read and written (Theora I, 7.4).
ghost use Rattle.std.specs.Prelude.{◌≡◌, ℕ, ◌+◌, ◌*◌, ◌<◌, ◌≤◌, ◌++◌, [], Bool, false, List, All, OnOk, OnErr, length, slice_get, Some};
ghost use Rattle.vid_base.specs.Reading.{Gives, GivesOrNoMem, KeptOnNoMem, SameEnd};
ghost use Rattle.vid_base.specs.Writing.{Grows, ReadsBack};
ghost use Rattle.vid_geom.specs.CodedOrder.{order_of};
ghost use Rattle.vid_geom.specs.MacroBlocks.{macro_blocks};
ghost use Rattle.thr_modes.specs.InOrder.{each};
ghost use Rattle.thr_modes.specs.LumaFlags.{macro_flags, some_coded};
ghost use Rattle.thr_modes.specs.Written.{mode_code, modes_code};
ghost use Rattle.thr_modes.specs.Modes.{macro_mode, modes_of, ZeroWhereUncoded};
ghost use Rattle.thr_modes.specs.Views.{mode_form};

use crate::alphabet::{ModeCoding, read_coding, read_mode};
use crate::luma::luma_flags;
use vid_base::{BitReader, BitWriter, NoMem, PacketFault, Refusal};
use vid_geom::Geom;

/// Whether one of the four is coded.
fn some_coded(luma: [bool; 4]) -> bool
    ensures { result ≡ some_coded luma }
{
    luma[0] || luma[1] || luma[2] || luma[3]
}

/// The mode of a macro block whose luma blocks have these flags.
#[tactic(auto, unfolding(crate::specs::Modes::macro_mode))]
fn read_macro_mode(
    r: &mut BitReader,
    coding: &ModeCoding,
    luma: [bool; 4],
) -> Result<u8, PacketFault>
    ensures value { Gives (λ mode. mode) result r.new.left (macro_mode (mode_form coding.now) luma r.old.left) }
    ensures end { SameEnd r.old r.new }
{
    if some_coded(luma) {
        read_mode(r, coding)
    } else {
        Ok(0)
    }
}

/// The modes of all macro blocks, behind the scheme.
#[tactic(auto, using(crate::proofs::EachLemmas::each_more, crate::proofs::EachLemmas::each_fault, crate::proofs::EachLemmas::each_done, crate::proofs::LumaLemmas::flags_long))]
fn read_macro_modes(
    r: &mut BitReader,
    coding: &ModeCoding,
    geom: &Geom,
    flags: &[bool],
    modes: &mut [u8],
) -> Result<(), PacketFault>
    requires flags { length flags.now ≡ length (order_of geom.now) }
    requires modes { length modes.old ≡ length (macro_blocks geom.now) }
    ensures value { Gives (λ _. modes.new) result r.new.left (each (macro_mode (mode_form coding.now)) (macro_flags geom.now flags.now) r.old.left) }
    ensures end { SameEnd r.old r.new }
{
    'macro_blocks: for m in 0..geom.macro_blocks() {
        modes[m as usize] = read_macro_mode(r, coding, luma_flags(geom, flags, m))?;
    }
    Ok(())
}

/// Reads the mode of each macro block in coded order, 0 to 7, into a list that has an entry for each; takes no memory.
/// `Ended`, or `BadAlphabet` where two modes have one rank; the list's entries are then open (Theora I, 7.4).
#[tactic(auto, unfolding(crate::specs::Modes::modes_of))]
pub fn read_modes_in(
    r: &mut BitReader,
    geom: &Geom,
    flags: &[bool],
    modes: &mut [u8],
) -> Result<(), PacketFault>
    requires flags { length flags.now ≡ length (order_of geom.now) }
    requires modes { length modes.old ≡ length (macro_blocks geom.now) }
    ensures value { Gives (λ _. modes.new) result r.new.left (modes_of geom.now flags.now r.old.left) }
    ensures small { OnOk result (All (λ mode. mode < 8) modes.new) }
    ensures uncoded { OnOk result (ZeroWhereUncoded (macro_flags geom.now flags.now) modes.new) }
    ensures end { SameEnd r.old r.new }
{
    let scheme = r.take(3)?;
    let coding = read_coding(r, scheme)?;
    read_macro_modes(r, &coding, geom, flags, modes)?;
    Ok(())
}

/// Reads the mode of each macro block in coded order, 0 to 7. `Ended`, or `BadAlphabet` where two modes have one rank.
/// After a refusal the list is empty (Theora I, 7.4).
pub fn read_modes(
    r: &mut BitReader,
    geom: &Geom,
    flags: &[bool],
    modes: &mut Vec<u8>,
) -> Result<(), Refusal>
    requires { length flags.now ≡ length (order_of geom.now) }
    ensures value { GivesOrNoMem (λ _. modes.new.items) result r.new.left (modes_of geom.now flags.now r.old.left) }
    ensures small { OnOk result (All (λ mode. mode < 8) modes.new.items) }
    ensures uncoded { OnOk result (ZeroWhereUncoded (macro_flags geom.now flags.now) modes.new.items) }
    ensures sized { OnOk result (length modes.new.items ≡ length (macro_blocks geom.now)) }
    ensures emptied { OnErr result (modes.new.items ≡ []) }
    ensures memory { KeptOnNoMem result r.old r.new }
    ensures end { SameEnd r.old r.new }
{
    if modes.resize(geom.macro_blocks() as usize, 0).is_err() {
        modes.clear();
        return Err(Refusal::NoMem);
    }
    let read = read_modes_in(r, geom, flags, modes);
    if read.is_err() {
        modes.clear();
    }
    Ok(read?)
}

/// The mode of a macro block whose luma blocks have these flags.
#[tactic(auto, unfolding(crate::specs::Written::mode_code))]
fn write_macro_mode(w: &mut BitWriter, luma: [bool; 4], mode: u8) -> Result<(), NoMem>
    requires { mode < 8 }
    ensures written { OnOk result (w.new ≡ w.old ++ mode_code luma mode) }
    ensures memory { OnErr result (Grows w.old w.new) }
{
    if some_coded(luma) {
        w.put(u32::from(mode), 3)?;
    }
    Ok(())
}

/// The modes of all macro blocks.
#[tactic(auto, using(crate::proofs::WrittenModes::written_more, crate::proofs::WrittenModes::written_all, crate::proofs::WrittenModes::memory_more, crate::proofs::LumaLemmas::flags_long))]
fn write_macro_modes(
    w: &mut BitWriter,
    geom: &Geom,
    flags: &[bool],
    modes: &[u8],
) -> Result<(), NoMem>
    requires flags { length flags.now ≡ length (order_of geom.now) }
    requires modes { length modes.now ≡ length (macro_blocks geom.now) }
    requires small { All (λ mode. mode < 8) modes.now }
    ensures written { OnOk result (w.new ≡ w.old ++ modes_code (macro_flags geom.now flags.now) modes.now) }
    ensures memory { OnErr result (Grows w.old w.new) }
{
    'macro_blocks: for m in 0..geom.macro_blocks() {
        write_macro_mode(w, luma_flags(geom, flags, m), modes[m as usize])?;
    }
    Ok(())
}

/// Writes the modes, one for each macro block in coded order, under scheme 7; one that has no coded luma block is to have
/// mode 0, and none is written for it. After `NoMem` the bits that were there are followed by some of them
/// (Theora I, 7.4).
#[tactic(auto, using(crate::proofs::WrittenModes::modes_read_back, crate::proofs::WrittenModes::memory_more, crate::proofs::LumaLemmas::flags_long))]
pub fn write_modes(
    w: &mut BitWriter,
    geom: &Geom,
    flags: &[bool],
    modes: &[u8],
) -> Result<(), NoMem>
    requires flags { length flags.now ≡ length (order_of geom.now) }
    requires modes { length modes.now ≡ length (macro_blocks geom.now) }
    requires small { All (λ mode. mode < 8) modes.now }
    ensures reads_back { ZeroWhereUncoded (macro_flags geom.now flags.now) modes.now → OnOk result (ReadsBack (modes_of geom.now flags.now) modes.now w.old w.new) }
    ensures few { OnOk result (length w.new ≤ length w.old + (3 + 3 * length (macro_blocks geom.now))) }
    ensures memory { OnErr result (Grows w.old w.new) }
{
    w.put(7, 3)?;
    write_macro_modes(w, geom, flags, modes)?;
    Ok(())
}
