// Which blocks of a frame are coded, and how they move (Theora I, 7.3 to 7.5).
ghost use Rattle.std.specs.Prelude.{◌≡◌, ◌<◌, ◌≤◌, ◌+◌, ◌*◌, All, OnOk, length, map, replicate, true};
ghost use Rattle.std.specs.List.{list_any};
ghost use Rattle.vid_base.specs.Reading.{Gives, SameEnd};
ghost use Rattle.vid_geom.specs.CodedOrder.{order_of, superblocks};
ghost use Rattle.vid_geom.specs.MacroBlocks.{macro_blocks};
ghost use Rattle.thr_modes.specs.Vectors.{offset_of, still};
ghost use Rattle.thr_frame.specs.CodedFrame.{intra_mode};
ghost use Rattle.thr_frame.specs.Parsed.{motion_behind, motion_of};
ghost use Rattle.thr_frame.specs.Views.{motion_with};

use crate::coded::{INTRA, STILL};
use thr_flags::read_flags_in;
use thr_modes::{read_modes_in, read_vectors_in};
use vid_base::{BitReader, PacketFault, Vector};
use vid_geom::Geom;

/// Whether a block is coded.
pub(crate) fn is_any_coded(flags: &[bool]) -> bool
    ensures { result ≡ list_any (λ coded. coded) flags.now }
{
    flags.iter().any(|coded| *coded)
}

// No block moves.
#[tactic(auto, unfolding(thr_modes::specs::Vectors::offset_of), using(crate::proofs::MotionLemmas::still_all))]
fn set_still(vectors: &mut [Vector])
    ensures { map offset_of vectors.new ≡ replicate (length vectors.old) still }
{
    vectors.fill(STILL);
}

// Those of an intra frame: all blocks are coded, in mode INTRA and without motion.
fn set_intra(flags: &mut [bool], modes: &mut [u8], vectors: &mut [Vector])
    ensures flags { flags.new ≡ replicate (length flags.old) true }
    ensures modes { modes.new ≡ replicate (length modes.old) intra_mode }
    ensures vectors { map offset_of vectors.new ≡ replicate (length vectors.old) still }
{
    flags.fill(true);
    modes.fill(INTRA);
    set_still(vectors);
}

// Modes and vectors behind the flags; where no block is coded none is read.
#[tactic(auto, unfolding(crate::specs::Parsed::motion_behind))]
fn read_behind(
    r: &mut BitReader,
    geom: &Geom,
    flags: &[bool],
    modes: &mut [u8],
    vectors: &mut [Vector],
) -> Result<(), PacketFault>
    requires flags { length flags.now ≡ length (order_of geom.now) }
    requires modes { length modes.old ≡ length (macro_blocks geom.now) }
    requires vectors { length vectors.old ≡ length (order_of geom.now) }
    ensures value { Gives (λ _. motion_with flags.now modes.new vectors.new) result r.new.left (motion_behind geom.now flags.now r.old.left) }
    ensures small { OnOk result (All (λ mode. mode < 8) modes.new) }
    ensures end { SameEnd r.old r.new }
{
    if !is_any_coded(flags) {
        modes.fill(0);
        set_still(vectors);
        return Ok(());
    }
    read_modes_in(r, geom, flags, modes)?;
    read_vectors_in(r, geom, flags, modes, vectors)
}

/// Reads the flags and the vectors of all blocks in coded order, and the modes of the macro blocks; those of an intra frame
/// are known. `Ended`, `RunTooLong` or `BadAlphabet`; the lists are then open. So are the marks afterwards.
#[tactic(auto, unfolding(crate::specs::Parsed::motion_of))]
pub(crate) fn read_motion(
    r: &mut BitReader,
    geom: &Geom,
    intra: bool,
    flags: &mut [bool],
    modes: &mut [u8],
    vectors: &mut [Vector],
    marks: &mut [bool],
) -> Result<(), PacketFault>
    requires flags { length flags.old ≡ length (order_of geom.now) }
    requires modes { length modes.old ≡ length (macro_blocks geom.now) }
    requires vectors { length vectors.old ≡ length (order_of geom.now) }
    requires marks { 2 * length (superblocks geom.now) + length (order_of geom.now) ≤ length marks.old }
    ensures value { Gives (λ _. motion_with flags.new modes.new vectors.new) result r.new.left (motion_of geom.now intra r.old.left) }
    ensures small { OnOk result (All (λ mode. mode < 8) modes.new) }
    ensures all_coded { OnOk result (intra ≡ true → flags.new ≡ replicate (length (order_of geom.now)) true) }
    ensures all_intra { OnOk result (intra ≡ true → modes.new ≡ replicate (length (macro_blocks geom.now)) intra_mode) }
    ensures end { SameEnd r.old r.new }
{
    if intra {
        set_intra(flags, modes, vectors);
        return Ok(());
    }
    read_flags_in(r, geom, flags, marks)?;
    read_behind(r, geom, flags, modes, vectors)
}
