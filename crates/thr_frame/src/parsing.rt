// A frame's packet parsed (Theora I, 7).
ghost use Rattle.std.specs.Prelude.{◌≡◌, Err, IfErr, IfOk, Ok, OnOk, not};
ghost use Rattle.vid_base.specs.Reading.{Gives, Refuses, SameEnd};
ghost use Rattle.thr_setup.specs.Setup.{contents};
ghost use Rattle.thr_token.specs.Tokenised.{AreBlank};
ghost use Rattle.thr_frame.specs.CodedFrame.{IsCodedFrame, IsSized, frame_of};
ghost use Rattle.thr_frame.specs.Parsed.{blank_values, coded_in, fields_of, needs_frame, parsed, with_dc_values};
ghost use Rattle.thr_frame.specs.Work.{IsWorkFor};

use crate::clearing::clear;
use crate::coded::Coded;
use crate::head::read_head;
use crate::kinds::fill_kinds;
use crate::motion::read_motion;
use crate::residue::read_residue;
use crate::work::Work;
use std::alloc::Global;
use thr_dc::undo_dc;
use thr_setup::Setup;
use vid_base::{BitReader, PacketFault, Refusal};
use vid_geom::Geom;

/// Reads the fields of a packet: what it says, but that the DC values are differences still. All values are to be 0 before.
/// The first fault in reading order; what was read is then open.
#[tactic(auto, unfolding(crate::specs::Parsed::fields_of, crate::specs::CodedFrame::frame_of))]
fn read_fields(
    r: &mut BitReader,
    geom: &Geom,
    setup: &Setup,
    into: &mut Coded,
    work: &mut Work,
) -> Result<(), PacketFault>
    requires sized { IsSized geom.now (frame_of into.old) }
    requires work { IsWorkFor geom.now work.old }
    requires blank { into.old.coeffs.values.items ≡ blank_values geom.now }
    ensures value { Gives (λ _. frame_of into.new) result r.new.left (fields_of (contents setup.now) geom.now r.old.left) }
    ensures rebuildable { OnOk result (IsCodedFrame geom.now (frame_of into.new)) }
    ensures blank { OnOk result (AreBlank into.new.flags.items into.new.coeffs.values.items) }
    ensures sized { IsSized geom.now (frame_of into.new) }
    ensures work { IsWorkFor geom.now work.new }
    ensures end { SameEnd r.old r.new }
{
    into.intra = read_head(r, &mut into.qis)?;
    let (flags, modes, vectors) = (&mut into.flags, &mut into.modes, &mut into.vectors);
    read_motion(r, geom, into.intra, flags, modes, vectors, &mut work.marks)?;
    read_residue(
        r,
        setup,
        geom,
        &into.flags,
        into.qis.len() as u8,
        &mut into.places,
        &mut into.coeffs,
        &mut work.marks,
        &mut work.waiting,
    )
}

// Turns the differences into DC values.
#[tactic(auto, unfolding(crate::specs::Parsed::with_dc_values, crate::specs::CodedFrame::frame_of))]
fn undo_differences(geom: &Geom, into: &mut Coded, work: &mut Work)
    requires sized { IsSized geom.now (frame_of into.old) }
    requires work { IsWorkFor geom.now work.old }
    ensures value { frame_of into.new ≡ with_dc_values geom.now (frame_of into.old) }
    ensures blank { AreBlank into.old.flags.items into.old.coeffs.values.items → AreBlank into.new.flags.items into.new.coeffs.values.items }
    ensures rebuildable { IsCodedFrame geom.now (frame_of into.old) → IsCodedFrame geom.now (frame_of into.new) }
    ensures sized { IsSized geom.now (frame_of into.new) }
    ensures work { IsWorkFor geom.now work.new }
{
    fill_kinds(geom, &into.modes, &mut work.bytes);
    undo_dc(geom, &into.flags, &work.bytes, &mut into.coeffs);
}

/// Reads a frame: what its bits say, and leaves those behind it. All values are to be 0 before. The first fault in reading
/// order; what was read is then open.
#[tactic(auto, unfolding(crate::specs::Parsed::parsed))]
pub(crate) fn read_frame(
    r: &mut BitReader,
    geom: &Geom,
    setup: &Setup,
    into: &mut Coded,
    work: &mut Work,
) -> Result<(), PacketFault>
    requires sized { IsSized geom.now (frame_of into.old) }
    requires work { IsWorkFor geom.now work.old }
    requires blank { into.old.coeffs.values.items ≡ blank_values geom.now }
    ensures value { Gives (λ _. frame_of into.new) result r.new.left (parsed (contents setup.now) geom.now r.old.left) }
    ensures rebuildable { OnOk result (IsCodedFrame geom.now (frame_of into.new)) }
    ensures blank { OnOk result (AreBlank into.new.flags.items into.new.coeffs.values.items) }
    ensures sized { IsSized geom.now (frame_of into.new) }
    ensures work { IsWorkFor geom.now work.new }
    ensures end { SameEnd r.old r.new }
{
    read_fields(r, geom, setup, into, work)?;
    undo_differences(geom, into, work);
    Ok(())
}

/// Parses a packet into values that are all 0 before, otherwise as `parse_into`.
#[tactic(auto, unfolding(crate::specs::Parsed::coded_in))]
pub(crate) fn parse_blank(
    geom: &Geom,
    setup: &Setup,
    packet: &[u8],
    into: &mut Coded,
    work: &mut Work,
) -> Result<(), PacketFault>
    requires sized { IsSized geom.now (frame_of into.old) }
    requires work { IsWorkFor geom.now work.old }
    requires blank { into.old.coeffs.values.items ≡ blank_values geom.now }
    ensures value { OnOk result (coded_in (contents setup.now) geom.now packet.now ≡ Ok (frame_of into.new)) }
    ensures fault { IfErr result (λ fault. coded_in (contents setup.now) geom.now packet.now ≡ Err fault) }
    ensures intra { OnOk result (into.new.intra ≡ not (needs_frame packet.now)) }
    ensures rebuildable { OnOk result (IsCodedFrame geom.now (frame_of into.new)) }
    ensures blank { OnOk result (AreBlank into.new.flags.items into.new.coeffs.values.items) }
    ensures sized { IsSized geom.now (frame_of into.new) }
    ensures work { IsWorkFor geom.now work.new }
{
    let mut r = BitReader::new(packet);
    read_frame(&mut r, geom, setup, into, work)?;
    Ok(())
}

/// Parses a frame's packet into lists that were made for frames of that geometry; takes no memory (Theora I, 7). The first
/// fault in reading order is `NotData`, `Ended`, `Reserved`, `RunTooLong`, `BadAlphabet` or `TokenPastEnd`; the lists are then
/// as long as they were, and their entries are open. A packet without bytes is `Ended`.
pub fn parse_into(
    geom: &Geom,
    setup: &Setup,
    packet: &[u8],
    into: &mut Coded,
    work: &mut Work,
) -> Result<(), PacketFault>
    requires sized { IsSized geom.now (frame_of into.old) }
    requires work { IsWorkFor geom.now work.old }
    ensures value { OnOk result (coded_in (contents setup.now) geom.now packet.now ≡ Ok (frame_of into.new)) }
    ensures fault { IfErr result (λ fault. coded_in (contents setup.now) geom.now packet.now ≡ Err fault) }
    ensures intra { OnOk result (into.new.intra ≡ not (needs_frame packet.now)) }
    ensures rebuildable { OnOk result (IsCodedFrame geom.now (frame_of into.new)) }
    ensures blank { OnOk result (AreBlank into.new.flags.items into.new.coeffs.values.items) }
    ensures sized { IsSized geom.now (frame_of into.new) }
    ensures work { IsWorkFor geom.now work.new }
{
    clear(geom, into);
    parse_blank(geom, setup, packet, into, work)
}

/// Parses a frame's packet into lists of its own, otherwise as `parse_into`.
pub fn parse_frame(
    alloc: Global,
    geom: &Geom,
    setup: &Setup,
    packet: &[u8],
) -> Result<Coded, Refusal>
    ensures value { IfOk result (λ coded. coded_in (contents setup.now) geom.now packet.now ≡ Ok (frame_of coded)) }
    ensures fault { IfErr result (λ refusal. Refuses refusal (coded_in (contents setup.now) geom.now packet.now)) }
    ensures rebuildable { IfOk result (λ coded. IsCodedFrame geom.now (frame_of coded)) }
{
    let mut coded = Coded::new(alloc, geom)?;
    let mut work = Work::new(alloc, geom)?;
    parse_blank(geom, setup, packet, &mut coded, &mut work)?;
    Ok(coded)
}
