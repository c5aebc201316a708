// A frame's packet judged (Theora I, 7).
ghost use Rattle.std.specs.Prelude.{◌≡◌, Err, IfErr, IsOk, OnOk};
ghost use Rattle.thr_setup.specs.Setup.{contents};
ghost use Rattle.thr_frame.specs.CodedFrame.{IsSized, frame_of};
ghost use Rattle.thr_frame.specs.Parsed.{coded_in, frame_in, needs_frame, packet_in};
ghost use Rattle.thr_frame.specs.Work.{IsWorkFor};

use crate::coded::Coded;
use crate::head::read_head;
use crate::motion::read_motion;
use crate::residue::check_residue;
use crate::work::Work;
use thr_setup::Setup;
use vid_base::{BitReader, PacketFault};
use vid_geom::Geom;

/// Whether a packet needs a frame before it: one without bytes, or that of an inter frame by its first two bits.
pub(crate) fn needs_frame(packet: &[u8]) -> bool
    ensures { result ≡ needs_frame packet.now }
{
    match packet.first() {
        Some(byte) => *byte / 64 == 1,
        None => true,
    }
}

// Checks the fields of a packet: its coefficients are passed, and none is kept.
#[tactic(auto, unfolding(crate::specs::Parsed::coded_in, crate::specs::Parsed::parsed, crate::specs::Parsed::fields_of, crate::specs::CodedFrame::frame_of))]
fn check_fields(
    geom: &Geom,
    setup: &Setup,
    packet: &[u8],
    coded: &mut Coded,
    work: &mut Work,
) -> Result<(), PacketFault>
    requires sized { IsSized geom.now (frame_of coded.old) }
    requires work { IsWorkFor geom.now work.old }
    ensures value { OnOk result (IsOk (coded_in (contents setup.now) geom.now packet.now)) }
    ensures fault { IfErr result (λ fault. coded_in (contents setup.now) geom.now packet.now ≡ Err fault) }
    ensures sized { IsSized geom.now (frame_of coded.new) }
    ensures work { IsWorkFor geom.now work.new }
{
    let mut r = BitReader::new(packet);
    coded.intra = read_head(&mut r, &mut coded.qis)?;
    let (flags, modes, vectors) = (&mut coded.flags, &mut coded.modes, &mut coded.vectors);
    read_motion(
        &mut r,
        geom,
        coded.intra,
        flags,
        modes,
        vectors,
        &mut work.marks,
    )?;
    check_residue(
        &mut r,
        setup,
        geom,
        &coded.flags,
        coded.qis.len() as u8,
        &mut coded.places,
        &mut work.marks,
    )
}

/// Judges a frame's packet in lists that were made for frames of that geometry; takes no memory, and keeps no coefficients. The
/// first fault in reading order: `NotData`; `FirstNotKey`, where no frame was decoded before (not `started`) and the packet has
/// no bytes or is that of an inter frame; and those of `parse_into`. What the lists say afterwards is open.
#[tactic(auto, unfolding(crate::specs::Parsed::frame_in, crate::specs::Parsed::packet_in))]
pub fn check_frame(
    geom: &Geom,
    setup: &Setup,
    packet: &[u8],
    started: bool,
    coded: &mut Coded,
    work: &mut Work,
) -> Result<(), PacketFault>
    requires sized { IsSized geom.now (frame_of coded.old) }
    requires work { IsWorkFor geom.now work.old }
    ensures value { OnOk result (IsOk (frame_in (contents setup.now) geom.now started packet.now)) }
    ensures fault { IfErr result (λ fault. frame_in (contents setup.now) geom.now started packet.now ≡ Err fault) }
    ensures sized { IsSized geom.now (frame_of coded.new) }
    ensures work { IsWorkFor geom.now work.new }
{
    if !started && needs_frame(packet) {
        return Err(PacketFault::FirstNotKey);
    }
    if packet.is_empty() {
        return Ok(());
    }
    check_fields(geom, setup, packet, coded, work)
}
