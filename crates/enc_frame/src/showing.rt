// A packet shown: parsed, its frame rebuilt, and appended (own).
ghost use Rattle.std.specs.Prelude.{◌≡◌, ◌++◌, ◌+◌, ◌≤◌, IsOk, OnErr, OnOk, Ok, length, not, true, vec_capacity, vec_len};
ghost use Rattle.thr_setup.specs.Setup.{contents};
ghost use Rattle.thr_frame.specs.CodedFrame.{IsCodedFrame, IsSized, frame_of};
ghost use Rattle.thr_frame.specs.Parsed.{coded_in, needs_frame};
ghost use Rattle.thr_frame.specs.Rebuilt.{pair_in};
ghost use Rattle.thr_frame.specs.Decoding.{decoded};
ghost use Rattle.thr_frame.specs.Ready.{IsStore};
ghost use Rattle.thr_frame.specs.Work.{IsWorkFor};

use thr_frame::{Coded, Work, parse_into, rebuild_frame};
use thr_setup::Setup;
use vid_base::NoMem;
use vid_geom::Geom;
use vid_plane::RefStore;

// Appends bytes for which there is room.
fn add(out: &mut Vec<u8>, bytes: &[u8])
    requires { vec_len out.old + length bytes.now ≤ vec_capacity out.old }
    ensures { out.new.items ≡ out.old.items ++ bytes.now }
{
    let _ = out.extend_from_slice(bytes);
}

// Parses a packet that has no fault.
fn parse(geom: &Geom, setup: &Setup, packet: &[u8], coded: &mut Coded, work: &mut Work)
    requires says { IsOk (coded_in (contents setup.now) geom.now packet.now) }
    requires sized { IsSized geom.now (frame_of coded.old) }
    requires work { IsWorkFor geom.now work.old }
    ensures value { coded_in (contents setup.now) geom.now packet.now ≡ Ok (frame_of coded.new) }
    ensures intra { coded.new.intra ≡ not (needs_frame packet.now) }
    ensures rebuildable { IsCodedFrame geom.now (frame_of coded.new) }
    ensures sized { IsSized geom.now (frame_of coded.new) }
    ensures work { IsWorkFor geom.now work.new }
{
    match parse_into(geom, setup, packet, coded, work) {
        Ok(()) => {}
        Err(_) => unreachable!(),
    }
}

/// Takes a packet as a decoder does, and appends it. Where memory is lacking no frame and no byte has changed.
pub(crate) fn show(
    store: &mut RefStore,
    geom: &Geom,
    setup: &Setup,
    packet: &[u8],
    coded: &mut Coded,
    work: &mut Work,
    out: &mut Vec<u8>,
) -> Result<(), NoMem>
    requires store { IsStore geom.now store.old }
    requires says { IsOk (coded_in (contents setup.now) geom.now packet.now) }
    requires first { needs_frame packet.now ≡ true → store.old.started ≡ true }
    requires sized { IsSized geom.now (frame_of coded.old) }
    requires work { IsWorkFor geom.now work.old }
    ensures value { OnOk result (decoded (contents setup.now) geom.now (pair_in store.old) packet.now ≡ Ok (pair_in store.new)) }
    ensures started { OnOk result (store.new.started ≡ true) }
    ensures appended { OnOk result (out.new.items ≡ out.old.items ++ packet.now) }
    ensures memory { OnErr result ((store.new ≡ store.old) × (out.new.items ≡ out.old.items)) }
    ensures store { IsStore geom.now store.new }
    ensures sized { IsSized geom.now (frame_of coded.new) }
    ensures work { IsWorkFor geom.now work.new }
{
    parse(geom, setup, packet, coded, work);
    out.try_reserve(packet.len())?;
    rebuild_frame(store, geom, setup, coded);
    add(out, packet);
    Ok(())
}
