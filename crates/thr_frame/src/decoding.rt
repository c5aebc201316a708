// A packet with bytes decoded: parsed, and its frame rebuilt (Theora I, 7.11).
ghost use Rattle.std.specs.Prelude.{◌≡◌, ◌&&◌, Err, Ok, IfErr, IfOk, OnErr, OnOk, not, true};
ghost use Rattle.thr_setup.specs.Setup.{contents};
ghost use Rattle.thr_token.specs.Tokenised.{AreBlank};
ghost use Rattle.thr_frame.specs.CodedFrame.{IsCodedFrame, frame_of};
ghost use Rattle.thr_frame.specs.Work.{IsWorkFor};
ghost use Rattle.thr_frame.specs.Parsed.{coded_in, needs_frame};
ghost use Rattle.thr_frame.specs.Rebuilt.{pair_in};
ghost use Rattle.thr_frame.specs.Decoding.{decoded};
ghost use Rattle.thr_frame.specs.Ready.{AreLists, IsStore};

use crate::checking::needs_frame;
use crate::clearing::{clear, clear_coded};
use crate::coded::Coded;
use crate::frame::rebuild_frame;
use crate::parsing::parse_blank;
use crate::work::Work;
use thr_setup::Setup;
use vid_base::PacketFault;
use vid_geom::Geom;
use vid_plane::RefStore;

/// Whether a packet needs a frame before it and there was none.
pub(crate) fn lacks_frame(started: bool, packet: &[u8]) -> bool
    ensures { result ≡ (not started && needs_frame packet.now) }
{
    !started && needs_frame(packet)
}

/// Parses a packet into blank lists. After a fault they are blank again.
fn parse_or_clear(
    geom: &Geom,
    setup: &Setup,
    packet: &[u8],
    coded: &mut Coded,
    work: &mut Work,
) -> Result<(), PacketFault>
    requires { AreLists geom.now coded.old work.old }
    ensures value { OnOk result (coded_in (contents setup.now) geom.now packet.now ≡ Ok (frame_of coded.new)) }
    ensures fault { IfErr result (λ fault. coded_in (contents setup.now) geom.now packet.now ≡ Err fault) }
    ensures intra { OnOk result (coded.new.intra ≡ not (needs_frame packet.now)) }
    ensures rebuildable { OnOk result (IsCodedFrame geom.now (frame_of coded.new)) }
    ensures blank { OnOk result (AreBlank coded.new.flags.items coded.new.coeffs.values.items) }
    ensures work { IsWorkFor geom.now work.new }
    ensures lists { OnErr result (AreLists geom.now coded.new work.new) }
{
    if let Err(fault) = parse_blank(geom, setup, packet, coded, work) {
        clear(geom, coded);
        return Err(fault);
    }
    Ok(())
}

/// Parses a packet and then rebuilds its frame; whether it is intra. The first fault in reading order, and then no frame has
/// changed. The lists are blank before and afterwards.
pub(crate) fn decode(
    store: &mut RefStore,
    geom: &Geom,
    setup: &Setup,
    packet: &[u8],
    coded: &mut Coded,
    work: &mut Work,
) -> Result<bool, PacketFault>
    requires store { IsStore geom.now store.old }
    requires lists { AreLists geom.now coded.old work.old }
    requires first { needs_frame packet.now ≡ true → store.old.started ≡ true }
    ensures value { OnOk result (decoded (contents setup.now) geom.now (pair_in store.old) packet.now ≡ Ok (pair_in store.new)) }
    ensures started { OnOk result (store.new.started ≡ true) }
    ensures intra { IfOk result (λ intra. intra ≡ not (needs_frame packet.now)) }
    ensures fault { IfErr result (λ fault. coded_in (contents setup.now) geom.now packet.now ≡ Err fault) }
    ensures same { OnErr result (store.new ≡ store.old) }
    ensures store { IsStore geom.now store.new }
    ensures lists { AreLists geom.now coded.new work.new }
{
    parse_or_clear(geom, setup, packet, coded, work)?;
    let intra = coded.intra;
    rebuild_frame(store, geom, setup, coded);
    clear_coded(geom, coded);
    Ok(intra)
}
