// The packets of frames (Theora I, 7.1 and A.2.3).
ghost use Rattle.std.specs.Prelude.{◌≡◌, ◌<◌, ◌^◌, IfErr, OnOk, Ok, Err};
ghost use Rattle.thr_ident.specs.Ident.{header_of};
ghost use Rattle.thr_setup.specs.Setup.{contents};
ghost use Rattle.src_index.specs.Said.{WithSetup};
ghost use Rattle.src_index.specs.Checks.{frame_step, is_near as is_near_in};
ghost use Rattle.src_index.specs.Quantiser.{quantiser_behind as quantiser_of};

use crate::headers::Whole;
use ogg_link::Counted;
use thr_frame::check_frame;
use vid_base::PacketFault;

/// How many packets precede the frames.
pub(crate) const HEADERS: u64 = 3;

/// The most packets of a track: the headers and 2^24 frames (own).
pub(crate) const MOST_PACKETS: u64 = HEADERS + (1 << 24);

/// The most bytes of a packet (own).
pub(crate) const MOST_BYTES: usize = 1 << 30;

// The quantiser behind a frame: the first quantiser index of its head, or that before it where it has no byte.
pub(crate) fn quantiser_behind(before: u8, packet: &[u8]) -> u8
    requires { before < 64 }
    ensures value { result ≡ quantiser_of before packet.now }
    ensures bound { result < 64 }
{
    match packet.first() {
        Some(byte) => *byte % 64,
        None => before,
    }
}

// Whether a granule position can count a frame behind its last key frame.
fn is_near(shift: u8, frame: u64, last_key: Option<u64>) -> bool
    requires { shift < 2 ^ 5 }
    ensures { result ≡ is_near_in shift frame last_key }
{
    match last_key {
        Some(key) => frame.saturating_sub(key) < 1 << shift,
        None => false,
    }
}

impl Whole {
    // A packet that carries a frame: it is parsed, and no picture is made of it.
    #[tactic(auto, using(crate::proofs::CheckLemmas::behind_ok))]
    pub(crate) fn check(&mut self, counted: Counted, packet: &[u8]) -> Result<(), PacketFault>
        ensures headers { self.new.headers ≡ self.old.headers }
        ensures said { OnOk result (frame_step (header_of self.old.headers.ident.header) (contents self.old.headers.setup.header) counted packet.now
            ≡ Ok (WithSetup (header_of self.old.headers.ident.header) (contents self.old.headers.setup.header))) }
        ensures fault { IfErr result (λ fault. frame_step (header_of self.old.headers.ident.header) (contents self.old.headers.setup.header) counted packet.now ≡ Err fault) }
    {
        let frame = counted.number.saturating_sub(HEADERS);
        let setup = &self.headers.setup;
        check_frame(
            &self.geom,
            &setup.header,
            packet,
            frame > 0,
            &mut self.coded,
            &mut self.work,
        )?;
        if is_near(self.headers.ident.header.shift, frame, counted.last_key) {
            Ok(())
        } else {
            Err(PacketFault::KeyTooFar)
        }
    }
}
