// The lists of a new encoder (own).
ghost use Rattle.std.specs.Prelude.{◌≡◌, IfOk};
ghost use Rattle.vid_plane.specs.Frames.{IsFrameOf};
ghost use Rattle.thr_frame.specs.CodedFrame.{IsSized, frame_of};
ghost use Rattle.thr_frame.specs.Parsed.{zero_frame};
ghost use Rattle.thr_frame.specs.Work.{IsWorkFor};

use std::alloc::Global;
use thr_frame::{Coded, Work};
use vid_base::NoMem;
use vid_geom::Geom;
use vid_plane::Frame;

/// The lists of an intra frame, those that a packet is parsed into and with, and a frame for the target.
pub(crate) fn lists(alloc: Global, geom: &Geom) -> Result<(Coded, Coded, Work, Frame), NoMem>
    ensures whole { IfOk result (λ made. frame_of made.0 ≡ zero_frame geom.now) }
    ensures coded { IfOk result (λ made. IsSized geom.now (frame_of made.1)) }
    ensures work { IfOk result (λ made. IsWorkFor geom.now made.2) }
    ensures target { IfOk result (λ made. IsFrameOf geom.now made.3) }
{
    let whole = Coded::new(alloc, geom)?;
    let coded = Coded::new(alloc, geom)?;
    let work = Work::new(alloc, geom)?;
    let target = Frame::new(alloc, geom.shape())?;
    Ok((whole, coded, work, target))
}
