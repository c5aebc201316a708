// What a frame is rebuilt from.
ghost use Rattle.std.specs.Prelude.{◌<◌};
ghost use Rattle.vid_plane.specs.Frames.{IsFrameOf};
ghost use Rattle.thr_setup.specs.Setup.{contents};
ghost use Rattle.thr_frame.specs.CodedFrame.{IsCodedFrame, frame_of};
ghost use Rattle.thr_frame.specs.Painted.{AreMatrices, AreSealed};

use crate::coded::Coded;
use thr_setup::Setup;
use vid_geom::Geom;
use vid_plane::Frame;

/// What the blocks of a frame are rebuilt from.
#[derive(Clone, Copy)]
pub(crate) struct Sources<'a> {
    pub geom: &'a Geom,
    pub setup: &'a Setup,
    pub coded: &'a Coded,
    pub prev: &'a Frame,
    pub golden: &'a Frame,
    ghost whole: { IsCodedFrame geom.now (frame_of coded.now) },
    ghost prev_sized: { IsFrameOf geom.now prev.now },
    ghost golden_sized: { IsFrameOf geom.now golden.now },
    ghost prev_sealed: { AreSealed prev.now },
    ghost golden_sealed: { AreSealed golden.now },
}

/// What the blocks of a plane are rebuilt from.
#[derive(Clone, Copy)]
pub(crate) struct PlaneSources<'a> {
    pub from: Sources<'a>,
    pub pli: u8,
    /// At each place in QIS the matrix of intra blocks, and three places on that of inter blocks.
    pub matrices: &'a [[u16; 64]; 6],
    ghost plane: { pli < 3 },
    ghost filled: { AreMatrices (contents from.setup.now) (frame_of from.coded.now) pli matrices.now },
}
