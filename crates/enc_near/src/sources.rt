// What the coefficients of a frame are made from.
ghost use Rattle.std.specs.Prelude.{◌≡◌, All, length};
ghost use Rattle.vid_geom.specs.CodedOrder.{order_of};
ghost use Rattle.vid_plane.specs.Frames.{IsFrameOf};
ghost use Rattle.thr_frame.specs.Painted.{AreSealed};
ghost use Rattle.enc_near.specs.Made.{AreEntries};

use vid_base::Vector;
use vid_geom::Geom;
use vid_plane::Frame;

/// What the coefficients of a frame are made from, where all its blocks are coded.
#[derive(Clone, Copy)]
pub(crate) struct Sources<'a> {
    pub geom: &'a Geom,
    pub target: &'a Frame,
    pub prev: &'a Frame,
    pub golden: &'a Frame,
    /// What each block is predicted from: 0 is nothing, 1 the previous frame, 2 the golden frame.
    pub kinds: &'a [u8],
    pub vectors: &'a [Vector],
    /// Those of intra blocks for the three planes, and then those of inter blocks.
    pub matrices: &'a [[u16; 64]; 6],
    ghost target_sized: { IsFrameOf geom.now target.now },
    ghost prev_sized: { IsFrameOf geom.now prev.now },
    ghost golden_sized: { IsFrameOf geom.now golden.now },
    ghost prev_sealed: { AreSealed prev.now },
    ghost golden_sealed: { AreSealed golden.now },
    ghost kinds_sized: { length kinds.now ≡ length (order_of geom.now) },
    ghost vectors_sized: { length vectors.now ≡ length (order_of geom.now) },
    ghost six: { length matrices.now ≡ 6 },
    ghost entries: { All AreEntries matrices.now },
}
