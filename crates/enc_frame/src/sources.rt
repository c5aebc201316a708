// What a packet is made from (own).
ghost use Rattle.std.specs.Prelude.{◌≡◌};
ghost use Rattle.vid_plane.specs.Frames.{IsFrameOf};
ghost use Rattle.thr_setup.specs.Setup.{contents};
ghost use Rattle.thr_frame.specs.Painted.{AreSealed};
ghost use Rattle.enc_packet.specs.FullRows.{full_rows};

use enc_packet::Rows;
use thr_setup::Setup;
use vid_geom::Geom;
use vid_plane::Frame;

/// What a packet is made from: the stream, the frame that is to be shown, and those that it is predicted from.
#[derive(Clone, Copy)]
pub(crate) struct Sources<'a> {
    pub geom: &'a Geom,
    pub setup: &'a Setup,
    pub rows: &'a Rows,
    pub target: &'a Frame,
    pub prev: &'a Frame,
    pub golden: &'a Frame,
    ghost rows_are: { rows.now ≡ full_rows (contents setup.now).forest },
    ghost target_sized: { IsFrameOf geom.now target.now },
    ghost prev_sized: { IsFrameOf geom.now prev.now },
    ghost golden_sized: { IsFrameOf geom.now golden.now },
    ghost prev_sealed: { AreSealed prev.now },
    ghost golden_sealed: { AreSealed golden.now },
}
