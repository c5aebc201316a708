// A block of a frame from its predictor and its residuals (Theora I, 7.9.4).
ghost use Rattle.std.specs.Prelude.{◌≡◌, ◌+◌, ◌≤◌};
ghost use Rattle.vid_plane.specs.Picture.{with_rows};
ghost use Rattle.vid_plane.specs.Paints.{Paints};
ghost use Rattle.thr_recon.specs.Predicted.{shown};
ghost use Rattle.thr_recon.specs.Rebuilt.{rebuilt, block_of};

use crate::predictor::Predictor;
use crate::rows::rebuilt_rows;
use vid_plane::Plane;

/// Writes the block whose lower left sample is in column x of row y: each predicted sample plus its residual, clamped to
/// 0 to 255 (Theora I, 7.9.4). The residuals are in natural order. No sample outside the block changes; the plane is unsealed.
pub fn rebuild_block(now: &mut Plane, x: u32, y: u32, p: &Predictor<'_>, r: &[i16; 64])
    requires columns { x + 8 ≤ now.old.width }
    requires rows { y + 8 ≤ now.old.height }
    ensures value { now.new ≡ with_rows now.old x y (block_of (rebuilt (shown p.now) r.now)) }
    ensures paints { Paints now.old now.new x y 8 8 (rebuilt (shown p.now) r.now) }
{
    now.set_block(x, y, &rebuilt_rows(&p.block(), r));
}
