// How far two frames are apart (own).
ghost use Rattle.std.specs.Prelude.{◌≡◌, ◌+◌, ◌*◌, ◌≤◌, ◌<◌, ◌^◌, length, max};
ghost use Rattle.std.specs.Int.{abs_diff};
ghost use Rattle.vid_base.specs.declared.shape.Shape.{Shape};
ghost use Rattle.vid_plane.specs.Picture.{IsLike};
ghost use Rattle.vid_plane.specs.Frames.{IsFrameOf};
ghost use Rattle.enc_frame.specs.Difference.{differences, greatest, samples_of, total};

use vid_plane::{Frame, Plane};

/// How far two frames are apart, over the samples of all planes.
#[derive(Clone, Copy, Debug, PartialEq, Eq)]
pub struct Diff {
    /// The greatest difference of two samples.
    pub max: u8,
    /// The sum of the differences.
    pub sum: u64,
}

// Two samples.
fn apart(a: u8, b: u8) -> u8
    ensures value { result ≡ abs_diff a b }
    ensures small { result ≤ 255 }
{
    a.abs_diff(b)
}

// With the differences of two rows.
fn with_row(diff: Diff, a: &[u8], b: &[u8]) -> Diff
    requires same { length a.now ≡ length b.now }
    requires room { diff.sum + 255 * length a.now < 2 ^ 64 }
    ensures max { result.max ≡ max diff.max (greatest (differences a.now b.now)) }
    ensures sum { result.sum ≡ diff.sum + total (differences a.now b.now) }
    ensures few { result.sum ≤ diff.sum + 255 * length a.now }
{
    let mut max = diff.max;
    let mut sum = diff.sum;
    'samples: for k in 0..a.len() {
        let apart = apart(a[k], b[k]);
        max = max.max(apart);
        sum += u64::from(apart);
    }
    Diff { max, sum }
}

// With those of two planes.
fn with_plane(diff: Diff, a: &Plane, b: &Plane) -> Diff
    requires like { IsLike a.now b.now }
    requires room { diff.sum ≤ 2 ^ 40 }
    ensures max { result.max ≡ max diff.max (greatest (differences a.now.samples b.now.samples)) }
    ensures sum { result.sum ≡ diff.sum + total (differences a.now.samples b.now.samples) }
    ensures few { result.sum ≤ diff.sum + 2 ^ 33 }
    ensures same { length a.now.samples ≡ length b.now.samples }
{
    let mut far = diff;
    let _width = a.width();
    let _like = b.height();
    'rows: for y in 0..a.height() {
        far = with_row(far, a.row(y), b.row(y));
    }
    far
}

/// How far the samples of two frames of one shape are apart.
#[tactic(auto, unfolding(crate::specs::Difference::samples_of))]
pub(crate) fn compare(a: &Frame, b: &Frame) -> Diff
    requires y { IsLike a.now.y b.now.y }
    requires cb { IsLike a.now.cb b.now.cb }
    requires cr { IsLike a.now.cr b.now.cr }
    ensures max { result.max ≡ greatest (differences (samples_of a.now) (samples_of b.now)) }
    ensures sum { result.sum ≡ total (differences (samples_of a.now) (samples_of b.now)) }
{
    let none = Diff { max: 0, sum: 0 };
    let luma = with_plane(none, &a.y, &b.y);
    let blue = with_plane(luma, &a.cb, &b.cb);
    with_plane(blue, &a.cr, &b.cr)
}
