// The DC values of a frame (Theora I, 7.8).
ghost use Rattle.std.specs.Prelude.{◌≡◌, length};
ghost use Rattle.vid_geom.specs.CodedOrder.{order_of};
ghost use Rattle.thr_dc.specs.Changes.{plane_by};
ghost use Rattle.thr_dc.specs.Frames.{ChangesDc, IsWithin, with_planes};
ghost use Rattle.thr_dc.specs.Prediction.{applied, limited, undone};
ghost use Rattle.thr_dc.specs.Walks.{RewritesAll};

use crate::change::Change;
use crate::plane::Plane;
use thr_token::Coeffs;
use vid_geom::Geom;

/// Changes the DC values of the three planes.
fn change_planes(
    geom: &Geom,
    flags: &[bool],
    kinds: &[u8],
    values: &mut [[i16; 64]],
    change: Change,
)
    requires flags { length flags.now ≡ length (order_of geom.now) }
    requires kinds { length kinds.now ≡ length (order_of geom.now) }
    requires values { length values.old ≡ length (order_of geom.now) }
    ensures { RewritesAll (plane_by change) geom.now flags.now kinds.now values.old values.new }
{
    'planes: for pli in 0..3u8 {
        let plane = Plane::new(geom, flags, kinds, pli);
        plane.change(values, change);
    }
}

/// Changes the DC values of a frame.
fn change_frame(geom: &Geom, flags: &[bool], kinds: &[u8], coeffs: &mut Coeffs, change: Change)
    requires flags { length flags.now ≡ length (order_of geom.now) }
    requires kinds { length kinds.now ≡ length (order_of geom.now) }
    requires values { length coeffs.old.values.items ≡ length (order_of geom.now) }
    ensures values { RewritesAll (plane_by change) geom.now flags.now kinds.now coeffs.old.values.items coeffs.new.values.items }
    ensures counts { coeffs.new.counts.items ≡ coeffs.old.counts.items }
{
    change_planes(geom, flags, kinds, &mut coeffs.values, change);
}

/// Turns the coded differences of a frame into its DC values: each coded block's coefficient at place 0 grows by its
/// predictor, cut to 16 bits (Theora I, 7.8.2). `flags` and `kinds` and the coefficients have an entry for each block in coded
/// order; a kind is 0 where the block is predicted from nothing, 1 from the previous frame, 2 from the golden frame.
pub fn undo_dc(geom: &Geom, flags: &[bool], kinds: &[u8], coeffs: &mut Coeffs)
    requires flags { length flags.now ≡ length (order_of geom.now) }
    requires kinds { length kinds.now ≡ length (order_of geom.now) }
    requires values { length coeffs.old.values.items ≡ length (order_of geom.now) }
    ensures value { coeffs.new.values.items ≡ with_planes undone geom.now flags.now kinds.now coeffs.old.values.items }
    ensures changes { ChangesDc flags.now coeffs.old.values.items coeffs.new.values.items }
    ensures sized { length coeffs.new.values.items ≡ length (order_of geom.now) }
    ensures counts { coeffs.new.counts.items ≡ coeffs.old.counts.items }
{
    change_frame(geom, flags, kinds, coeffs, Change::Undo);
}

/// Turns the DC values of a frame into coded differences, otherwise as `undo_dc`, which turns them back.
pub fn apply_dc(geom: &Geom, flags: &[bool], kinds: &[u8], coeffs: &mut Coeffs)
    requires flags { length flags.now ≡ length (order_of geom.now) }
    requires kinds { length kinds.now ≡ length (order_of geom.now) }
    requires values { length coeffs.old.values.items ≡ length (order_of geom.now) }
    ensures value { coeffs.new.values.items ≡ with_planes applied geom.now flags.now kinds.now coeffs.old.values.items }
    ensures reads_back { with_planes undone geom.now flags.now kinds.now coeffs.new.values.items ≡ coeffs.old.values.items }
    ensures changes { ChangesDc flags.now coeffs.old.values.items coeffs.new.values.items }
    ensures sized { length coeffs.new.values.items ≡ length (order_of geom.now) }
    ensures counts { coeffs.new.counts.items ≡ coeffs.old.counts.items }
{
    change_frame(geom, flags, kinds, coeffs, Change::Apply);
}

/// Changes the DC values of a frame so that none is more than 580 from its predictor: in raster order each becomes the number
/// nearest to it from `p - 580` to `p + 580`, where p is its predictor from the values so far (own). They are to be within
/// -580 to 580, and so they are afterwards, and so are the differences that `apply_dc` then gives. Otherwise as `undo_dc`.
pub fn limit_dc(geom: &Geom, flags: &[bool], kinds: &[u8], coeffs: &mut Coeffs)
    requires flags { length flags.now ≡ length (order_of geom.now) }
    requires kinds { length kinds.now ≡ length (order_of geom.now) }
    requires values { length coeffs.old.values.items ≡ length (order_of geom.now) }
    requires within { IsWithin 580 flags.now coeffs.old.values.items }
    ensures value { coeffs.new.values.items ≡ with_planes limited geom.now flags.now kinds.now coeffs.old.values.items }
    ensures within { IsWithin 580 flags.now coeffs.new.values.items }
    ensures differences { IsWithin 580 flags.now (with_planes applied geom.now flags.now kinds.now coeffs.new.values.items) }
    ensures changes { ChangesDc flags.now coeffs.old.values.items coeffs.new.values.items }
    ensures sized { length coeffs.new.values.items ≡ length (order_of geom.now) }
    ensures counts { coeffs.new.counts.items ≡ coeffs.old.counts.items }
{
    change_frame(geom, flags, kinds, coeffs, Change::Limit);
}
