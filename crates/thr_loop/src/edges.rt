// One edge of a plane, filtered (Theora I, 7.10.1 and 7.10.2).
ghost use Rattle.std.specs.Prelude.{◌≡◌, ◌+◌, ◌<◌, ◌≤◌};
ghost use Rattle.vid_plane.specs.Picture.{IsPicture, IsLike};
ghost use Rattle.thr_loop.specs.EdgeRule.{edge_filtered, Upright, Level};
ghost use Rattle.thr_loop.specs.Lanes.{AreLines};

use crate::lines::{Lines, filtered};
use vid_plane::Plane;

fn upright_lines(plane: &Plane, x: u32, y: u32) -> Lines
    requires sized { IsPicture plane.now }
    requires left { 2 ≤ x }
    requires right { x + 2 ≤ plane.now.width }
    requires rows { y + 8 ≤ plane.now.height }
    ensures { AreLines plane.now (Upright x y) result }
{
    let mut lines = Lines {
        p0: [0; 8],
        p1: [0; 8],
        p2: [0; 8],
        p3: [0; 8],
    };
    for k in 0..8 {
        let [p0, p1, p2, p3] = plane.four(x - 2, y + k as u32);
        lines.p0[k] = p0;
        lines.p1[k] = p1;
        lines.p2[k] = p2;
        lines.p3[k] = p3;
    }
    lines
}

fn level_lines(plane: &Plane, x: u32, y: u32) -> Lines
    requires sized { IsPicture plane.now }
    requires columns { x + 8 ≤ plane.now.width }
    requires below { 2 ≤ y }
    requires above { y + 2 ≤ plane.now.height }
    ensures { AreLines plane.now (Level x y) result }
{
    Lines {
        p0: plane.row8(x, y - 2),
        p1: plane.row8(x, y - 1),
        p2: plane.row8(x, y),
        p3: plane.row8(x, y + 1),
    }
}

/// Filters the edge to the left of column x, from row y on.
pub fn filter_upright(plane: &mut Plane, x: u32, y: u32, limit: u8)
    requires sized { IsPicture plane.old }
    requires left { 2 ≤ x }
    requires right { x + 2 ≤ plane.old.width }
    requires rows { y + 8 ≤ plane.old.height }
    requires limit { limit < 128 }
    ensures value { plane.new ≡ edge_filtered limit plane.old (Upright x y) }
    ensures like { IsLike plane.old plane.new }
    ensures sized { IsPicture plane.new }
{
    let sides = filtered(&upright_lines(plane, x, y), limit);
    for k in 0..8 {
        plane.put_two(x - 1, y + k as u32, [sides.before[k], sides.behind[k]]);
    }
}

/// Filters the edge below row y, from column x on.
pub fn filter_level(plane: &mut Plane, x: u32, y: u32, limit: u8)
    requires sized { IsPicture plane.old }
    requires columns { x + 8 ≤ plane.old.width }
    requires below { 2 ≤ y }
    requires above { y + 2 ≤ plane.old.height }
    requires limit { limit < 128 }
    ensures value { plane.new ≡ edge_filtered limit plane.old (Level x y) }
    ensures like { IsLike plane.old plane.new }
    ensures sized { IsPicture plane.new }
{
    let sides = filtered(&level_lines(plane, x, y), limit);
    plane.put_row8(x, y - 1, sides.before);
    plane.put_row8(x, y, sides.behind);
}
