// Which edges of a frame are filtered, and in which order (Theora I, 7.10.3).
ghost use Rattle.std.specs.Prelude.{◌≡◌, ◌+◌, ◌*◌, ◌<◌, ◌≤◌, IsTrue, length};
ghost use Rattle.std.specs.List.{fold};
ghost use Rattle.vid_geom.specs.Squares.{cell};
ghost use Rattle.vid_geom.specs.CodedOrder.{block_columns, block_rows, order_of};
ghost use Rattle.vid_plane.specs.Picture.{IsPicture, IsLike};
ghost use Rattle.vid_plane.specs.Frames.{IsFrameOf, IsPlaneOf};
ghost use Rattle.thr_loop.specs.EdgeRule.{edge_filtered};
ghost use Rattle.thr_loop.specs.Edges.{left_edge, lower_edge, edge_if, is_uncoded, block_edges, plane_edges};
ghost use Rattle.thr_loop.specs.Rows.{row_edges};
ghost use Rattle.thr_loop.specs.Filtered.{is_coded, filtered_plane, filtered_frame};

use crate::edges::{filter_level, filter_upright};
use vid_geom::{Block, Geom};
use vid_plane::{Frame, Plane};

/// The blocks of a plane, and which of them are coded.
#[derive(Clone, Copy)]
struct Blocks<'a> {
    geom: &'a Geom,
    /// Of all blocks of the frame, in coded order.
    flags: &'a [bool],
    pli: u8,
    columns: u32,
    rows: u32,
    ghost flagged: { length flags.now ≡ length (order_of geom.now) },
    ghost plane: { pli < 3 },
    ghost across: { columns ≡ block_columns geom.now pli },
    ghost upwards: { rows ≡ block_rows geom.now pli },
}

impl Blocks<'_> {
    fn is_coded(&self, col: u32, row: u32) -> bool
        requires column { col < self.now.columns }
        requires row { row < self.now.rows }
        ensures { result ≡ is_coded self.now.geom.now self.now.flags.now self.now.pli (cell col row) }
    {
        let pli = self.pli;
        self.flags[self.geom.place(Block { pli, col, row }) as usize]
    }

    /// Whether the plane has the block and it is not coded.
    fn is_uncoded(&self, col: u32, row: u32) -> bool
        ensures { result ≡ is_uncoded (is_coded self.now.geom.now self.now.flags.now self.now.pli) self.now.columns self.now.rows (cell col row) }
    {
        col < self.columns && row < self.rows && !self.is_coded(col, row)
    }
}

/// Filters the edge to the left of a block where the test holds.
fn filter_left_if(plane: &mut Plane, test: bool, col: u32, row: u32, limit: u8)
    requires sized { IsPicture plane.old }
    requires column { IsTrue test → 0 < col }
    requires right { IsTrue test → 8 * col + 8 ≤ plane.old.width }
    requires rows { 8 * row + 8 ≤ plane.old.height }
    requires limit { limit < 128 }
    ensures value { plane.new ≡ fold (edge_filtered limit) plane.old (edge_if test (left_edge (cell col row))) }
    ensures like { IsLike plane.old plane.new }
    ensures sized { IsPicture plane.new }
{
    if test {
        filter_upright(plane, 8 * col, 8 * row, limit);
    }
}

/// Filters the edge below a block where the test holds.
fn filter_lower_if(plane: &mut Plane, test: bool, col: u32, row: u32, limit: u8)
    requires sized { IsPicture plane.old }
    requires row { IsTrue test → 0 < row }
    requires above { IsTrue test → 8 * row + 8 ≤ plane.old.height }
    requires columns { 8 * col + 8 ≤ plane.old.width }
    requires limit { limit < 128 }
    ensures value { plane.new ≡ fold (edge_filtered limit) plane.old (edge_if test (lower_edge (cell col row))) }
    ensures like { IsLike plane.old plane.new }
    ensures sized { IsPicture plane.new }
{
    if test {
        filter_level(plane, 8 * col, 8 * row, limit);
    }
}

/// Filters the edges of a block.
fn filter_block(plane: &mut Plane, blocks: &Blocks<'_>, col: u32, row: u32, limit: u8)
    requires column { col < blocks.now.columns }
    requires row { row < blocks.now.rows }
    requires sized { IsPicture plane.old }
    requires wide { plane.old.width ≡ 8 * blocks.now.columns }
    requires high { plane.old.height ≡ 8 * blocks.now.rows }
    requires limit { limit < 128 }
    ensures value { plane.new ≡ fold (edge_filtered limit) plane.old (block_edges (is_coded blocks.now.geom.now blocks.now.flags.now blocks.now.pli) blocks.now.columns blocks.now.rows (cell col row)) }
    ensures like { IsLike plane.old plane.new }
    ensures sized { IsPicture plane.new }
{
    if !blocks.is_coded(col, row) {
        return;
    }
    filter_left_if(plane, 0 < col, col, row, limit);
    filter_lower_if(plane, 0 < row, col, row, limit);
    filter_left_if(plane, blocks.is_uncoded(col + 1, row), col + 1, row, limit);
    filter_lower_if(plane, blocks.is_uncoded(col, row + 1), col, row + 1, limit);
}

/// Filters the edges of a row of blocks.
fn filter_row(plane: &mut Plane, blocks: &Blocks<'_>, row: u32, limit: u8)
    requires row { row < blocks.now.rows }
    requires sized { IsPicture plane.old }
    requires wide { plane.old.width ≡ 8 * blocks.now.columns }
    requires high { plane.old.height ≡ 8 * blocks.now.rows }
    requires limit { limit < 128 }
    ensures value { plane.new ≡ fold (edge_filtered limit) plane.old (row_edges (is_coded blocks.now.geom.now blocks.now.flags.now blocks.now.pli) blocks.now.columns blocks.now.rows blocks.now.columns row) }
    ensures like { IsLike plane.old plane.new }
    ensures sized { IsPicture plane.new }
{
    for col in 0..blocks.columns {
        filter_block(plane, blocks, col, row, limit);
    }
}

/// Filters the edges of all rows of blocks.
fn filter_rows(plane: &mut Plane, blocks: &Blocks<'_>, limit: u8)
    requires sized { IsPicture plane.old }
    requires wide { plane.old.width ≡ 8 * blocks.now.columns }
    requires high { plane.old.height ≡ 8 * blocks.now.rows }
    requires limit { limit < 128 }
    ensures value { plane.new ≡ fold (edge_filtered limit) plane.old (plane_edges (is_coded blocks.now.geom.now blocks.now.flags.now blocks.now.pli) blocks.now.columns blocks.now.rows) }
    ensures like { IsLike plane.old plane.new }
{
    for row in 0..blocks.rows {
        filter_row(plane, blocks, row, limit);
    }
}

/// Filters the edges of a plane.
fn filter_plane(plane: &mut Plane, geom: &Geom, flags: &[bool], pli: u8, limit: u8)
    requires plane { pli < 3 }
    requires sized { IsPlaneOf geom.now pli plane.old }
    requires flags { length flags.now ≡ length (order_of geom.now) }
    requires limit { limit < 128 }
    ensures value { plane.new ≡ filtered_plane geom.now flags.now limit pli plane.old }
    ensures sized { IsPlaneOf geom.now pli plane.new }
{
    let blocks = Blocks {
        geom,
        flags,
        pli,
        columns: plane.width() / 8,
        rows: plane.height() / 8,
    };
    filter_rows(plane, &blocks, limit);
}

/// Filters the edges of a frame's coded blocks. `flags` tells which are coded, in coded order; `limit` is the filter limit of
/// the frame's first quantizer index (Theora I, 7.10.3).
pub fn filter(frame: &mut Frame, geom: &Geom, flags: &[bool], limit: u8)
    requires sized { IsFrameOf geom.now frame.old }
    requires flags { length flags.now ≡ length (order_of geom.now) }
    requires limit { limit < 128 }
    ensures value { frame.new ≡ filtered_frame geom.now flags.now limit frame.old }
    ensures sized { IsFrameOf geom.now frame.new }
{
    filter_plane(&mut frame.y, geom, flags, 0, limit);
    filter_plane(&mut frame.cb, geom, flags, 1, limit);
    filter_plane(&mut frame.cr, geom, flags, 2, limit);
}
