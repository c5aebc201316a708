// The grids of a frame, and how many blocks a macro block has in a plane (Theora I, 2.3 and 2.4).
ghost use Rattle.std.specs.Prelude.{◌≡◌, ◌<◌};
ghost use Rattle.vid_geom.specs.CodedOrder.{block_grid};
ghost use Rattle.vid_geom.specs.MacroBlocks.{columns_in, rows_in, macro_grid};
ghost use Rattle.vid_geom.specs.Views.{grid_of};

use crate::grid::{Grid, Walk};
use vid_base::Shape;

/// The blocks of a plane as a grid of superblocks.
pub fn block_grid(shape: Shape, pli: u8) -> Grid
    requires { pli < 3 }
    ensures { grid_of result ≡ block_grid shape pli }
{
    Grid {
        walk: Walk::Hilbert,
        width: shape.width(pli) / 8,
        height: shape.height(pli) / 8,
    }
}

/// The macro blocks of a frame as a grid of the luma superblocks.
pub fn macro_grid(shape: Shape) -> Grid
    ensures { grid_of result ≡ macro_grid shape }
{
    Grid {
        walk: Walk::Clockwise,
        width: u32::from(shape.fmbw),
        height: u32::from(shape.fmbh),
    }
}

/// How many columns of blocks a macro block has in a plane.
pub fn columns_in(pf: u8, pli: u8) -> u32
    ensures { result ≡ columns_in pf pli }
{
    if pli == 0 || pf == 3 { 2 } else { 1 }
}

/// How many rows of blocks a macro block has in a plane.
pub fn rows_in(pf: u8, pli: u8) -> u32
    ensures { result ≡ rows_in pf pli }
{
    if pli == 0 || pf != 0 { 2 } else { 1 }
}
