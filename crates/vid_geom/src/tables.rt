// The cells of a grid in the order in which they are walked through, and the place of each (Theora I, 2.3 and 2.4).
ghost use Rattle.std.specs.Prelude.{◌≡◌, ◌+◌, ◌*◌, ◌<◌, ◌^◌, ◌++◌, length, map, OnOk, IfOk};
ghost use Rattle.vid_geom.specs.Squares.{only_inside, square, squares, square_row, joined, cells};
ghost use Rattle.vid_geom.specs.CodedOrder.{ranges_from};
ghost use Rattle.vid_geom.specs.Layout.{AreSome};
ghost use Rattle.vid_geom.specs.Tables.{IsSmall, HasPlaces};
ghost use Rattle.vid_geom.specs.Views.{cell_of, grid_of};

use crate::grid::{Cell, Grid};
use std::alloc::Global;
use vid_base::NoMem;

/// Adds the cell if the grid has it.
fn push_inside(out: &mut Vec<Cell>, grid: Grid, cell: Cell) -> Result<(), NoMem>
    ensures { OnOk result (map cell_of out.new.items ≡ map cell_of out.old.items ++ only_inside (grid_of grid) (cell_of cell)) }
{
    if cell.col < grid.width && cell.row < grid.height {
        out.push(cell)?;
    }
    Ok(())
}

/// Adds the cells of a square.
fn push_square(out: &mut Vec<Cell>, grid: Grid, col: u32, row: u32) -> Result<(), NoMem>
    requires col { col < 2 ^ 20 }
    requires row { row < 2 ^ 20 }
    ensures { OnOk result (map cell_of out.new.items ≡ map cell_of out.old.items ++ square (grid_of grid) col row) }
{
    let right = grid.walk.side() * col;
    let up = grid.walk.side() * row;
    let path = grid.walk.path();
    for step in path {
        let cell = Cell {
            col: right + step.col,
            row: up + step.row,
        };
        push_inside(out, grid, cell)?;
    }
    Ok(())
}

/// Adds the cells of a row of squares.
fn push_row(out: &mut Vec<Cell>, grid: Grid, row: u32) -> Result<(), NoMem>
    requires small { IsSmall (grid_of grid) }
    requires row { row < 2 ^ 20 }
    ensures { OnOk result (map cell_of out.new.items ≡ map cell_of out.old.items ++ joined (square_row (grid_of grid) row)) }
{
    for col in 0..grid.squares_across() {
        push_square(out, grid, col, row)?;
    }
    Ok(())
}

/// All cells of a grid in order.
pub fn cells_of(alloc: Global, grid: Grid) -> Result<Vec<Cell>, NoMem>
    requires { IsSmall (grid_of grid) }
    ensures { IfOk result (λ v. map cell_of v.items ≡ cells (grid_of grid)) }
{
    let mut order = Vec::with_capacity(alloc, (grid.width * grid.height) as usize)?;
    for row in 0..grid.squares_up() {
        push_row(&mut order, grid, row)?;
    }
    Ok(order)
}

/// The place of each cell in raster order.
pub fn places_of(alloc: Global, grid: Grid, order: &[Cell]) -> Result<Vec<u32>, NoMem>
    requires small { IsSmall (grid_of grid) }
    requires order { map cell_of order.now ≡ cells (grid_of grid) }
    ensures whole { IfOk result (λ v. length v.items ≡ grid.width * grid.height) }
    ensures placed { IfOk result (λ v. HasPlaces (grid_of grid) (map cell_of order.now) v.items) }
{
    let mut places = vec![in alloc; 0; (grid.width * grid.height) as usize]?;
    for (place, cell) in order.iter().enumerate() {
        places[(cell.row * grid.width + cell.col) as usize] = place as u32;
    }
    Ok(places)
}

/// Adds the first place of each square of a grid and the place past its last, where the cells' places begin at `from`.
fn push_ranges(out: &mut Vec<(u32, u32)>, grid: Grid, from: u32) -> Result<(), NoMem>
    requires small { IsSmall (grid_of grid) }
    requires from { from < 2 ^ 22 }
    ensures value { OnOk result (out.new.items ≡ out.old.items ++ ranges_from from (squares (grid_of grid))) }
    ensures some { AreSome out.old.items → OnOk result (AreSome out.new.items) }
{
    for square in 0..grid.squares() {
        out.push(grid.range(from, square))?;
    }
    Ok(())
}

/// The places of the superblocks of a frame, from the grids of its planes.
pub fn ranges_of(alloc: Global, luma: Grid, chroma: Grid) -> Result<Vec<(u32, u32)>, NoMem>
    requires luma { IsSmall (grid_of luma) }
    requires chroma { IsSmall (grid_of chroma) }
    ensures value { IfOk result (λ v. v.items ≡ ranges_from 0 (squares (grid_of luma))
        ++ ranges_from (luma.width * luma.height) (squares (grid_of chroma))
        ++ ranges_from (luma.width * luma.height + chroma.width * chroma.height) (squares (grid_of chroma))) }
    ensures some { IfOk result (λ v. AreSome v.items) }
{
    let cb = luma.width * luma.height;
    let cr = cb + chroma.width * chroma.height;
    let mut ranges = Vec::new(alloc);
    push_ranges(&mut ranges, luma, 0)?;
    push_ranges(&mut ranges, chroma, cb)?;
    push_ranges(&mut ranges, chroma, cr)?;
    Ok(ranges)
}
