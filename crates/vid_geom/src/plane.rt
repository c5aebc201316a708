// The tables of a plane's blocks, from a place to its cell and back (Theora I, 2.3).
ghost use Rattle.std.specs.Prelude.{◌≡◌, ◌*◌, ◌<◌, ◌^◌, Some, IfOk, slice_get};
ghost use Rattle.vid_geom.specs.Squares.{cells};
ghost use Rattle.vid_geom.specs.Tables.{IsSmall};
ghost use Rattle.vid_geom.specs.Views.{cell_of, grid_of};

use crate::grid::{Cell, Grid};
use crate::tables::{cells_of, places_of};
use std::alloc::Global;
use std::marker::Model;
use vid_base::NoMem;

/// A plane's blocks as cells in coded order, and the place of each cell in raster order.
#[derive(Drop)]
pub struct Plane {
    grid: Grid,
    order: Vec<Cell>,
    places: Vec<u32>,
}

impl Model for Plane {
    ghost use Rattle.std.specs.Prelude.{map};
    ghost use Rattle.vid_geom.specs.Squares.{Grid};
    ghost use Rattle.vid_geom.specs.Tables.{AreTables};
    ghost use Rattle.vid_geom.specs.Views.{cell_of, grid_of};

    ghost Value = { Grid };

    ghost view = { λ p. grid_of p.grid };

    ghost invariant = { λ p. AreTables (grid_of p.grid) (map cell_of p.order.items) p.places.items };
}

impl Plane {
    /// Fills the tables.
    pub fn new(alloc: Global, grid: Grid) -> Result<Plane, NoMem>
        requires { IsSmall (grid_of grid) }
        ensures { IfOk result (λ p. p ≡ grid_of grid) }
    {
        let order = cells_of(alloc, grid)?;
        let places = places_of(alloc, grid, &order)?;
        Ok(Plane {
            grid,
            order,
            places,
        })
    }

    /// The grid of the blocks.
    pub fn grid(&self) -> Grid
        ensures value { grid_of result ≡ self.now }
        ensures small { IsSmall self.now }
    {
        self.grid
    }

    /// How many blocks the plane has.
    pub fn blocks(&self) -> u32
        ensures value { result ≡ self.now.width * self.now.height }
        ensures small { IsSmall self.now }
    {
        self.grid.width * self.grid.height
    }

    /// The cell at a place.
    pub fn cell(&self, place: u32) -> Cell
        requires { place < self.now.width * self.now.height }
        ensures { slice_get (cells self.now) place ≡ Some (cell_of result) }
    {
        self.order[place as usize]
    }

    /// The place of a cell.
    pub fn place(&self, cell: Cell) -> u32
        requires column { cell.col < self.now.width }
        requires row { cell.row < self.now.height }
        ensures value { slice_get (cells self.now) result ≡ Some (cell_of cell) }
        ensures small { result < 2 ^ 19 }
    {
        self.places[(cell.row * self.grid.width + cell.col) as usize]
    }
}
