// A grid of cells and the walks through its squares (Theora I, 2.3 and 2.4).
ghost use Rattle.std.specs.Prelude.{◌≡◌, ◌<◌, ◌≤◌, ◌^◌, Some, All, length, map, slice_get};
ghost use Rattle.vid_geom.specs.Squares.{side_of, path_of, squares, squares_across, squares_up};
ghost use Rattle.vid_geom.specs.CodedOrder.{ranges_from};
ghost use Rattle.vid_geom.specs.Tables.{IsSmall};
ghost use Rattle.vid_geom.specs.Views.{cell_of, grid_of, walk_of};

/// A place in a grid.
#[derive(Clone, Copy)]
pub struct Cell {
    /// How many cells stand to the left of it.
    pub col: u32,
    /// How many cells stand below it.
    pub row: u32,
}

/// The way through the cells of a square.
#[derive(Clone, Copy)]
pub enum Walk {
    /// Through the 16 blocks of a superblock.
    Hilbert,
    /// Through the 4 macro blocks of a superblock, from the lower left upwards.
    Clockwise,
}

/// A grid of cells that is walked through square by square.
#[derive(Clone, Copy)]
pub struct Grid {
    pub walk: Walk,
    pub width: u32,
    pub height: u32,
}

static HILBERT: [Cell; 16] = [
    Cell { col: 0, row: 0 },
    Cell { col: 1, row: 0 },
    Cell { col: 1, row: 1 },
    Cell { col: 0, row: 1 },
    Cell { col: 0, row: 2 },
    Cell { col: 0, row: 3 },
    Cell { col: 1, row: 3 },
    Cell { col: 1, row: 2 },
    Cell { col: 2, row: 2 },
    Cell { col: 2, row: 3 },
    Cell { col: 3, row: 3 },
    Cell { col: 3, row: 2 },
    Cell { col: 3, row: 1 },
    Cell { col: 2, row: 1 },
    Cell { col: 2, row: 0 },
    Cell { col: 3, row: 0 },
];

static CLOCKWISE: [Cell; 4] = [
    Cell { col: 0, row: 0 },
    Cell { col: 0, row: 1 },
    Cell { col: 1, row: 1 },
    Cell { col: 1, row: 0 },
];

impl Walk {
    /// How many cells the side of a square has.
    pub fn side(self) -> u32
        ensures value { result ≡ side_of (walk_of self) }
        ensures small { result ≤ 4 }
    {
        match self {
            Walk::Hilbert => 4,
            Walk::Clockwise => 2,
        }
    }

    /// The cells of a whole square in order.
    pub fn path(self) -> &'static [Cell]
        ensures value { map cell_of result.now ≡ path_of (walk_of self) }
        ensures small { All (λ step. (step.col < 4) × (step.row < 4)) result.now }
    {
        match self {
            Walk::Hilbert => &HILBERT,
            Walk::Clockwise => &CLOCKWISE,
        }
    }
}

impl Grid {
    /// How many squares a row of squares has.
    pub fn squares_across(self) -> u32
        ensures { result ≡ squares_across (grid_of self) }
    {
        self.width.div_ceil(self.walk.side())
    }

    /// How many rows of squares there are.
    pub fn squares_up(self) -> u32
        ensures { result ≡ squares_up (grid_of self) }
    {
        self.height.div_ceil(self.walk.side())
    }

    /// How many squares there are.
    pub fn squares(self) -> u32
        requires { IsSmall (grid_of self) }
        ensures value { result ≡ length (squares (grid_of self)) }
        ensures small { result < 2 ^ 22 }
    {
        self.squares_across() * self.squares_up()
    }

    /// The first place of a square and the place past its last, where the cells' places begin at `from`.
    pub fn range(self, from: u32, square: u32) -> (u32, u32)
        requires small { IsSmall (grid_of self) }
        requires from { from < 2 ^ 22 }
        requires square { square < length (squares (grid_of self)) }
        ensures value { slice_get (ranges_from from (squares (grid_of self))) square ≡ Some result }
        ensures some { result.0 < result.1 }
    {
        let side = self.walk.side();
        let across = self.squares_across();
        // The rows of cells below the square are whole, and those to the left of it are as high as its row.
        let right = side * (square % across);
        let up = side * (square / across);
        let wide = side.min(self.width - right);
        let high = side.min(self.height - up);
        let first = from + up * self.width + right * high;
        (first, first + wide * high)
    }
}
