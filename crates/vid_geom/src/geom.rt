// The layout of a frame: its blocks, superblocks and macro blocks (Theora I, 2.3 and 2.4).
ghost use Rattle.std.specs.Prelude.{◌≡◌, ◌+◌, ◌*◌, ◌<◌, ◌≤◌, ◌^◌, ◌++◌, Some, IfOk, IsSomeAnd, All, length, map, slice_get, take};
ghost use Rattle.vid_geom.specs.Squares.{joined, cell, cells, moved};
ghost use Rattle.vid_geom.specs.CodedOrder.{block_columns, block_rows, block_grid, plane_blocks, blocks_before, block_of, IsBlock, IsPlaceIn, NamesEachOnce, order_of, place_of, superblocks, superblock_ranges, most_blocks};
ghost use Rattle.vid_geom.specs.ByBlock.{OwnBlocks};
ghost use Rattle.vid_geom.specs.MacroBlocks.{columns_in, rows_in, blocks_in, filled, macro_blocks, macro_grid, macro_order, IsMacroBlock};
ghost use Rattle.vid_geom.specs.Views.{cell_of};

use crate::block::{Block, MacroBlock};
use crate::grid::Cell;
use crate::layout::{block_grid, columns_in, macro_grid, rows_in};
use crate::plane::Plane;
use crate::tables::{cells_of, ranges_of};
use std::alloc::Global;
use std::marker::Model;
use vid_base::{NoMem, Shape};

/// The layout of the frames of one shape. Its tables are made once; a look-up takes constant time and no memory.
#[derive(Drop)]
pub struct Geom {
    shape: Shape,
    luma: Plane,
    /// Cb, and Cr too: their blocks lie alike.
    chroma: Plane,
    /// The first place of each superblock, and the place past its last.
    superblocks: Vec<(u32, u32)>,
    macro_blocks: Vec<Cell>,
}

impl Model for Geom {
    ghost use Rattle.vid_base.specs.declared.shape.Shape.{Shape};
    ghost use Rattle.std.specs.Prelude.{map};
    ghost use Rattle.vid_geom.specs.Layout.{IsLayout};
    ghost use Rattle.vid_geom.specs.Views.{cell_of};

    ghost Value = { Shape };

    ghost view = { λ g. g.shape };

    ghost invariant = { λ g. IsLayout g.shape g.luma g.chroma g.superblocks.items (map cell_of g.macro_blocks.items) };
}

impl Geom {
    /// Makes the tables of a shape.
    pub fn new(alloc: Global, shape: Shape) -> Result<Geom, NoMem>
        ensures { IfOk result (λ g. g ≡ shape) }
    {
        let luma = Plane::new(alloc, block_grid(shape, 0))?;
        let chroma = Plane::new(alloc, block_grid(shape, 1))?;
        let superblocks = ranges_of(alloc, luma.grid(), chroma.grid())?;
        let macro_blocks = cells_of(alloc, macro_grid(shape))?;
        Ok(Geom {
            shape,
            luma,
            chroma,
            superblocks,
            macro_blocks,
        })
    }

    /// The shape of the frames.
    pub fn shape(&self) -> Shape
        ensures { result ≡ self.now }
    {
        self.shape
    }

    /// How many blocks a frame has, in all planes.
    pub fn blocks(&self) -> u32
        ensures value { result ≡ length (order_of self.now) }
        ensures planes { result ≡ plane_blocks self.now 0 + plane_blocks self.now 1 + plane_blocks self.now 2 }
        ensures macro_blocks { result ≡ self.now.fmbw * self.now.fmbh * (4 + 2 * (columns_in self.now.pf 1 * rows_in self.now.pf 1)) }
        ensures most { result ≤ most_blocks }
        ensures each_once { NamesEachOnce self.now (order_of self.now) }
    {
        self.luma.blocks() + 2 * self.chroma.blocks()
    }

    /// The tables of a plane.
    fn plane(&self, pli: u8) -> &Plane
        requires { pli < 3 }
        ensures { result.now ≡ block_grid self.now pli }
    {
        if pli == 0 { &self.luma } else { &self.chroma }
    }

    /// How many blocks the planes before a plane have.
    fn blocks_before(&self, pli: u8) -> u32
        requires { pli < 3 }
        ensures value { result ≡ blocks_before self.now pli }
        ensures small { result ≤ 2 ^ 20 }
    {
        match pli {
            0 => 0,
            1 => self.luma.blocks(),
            _ => self.luma.blocks() + self.chroma.blocks(),
        }
    }

    /// The plane of the block at a coded place.
    #[tactic(auto, using(crate::proofs::OrderLemmas::order_length))]
    fn plane_at(&self, place: u32) -> u8
        requires { place < length (order_of self.now) }
        ensures plane { result < 3 }
        ensures within { IsPlaceIn self.now result place }
    {
        if place < self.blocks_before(1) {
            0
        } else if place < self.blocks_before(2) {
            1
        } else {
            2
        }
    }

    /// The block at a coded place.
    pub fn at(&self, place: u32) -> Block
        requires { place < length (order_of self.now) }
        ensures value { slice_get (order_of self.now) place ≡ Some result }
        ensures inside { IsBlock self.now result }
        ensures back { place_of self.now result ≡ place }
    {
        let pli = self.plane_at(place);
        let cell = self.plane(pli).cell(place - self.blocks_before(pli));
        Block {
            pli,
            col: cell.col,
            row: cell.row,
        }
    }

    /// The coded place of a block.
    pub fn place(&self, block: Block) -> u32
        requires plane { block.pli < 3 }
        requires column { block.col < block_columns self.now block.pli }
        requires row { block.row < block_rows self.now block.pli }
        ensures value { result ≡ place_of self.now block }
        ensures back { slice_get (order_of self.now) result ≡ Some block }
        ensures plane { IsPlaceIn self.now block.pli result }
        ensures below { result < length (order_of self.now) }
    {
        let cell = Cell {
            col: block.col,
            row: block.row,
        };
        self.blocks_before(block.pli) + self.plane(block.pli).place(cell)
    }

    /// How many superblocks a frame has, in all planes.
    pub fn superblocks(&self) -> u32
        ensures value { result ≡ length (superblocks self.now) }
        ensures size { All (λ blocks. length blocks ≤ 16) (superblocks self.now) }
    {
        self.luma.grid().squares() + 2 * self.chroma.grid().squares()
    }

    /// The first coded place of a superblock's blocks, and the place past the last.
    pub fn superblock(&self, s: u32) -> (u32, u32)
        requires { s < length (superblocks self.now) }
        ensures value { slice_get (superblock_ranges self.now) s ≡ Some result }
        ensures first { result.0 ≡ length (joined (take s (superblocks self.now))) }
        ensures past { result.1 ≡ length (joined (take (s + 1) (superblocks self.now))) }
        ensures within { (result.0 < result.1) × (result.1 ≤ length (order_of self.now)) }
    {
        self.superblocks[s as usize]
    }

    /// How many macro blocks a frame has.
    pub fn macro_blocks(&self) -> u32
        ensures value { result ≡ length (macro_blocks self.now) }
        ensures product { result ≡ self.now.fmbw * self.now.fmbh }
        ensures each_once { NamesEachOnce self.now (macro_order self.now) }
        ensures own { OwnBlocks self.now }
    {
        u32::from(self.shape.fmbw) * u32::from(self.shape.fmbh)
    }

    /// The column and row of a macro block.
    fn macro_cell(&self, m: u32) -> Cell
        requires { m < length (macro_blocks self.now) }
        ensures value { slice_get (cells (macro_grid self.now)) m ≡ Some (cell_of result) }
        ensures column { result.col < self.now.fmbw }
        ensures row { result.row < self.now.fmbh }
    {
        self.macro_blocks[m as usize]
    }

    /// The coded place of a macro block's block in a column and row of its blocks in a plane.
    #[tactic(auto, unfolding(crate::specs::CodedOrder::block_of, crate::specs::Squares::moved))]
    fn place_in(&self, pli: u8, at: Cell, col: u32, row: u32) -> u32
        requires plane { pli < 3 }
        requires at_column { at.col < self.now.fmbw }
        requires at_row { at.row < self.now.fmbh }
        requires column { col < columns_in self.now.pf pli }
        requires row { row < rows_in self.now.pf pli }
        ensures { result ≡ place_of self.now (block_of pli (moved (columns_in self.now.pf pli * at.col) (rows_in self.now.pf pli * at.row) (cell col row))) }
    {
        let pf = self.shape.pf;
        self.place(Block {
            pli,
            col: columns_in(pf, pli) * at.col + col,
            row: rows_in(pf, pli) * at.row + row,
        })
    }

    /// The coded places of a macro block's blocks in a plane, and zeros behind them.
    fn places_in(&self, pli: u8, at: Cell) -> [u32; 4]
        requires plane { pli < 3 }
        requires column { at.col < self.now.fmbw }
        requires row { at.row < self.now.fmbh }
        ensures { result ≡ filled (map (place_of self.now) (blocks_in self.now.pf pli (cell_of at))) }
    {
        let first = self.place_in(pli, at, 0, 0);
        if rows_in(self.shape.pf, pli) == 1 {
            return [first, 0, 0, 0];
        }
        if columns_in(self.shape.pf, pli) == 1 {
            return [first, self.place_in(pli, at, 0, 1), 0, 0];
        }
        [
            first,
            self.place_in(pli, at, 1, 0),
            self.place_in(pli, at, 0, 1),
            self.place_in(pli, at, 1, 1),
        ]
    }

    /// The coded places of the luma blocks of a macro block, as `macro_block` has them, without those of chroma.
    pub fn luma_places(&self, m: u32) -> [u32; 4]
        requires { m < length (macro_blocks self.now) }
        ensures value { IsSomeAnd (slice_get (macro_blocks self.now) m) (λ area. result ≡ map (place_of self.now) area.luma) }
        ensures luma { All (IsPlaceIn self.now 0) result }
        ensures below { All (λ place. place < length (order_of self.now)) result }
    {
        self.places_in(0, self.macro_cell(m))
    }

    /// The coded places of the blocks of a macro block. Macro blocks are counted in coded order.
    pub fn macro_block(&self, m: u32) -> MacroBlock
        requires { m < length (macro_blocks self.now) }
        ensures value { IsSomeAnd (slice_get (macro_blocks self.now) m) (λ area. IsMacroBlock self.now area result) }
        ensures count { result.chroma_count ≡ columns_in self.now.pf 1 * rows_in self.now.pf 1 }
        ensures luma { All (IsPlaceIn self.now 0) result.luma }
        ensures cb { All (IsPlaceIn self.now 1) (take result.chroma_count result.cb) }
        ensures cr { All (IsPlaceIn self.now 2) (take result.chroma_count result.cr) }
        ensures below { All (λ place. place < length (order_of self.now)) (result.luma ++ result.cb ++ result.cr) }
    {
        let at = self.macro_cell(m);
        let pf = self.shape.pf;
        MacroBlock {
            luma: self.places_in(0, at),
            cb: self.places_in(1, at),
            cr: self.places_in(2, at),
            chroma_count: (columns_in(pf, 1) * rows_in(pf, 1)) as u8,
        }
    }
}
