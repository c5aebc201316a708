// The coefficients of one block from the frames, and those of all (own).
ghost use Rattle.std.specs.Prelude.{◌≡◌, ◌+◌, ◌*◌, ◌<◌, ◌≤◌, ◌==◌, true, All, if◌then◌else◌, length, get_or, map};
ghost use Rattle.vid_geom.specs.declared.block.Block.{Block as BlockValue};
ghost use Rattle.vid_geom.specs.CodedOrder.{IsBlock, order_of, place_of};
ghost use Rattle.vid_plane.specs.Frames.{IsPlaneOf, plane_of};
ghost use Rattle.vid_plane.specs.Picture.{pixel};
ghost use Rattle.thr_dct.specs.Line.{Within};
ghost use Rattle.thr_modes.specs.Vectors.{offset_of, still};
ghost use Rattle.thr_recon.specs.Predicted.{shown};
ghost use Rattle.thr_recon.specs.Rebuilt.{block_of};
ghost use Rattle.thr_frame.specs.Rebuilt.{halves_columns, halves_rows};
ghost use Rattle.enc_search.specs.Searched.{block_samples};
ghost use Rattle.enc_near.specs.Made.{AreEntries, AreMade, matrix_place, samples_by};
ghost use Rattle.enc_near.specs.Sources.{AreMadeBefore, kind_at, matrix_by, refs_of, wanted_by};

use crate::coefficients::coefficients;
use crate::lacking::lacking;
use crate::sources::Sources;
use thr_dct::forward;
use thr_recon::{Predictor, predict};
use thr_token::Coeffs;
use vid_base::Shape;
use vid_geom::Block;
use vid_plane::Plane;

/// What blocks are predicted from.
const NOTHING: u8 = 0;

const GOLDEN: u8 = 2;

// Whether a plane has half the columns of luma.
fn halves_columns(shape: Shape, pli: u8) -> bool
    ensures { result ≡ halves_columns shape pli }
{
    pli != 0 && shape.pf != 3
}

// Whether a plane has half the rows of luma.
fn halves_rows(shape: Shape, pli: u8) -> bool
    ensures { result ≡ halves_rows shape pli }
{
    pli != 0 && shape.pf == 0
}

// Eight rows of eight samples, from column x and row y on.
fn rows(plane: &Plane, x: u32, y: u32) -> [[u8; 8]; 8]
    requires columns { x + 8 ≤ plane.now.width }
    requires rows { y + 8 ≤ plane.now.height }
    ensures { result ≡ block_of (λ u v. pixel plane.now (x + u) (y + v)) }
{
    let _height = plane.height();
    [
        plane.row8(x, y),
        plane.row8(x, y + 1),
        plane.row8(x, y + 2),
        plane.row8(x, y + 3),
        plane.row8(x, y + 4),
        plane.row8(x, y + 5),
        plane.row8(x, y + 6),
        plane.row8(x, y + 7),
    ]
}

// Where the matrix of a block stands among the six.
fn matrix_place(kind: u8, pli: u8) -> usize
    requires { pli < 3 }
    ensures value { result ≡ matrix_place kind pli }
    ensures below { result < 6 }
{
    let first = if kind == NOTHING { 0 } else { 3 };
    first + usize::from(pli)
}

impl Sources<'_> {
    // A plane of the frame that is to be coded.
    fn target_plane(&self, pli: u8) -> &Plane
        requires { pli < 3 }
        ensures value { result.now ≡ plane_of self.now.target.now pli }
        ensures sized { IsPlaneOf self.now.geom.now pli result.now }
    {
        self.target.plane(pli)
    }

    // The samples of a block of the frame that is to be coded, the lowest row first.
    fn target_rows(&self, block: Block) -> [[u8; 8]; 8]
        requires { IsBlock self.now.geom.now block }
        ensures { result ≡ block_of (block_samples self.now.target.now block) }
    {
        rows(self.target_plane(block.pli), 8 * block.col, 8 * block.row)
    }

    // The plane that a kind of block is predicted from.
    fn reference(&self, pli: u8, kind: u8) -> &Plane
        requires { pli < 3 }
        ensures value { result.now ≡ plane_of (if kind == 2 then self.now.golden.now else self.now.prev.now) pli }
        ensures sealed { result.now.sealed ≡ true }
        ensures sized { IsPlaneOf self.now.geom.now pli result.now }
    {
        if kind == GOLDEN {
            return self.golden.plane(pli);
        }
        self.prev.plane(pli)
    }

    // What a block is predicted from.
    fn predictor(&self, block: Block, place: u32) -> Predictor<'_>
        requires inside { IsBlock self.now.geom.now block }
        requires place { place < length (order_of self.now.geom.now) }
        ensures { shown result ≡ samples_by self.now.geom.now (refs_of self.now) (get_or self.now.kinds.now place 0) (get_or (map offset_of self.now.vectors.now) place still) block }
    {
        let kind = self.kinds[place as usize];
        if kind == NOTHING {
            return Predictor::Flat;
        }
        let shape = self.geom.shape();
        predict(
            self.reference(block.pli, kind),
            8 * block.col,
            8 * block.row,
            self.vectors[place as usize],
            halves_columns(shape, block.pli),
            halves_rows(shape, block.pli),
        )
    }

    // What the coefficients of a block are to be times their entries.
    fn wanted(&self, block: Block, place: u32) -> [i32; 64]
        requires inside { IsBlock self.now.geom.now block }
        requires below { place < length (order_of self.now.geom.now) }
        requires place { place ≡ place_of self.now.geom.now block }
        ensures value { result ≡ wanted_by self.now block }
        ensures bounds { All (Within 8160) result }
    {
        let predicted = self.predictor(block, place).block();
        forward(&lacking(&self.target_rows(block), &predicted))
    }

    // The matrix of a block.
    fn matrix(&self, block: Block, place: u32) -> &[u16; 64]
        requires inside { IsBlock self.now.geom.now block }
        requires below { place < length (order_of self.now.geom.now) }
        requires place { place ≡ place_of self.now.geom.now block }
        ensures value { result.now ≡ matrix_by self.now block }
        ensures entries { AreEntries result.now }
    {
        let matrices = self.matrices;
        &matrices[matrix_place(self.kinds[place as usize], block.pli)]
    }

    // The coefficients of the block at a coded place.
    fn values(&self, place: u32) -> [i16; 64]
        requires { place < length (order_of self.now.geom.now) }
        ensures { (b : BlockValue) → IsBlock self.now.geom.now b → place_of self.now.geom.now b ≡ place → AreMade (wanted_by self.now b) (matrix_by self.now b) result }
    {
        let block = self.geom.at(place);
        coefficients(&self.wanted(block, place), self.matrix(block, place))
    }

    // Makes the coefficients of all blocks.
    fn fill_values(&self, values: &mut [[i16; 64]])
        requires { length values.old ≡ length (order_of self.now.geom.now) }
        ensures { AreMadeBefore self.now (length (order_of self.now.geom.now)) values.new }
    {
        for place in 0..self.geom.blocks() {
            values[place as usize] = self.values(place);
        }
    }

    /// Makes the coefficients of all blocks, with DC values that are not near their predictors yet.
    pub(crate) fn fill(&self, into: &mut Coeffs)
        requires { length into.old.values.items ≡ length (order_of self.now.geom.now) }
        ensures made { AreMadeBefore self.now (length (order_of self.now.geom.now)) into.new.values.items }
        ensures sized { length into.new.values.items ≡ length (order_of self.now.geom.now) }
        ensures counts { into.new.counts.items ≡ into.old.counts.items }
    {
        self.fill_values(&mut into.values);
    }
}
