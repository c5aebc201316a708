// The blocks of a plane rebuilt (Theora I, 7.9.4).
ghost use Rattle.std.specs.Prelude.{◌≡◌, ◌<◌, ◌≤◌, ◌+◌, ◌*◌, ◌++◌, ◌∷◌, ℕ, All, IsSomeAnd, List, [], true, length, map, slice_get, take};
ghost use Rattle.vid_geom.specs.CodedOrder.{IsBlock, order_of, place_of};
ghost use Rattle.vid_geom.specs.MacroBlocks.{macro_blocks};
ghost use Rattle.vid_plane.specs.Frames.{IsPlaneOf};
ghost use Rattle.thr_setup.specs.Setup.{contents};
ghost use Rattle.thr_recon.specs.Predicted.{shown};
ghost use Rattle.thr_frame.specs.CodedFrame.{frame_of, is_golden};
ghost use Rattle.thr_frame.specs.Rebuilt.{halves_columns, halves_rows, matrix_kind, mode_at, predictor_at, reference_of, residual_by};
ghost use Rattle.thr_frame.specs.Painted.{AreMatrices, HasMode, blocks_of};
ghost use Rattle.thr_frame.specs.Sources.{IsPaintedFrom, refs_of};

use crate::coded::{Coded, INTRA};
use crate::sources::PlaneSources;
use thr_recon::{Predictor, predict, rebuild_block, residual};
use thr_setup::Setup;
use vid_base::Shape;
use vid_geom::{Block, Geom};
use vid_plane::Plane;

/// The modes that predict from the golden frame.
const GOLDEN: u8 = 5;

const GOLDEN_MV: u8 = 6;

// The matrices of a plane, each made once.
pub(crate) fn matrices(setup: &Setup, coded: &Coded, pli: u8) -> [[u16; 64]; 6]
    requires plane { pli < 3 }
    requires few { length coded.now.qis.items ≤ 3 }
    requires small { All (λ qi. qi < 64) coded.now.qis.items }
    ensures { AreMatrices (contents setup.now) (frame_of coded.now) pli result }
{
    let mut matrices = [[0; 64]; 6];
    for place in 0..coded.qis.len() {
        let qi = coded.qis[place];
        matrices[place] = setup.ramps.matrix(0, pli, qi);
        matrices[3 + place] = setup.ramps.matrix(1, pli, qi);
    }
    matrices
}

// Where the matrices of a mode begin.
fn first_matrix(mode: u8) -> usize
    ensures value { result ≡ 3 * matrix_kind mode }
    ensures kind { matrix_kind mode < 2 }
{
    if mode == INTRA { 0 } else { 3 }
}

fn is_golden(mode: u8) -> bool
    ensures { result ≡ is_golden mode }
{
    mode == GOLDEN || mode == GOLDEN_MV
}

// Whether a plane has half the columns of luma.
fn halves_columns(shape: Shape, pli: u8) -> bool
    ensures { result ≡ halves_columns shape pli }
{
    pli != 0 && shape.pf != 3
}

// Whether a plane has half the rows of luma.
fn halves_rows(shape: Shape, pli: u8) -> bool
    ensures { result ≡ halves_rows shape pli }
{
    pli != 0 && shape.pf == 0
}

// The coded places of a macro block's blocks in a plane, and how many of the numbers count.
fn places_of(geom: &Geom, pli: u8, m: u32) -> ([u32; 4], usize)
    requires plane { pli < 3 }
    requires macro_block { m < length (macro_blocks geom.now) }
    ensures value { IsSomeAnd (slice_get (macro_blocks geom.now) m) (λ area. take result.1 result.0 ≡ map (place_of geom.now) (blocks_of area pli)) }
    ensures few { result.1 ≤ 4 }
    ensures four { length result.0 ≡ 4 }
{
    if pli == 0 {
        return (geom.luma_places(m), 4);
    }
    let block = geom.macro_block(m);
    let count = usize::from(block.chroma_count);
    let places = if pli == 1 { block.cb } else { block.cr };
    (places, count)
}

impl PlaneSources<'_> {
    // The plane that a mode predicts from.
    fn reference(&self, pli: u8, mode: u8) -> &Plane
        requires { pli < 3 }
        ensures value { result.now ≡ reference_of (refs_of self.now.from) mode pli }
        ensures sealed { result.now.sealed ≡ true }
        ensures sized { IsPlaneOf self.now.from.geom.now pli result.now }
    {
        let from = self.from;
        if is_golden(mode) {
            return from.golden.plane(pli);
        }
        from.prev.plane(pli)
    }

    // The predicted samples of a coded block.
    fn predictor(&self, block: Block, place: u32, mode: u8) -> Predictor<'_>
        requires inside { IsBlock self.now.from.geom.now block }
        requires place { place ≡ place_of self.now.from.geom.now block }
        requires mode { mode_at self.now.from.geom.now (frame_of self.now.from.coded.now) block ≡ mode }
        ensures { shown result ≡ predictor_at self.now.from.geom.now (refs_of self.now.from) (frame_of self.now.from.coded.now) block }
    {
        if mode == INTRA {
            return Predictor::Flat;
        }
        let shape = self.from.geom.shape();
        let vector = self.from.coded.vectors[place as usize];
        predict(
            self.reference(block.pli, mode),
            8 * block.col,
            8 * block.row,
            vector,
            halves_columns(shape, block.pli),
            halves_rows(shape, block.pli),
        )
    }

    // The residuals of a coded block.
    fn residual(&self, place: u32, mode: u8) -> [i16; 64]
        requires { place < length (order_of self.now.from.geom.now) }
        ensures { result ≡ residual_by (contents self.now.from.setup.now) (frame_of self.now.from.coded.now) self.now.pli place mode }
    {
        let at = place as usize;
        let coded = self.from.coded;
        let kind = first_matrix(mode);
        let matrices = self.matrices;
        let dc = matrices[kind][0];
        let ac = &matrices[kind + usize::from(coded.places[at])];
        residual(&coded.coeffs.values[at], coded.coeffs.counts[at], dc, ac)
    }

    // Rebuilds the block at a place if it is coded.
    fn rebuild(&self, plane: &mut Plane, place: u32, mode: u8)
        requires place { place < length (order_of self.now.from.geom.now) }
        requires mode { HasMode self.now.from.geom.now (frame_of self.now.from.coded.now) self.now.pli place mode }
        requires sized { IsPlaneOf self.now.from.geom.now self.now.pli plane.old }
        ensures painted { (m : ℕ) (places : List ℕ) → IsPaintedFrom self.now m places plane.old → IsPaintedFrom self.now m (places ++ place ∷ []) plane.new }
        ensures sized { IsPlaneOf self.now.from.geom.now self.now.pli plane.new }
    {
        if !self.from.coded.flags[place as usize] {
            return;
        }
        let block = self.from.geom.at(place);
        let residual = self.residual(place, mode);
        let predictor = self.predictor(block, place, mode);
        rebuild_block(plane, 8 * block.col, 8 * block.row, &predictor, &residual);
    }

    // Rebuilds the blocks of a macro block.
    fn rebuild_macro_block(&self, plane: &mut Plane, m: u32)
        requires macro_block { m < length (macro_blocks self.now.from.geom.now) }
        requires before { IsPaintedFrom self.now m [] plane.old }
        ensures { IsPaintedFrom self.now (m + 1) [] plane.new }
    {
        let mode = self.from.coded.modes[m as usize];
        let (places, count) = places_of(self.from.geom, self.pli, m);
        for k in 0..count {
            self.rebuild(plane, places[k], mode);
        }
    }

    // Rebuilds the blocks of the plane.
    pub(crate) fn rebuild_all(&self, plane: &mut Plane)
        requires { IsPaintedFrom self.now 0 [] plane.old }
        ensures { IsPaintedFrom self.now (length (macro_blocks self.now.from.geom.now)) [] plane.new }
    {
        for m in 0..self.from.geom.macro_blocks() {
            self.rebuild_macro_block(plane, m);
        }
    }
}
