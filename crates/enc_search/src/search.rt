// The best prediction of a macro block's luma (own).
ghost use Rattle.std.specs.Prelude.{◌≡◌, ◌+◌, ◌*◌, ◌/◌, ◌%◌, ◌<◌, ◌≤◌, ℕ, IfSome, get_or, true};
ghost use Rattle.vid_geom.specs.declared.block.Block.{Block as BlockValue};
ghost use Rattle.vid_plane.specs.Frames.{IsPlaneOf};
ghost use Rattle.thr_modes.specs.Motion.{Memory};
ghost use Rattle.thr_modes.specs.Vectors.{IsComponent, offset_of, still};
ghost use Rattle.thr_recon.specs.Predicted.{shown};
ghost use Rattle.thr_frame.specs.Rebuilt.{reference_of};
ghost use Rattle.enc_search.specs.Found.{IsAllowed, IsFound, IsLuma, luma_samples};
ghost use Rattle.enc_search.specs.Searched.{block_distance, block_samples, even};
ghost use Rattle.enc_search.specs.Views.{distance_by, memory_of, refs_of};

use crate::distance::block_distance;
use crate::frames::Search;
use crate::memory::{Remembered, STILL};
use thr_recon::{Predictor, predict};
use vid_base::Vector;
use vid_geom::Block;
use vid_plane::Plane;

/// The modes that may be chosen: in each all blocks have one vector.
const INTER_NOMV: u8 = 0;

const INTRA: u8 = 1;

pub(crate) const INTER_MV: u8 = 2;

const INTER_MV_LAST: u8 = 3;

pub(crate) const INTER_MV_LAST2: u8 = 4;

const INTER_GOLDEN_NOMV: u8 = 5;

/// A mode and a vector, and how far the luma is from what they predict.
#[derive(Clone, Copy)]
pub(crate) struct Found {
    pub mode: u8,
    pub vector: Vector,
    pub distance: u32,
}

// An even component from -8 to 8, the nearest to 0 first: of equally good vectors the shorter is found first.
fn even(k: u8) -> i8
    requires { k < 9 }
    ensures value { result ≡ even k }
    ensures small { IsComponent result }
{
    if k % 2 == 0 { k as i8 } else { -1 - (k as i8) }
}

// A vector of two such components.
#[tactic(auto, unfolding(thr_modes::specs::Vectors::offset_of))]
fn even_vector(k: u8) -> Vector
    requires { k < 81 }
    ensures across { (offset_of result).x ≡ even (k % 9) }
    ensures upwards { (offset_of result).y ≡ even (k / 9) }
{
    Vector {
        x: even(k % 9),
        y: even(k / 9),
    }
}

// A component half a sample less, the same, or half a sample more, if it is no larger than 31.
fn beside(component: i8, k: u8) -> Option<i8>
    requires component { IsComponent component }
    requires rank { k < 3 }
    ensures { IfSome result IsComponent }
{
    let moved = component + (k as i8) - 1;
    if moved < -31 || moved > 31 {
        return None;
    }
    Some(moved)
}

// A vector at most half a sample beside another on each axis.
fn vector_beside(vector: Vector, k: u8) -> Option<Vector>
    requires { k < 9 }
{
    let x = beside(vector.x, k % 3)?;
    let y = beside(vector.y, k / 3)?;
    Some(Vector { x, y })
}

impl Search<'_> {
    // The plane that a mode predicts from.
    fn reference(&self, mode: u8) -> &Plane
        requires { mode < 6 }
        ensures value { result.now ≡ reference_of (refs_of self.now.frames) mode 0 }
        ensures sealed { result.now.sealed ≡ true }
        ensures sized { IsPlaneOf self.now.frames.geom.now 0 result.now }
    {
        let frames = self.frames;
        if mode == INTER_GOLDEN_NOMV {
            return &frames.golden.y;
        }
        &frames.prev.y
    }

    // What a luma block is predicted from.
    fn predictor(&self, block: Block, mode: u8, vector: Vector) -> Predictor<'_>
        requires block { IsLuma self.now.frames.geom.now block }
        requires mode { mode < 6 }
        ensures { shown result ≡ luma_samples (refs_of self.now.frames) mode (offset_of vector) block }
    {
        if mode == INTRA {
            return Predictor::Flat;
        }
        predict(
            self.reference(mode),
            8 * block.col,
            8 * block.row,
            vector,
            false,
            false,
        )
    }

    // How far one of the blocks is from its prediction.
    fn part(&self, k: usize, mode: u8, vector: Vector) -> u32
        requires block { k < 4 }
        requires mode { mode < 6 }
        ensures value { (d : BlockValue) → result ≡ block_distance (block_samples self.now.frames.target.now (get_or self.now.blocks k d)) (luma_samples (refs_of self.now.frames) mode (offset_of vector) (get_or self.now.blocks k d)) }
        ensures small { result ≤ 16320 }
    {
        let wanted = self.wanted;
        let predicted = self.predictor(self.blocks[k], mode, vector).block();
        block_distance(&wanted[k], &predicted)
    }

    // How far all blocks are from their predictions, or where that is no less than a limit another number that is no less.
    fn distance(&self, mode: u8, vector: Vector, limit: u32) -> u32
        requires mode { mode < 6 }
        ensures value { result < limit → result ≡ distance_by self.now mode (offset_of vector) }
        ensures past { limit ≤ result → limit ≤ distance_by self.now mode (offset_of vector) }
        ensures small { result ≤ 65280 }
    {
        let first = self.part(0, mode, vector);
        if limit <= first {
            return first;
        }
        let second = first + self.part(1, mode, vector);
        if limit <= second {
            return second;
        }
        let third = second + self.part(2, mode, vector);
        if limit <= third {
            return third;
        }
        third + self.part(3, mode, vector)
    }

    // The better of two predictions; of equal ones the first, so that the cheaper to code comes first.
    fn better(&self, best: Found, mode: u8, vector: Vector) -> Found
        requires mode { mode < 6 }
        requires distance { best.distance ≡ distance_by self.now best.mode (offset_of best.vector) }
        ensures distance { result.distance ≡ distance_by self.now result.mode (offset_of result.vector) }
        ensures least { result.distance ≤ distance_by self.now mode (offset_of vector) }
        ensures no_more { result.distance ≤ best.distance }
        ensures allowed { (memory : Memory) → IsAllowed memory best.mode (offset_of best.vector) → IsAllowed memory mode (offset_of vector) → IsAllowed memory result.mode (offset_of result.vector) }
    {
        let distance = self.distance(mode, vector, best.distance);
        if distance < best.distance {
            return Found {
                mode,
                vector,
                distance,
            };
        }
        best
    }

    // The best of a prediction and those by the vectors of even components from -8 to 8.
    fn moved(&self, first: Found) -> Found
        requires distance { first.distance ≡ distance_by self.now first.mode (offset_of first.vector) }
        ensures distance { result.distance ≡ distance_by self.now result.mode (offset_of result.vector) }
        ensures least { (k : ℕ) → k < 81 → result.distance ≤ distance_by self.now 2 (record { x = even (k % 9); y = even (k / 9) }) }
        ensures no_more { result.distance ≤ first.distance }
        ensures allowed { (memory : Memory) → IsAllowed memory first.mode (offset_of first.vector) → IsAllowed memory result.mode (offset_of result.vector) }
    {
        let mut best = first;
        for k in 0..81u8 {
            best = self.better(best, INTER_MV, even_vector(k));
        }
        best
    }

    // The better of a prediction and one by a vector beside another.
    fn better_beside(&self, best: Found, vector: Vector, k: u8) -> Found
        requires rank { k < 9 }
        requires distance { best.distance ≡ distance_by self.now best.mode (offset_of best.vector) }
        ensures distance { result.distance ≡ distance_by self.now result.mode (offset_of result.vector) }
        ensures no_more { result.distance ≤ best.distance }
        ensures allowed { (memory : Memory) → IsAllowed memory best.mode (offset_of best.vector) → IsAllowed memory result.mode (offset_of result.vector) }
    {
        match vector_beside(vector, k) {
            Some(beside) => self.better(best, INTER_MV, beside),
            None => best,
        }
    }

    // The best of a prediction and those by vectors half a sample beside its own.
    fn refined(&self, first: Found) -> Found
        requires distance { first.distance ≡ distance_by self.now first.mode (offset_of first.vector) }
        ensures distance { result.distance ≡ distance_by self.now result.mode (offset_of result.vector) }
        ensures no_more { result.distance ≤ first.distance }
        ensures allowed { (memory : Memory) → IsAllowed memory first.mode (offset_of first.vector) → IsAllowed memory result.mode (offset_of result.vector) }
    {
        let mut best = first;
        for k in 0..9u8 {
            best = self.better_beside(best, first.vector, k);
        }
        best
    }

    // The prediction without motion.
    #[tactic(auto, unfolding(thr_modes::specs::Vectors::offset_of))]
    fn still(&self) -> Found
        ensures distance { result.distance ≡ distance_by self.now result.mode (offset_of result.vector) }
        ensures mode { result.mode ≡ 0 }
        ensures vector { offset_of result.vector ≡ still }
    {
        Found {
            mode: INTER_NOMV,
            vector: STILL,
            distance: self.distance(INTER_NOMV, STILL, u32::MAX),
        }
    }

    /// The mode and the vector that predict best, from what is remembered.
    pub(crate) fn found(&self, remembered: Remembered) -> Found
        ensures { IsFound (refs_of self.now.frames) self.now.frames.target.now (memory_of remembered) result.mode (offset_of result.vector) self.now.blocks }
    {
        let still = self.still();
        let last = self.better(still, INTER_MV_LAST, remembered.last1);
        let last2 = self.better(last, INTER_MV_LAST2, remembered.last2);
        let golden = self.better(last2, INTER_GOLDEN_NOMV, STILL);
        let flat = self.better(golden, INTRA, STILL);
        let moved = self.moved(flat);
        self.refined(moved)
    }
}
