// One vector given to the blocks of a macro block (Theora I, 7.5.2).
ghost use Rattle.std.specs.Prelude.{◌≡◌, ◌<◌, ◌≤◌, ◌++◌, ℕ, All, length, map, replicate, take};
ghost use Rattle.thr_modes.specs.Vectors.{offset_of};
ghost use Rattle.thr_modes.specs.Motion.{block_vectors, chroma_count, same_motion};
ghost use Rattle.thr_modes.specs.Placing.{put_at};

use vid_base::Vector;
use vid_geom::MacroBlock;

// A vector in each of the places.
fn put_at(vectors: &mut [Vector], places: &[u32], vector: Vector)
    requires { All (λ place. place < length vectors.old) places.now }
    ensures { map offset_of vectors.new ≡ put_at (map offset_of vectors.old) places.now (replicate (length places.now) (offset_of vector)) }
{
    'places: for k in 0..places.len() {
        vectors[places[k] as usize] = vector;
    }
}

/// Gives all blocks of a macro block a vector, from their coded places.
pub(crate) fn put_motion(vectors: &mut [Vector], numbers: &MacroBlock, vector: Vector)
    requires below { All (λ place. place < length vectors.old) (numbers.now.luma ++ numbers.now.cb ++ numbers.now.cr) }
    requires count { numbers.now.chroma_count ≤ 4 }
    ensures { (pf : ℕ) → numbers.now.chroma_count ≡ chroma_count pf → map offset_of vectors.new ≡ put_at (map offset_of vectors.old) (numbers.now.luma ++ take numbers.now.chroma_count numbers.now.cb ++ take numbers.now.chroma_count numbers.now.cr) (block_vectors (same_motion pf (offset_of vector))) }
{
    let count = usize::from(numbers.chroma_count);
    put_at(vectors, &numbers.luma, vector);
    put_at(vectors, &numbers.cb[..count], vector);
    put_at(vectors, &numbers.cr[..count], vector);
}
