// Vectors given to the blocks of a macro block (Theora I, 7.5.2).
ghost use Rattle.std.specs.Prelude.{◌≡◌, ◌<◌, ◌≤◌, ◌++◌, ℕ, All, length, map, take};
ghost use Rattle.thr_modes.specs.Vectors.{offset_of};
ghost use Rattle.thr_modes.specs.Motion.{block_vectors, chroma_count};
ghost use Rattle.thr_modes.specs.Placing.{put_at};
ghost use Rattle.thr_modes.specs.Views.{motion_of};

use crate::motion::MacroVectors;
use vid_base::Vector;
use vid_geom::MacroBlock;

/// Each value in the place that stands beside it.
fn put_at(vectors: &mut [Vector], places: &[u32], values: &[Vector])
    requires places { All (λ place. place < length vectors.old) places.now }
    requires values { length values.now ≡ length places.now }
    ensures { map offset_of vectors.new ≡ put_at (map offset_of vectors.old) places.now (map offset_of values.now) }
{
    'places: for k in 0..places.len() {
        vectors[places[k] as usize] = values[k];
    }
}

/// Gives the blocks of a macro block its vectors, from their coded places.
pub fn put_motion(vectors: &mut [Vector], numbers: &MacroBlock, motion: &MacroVectors)
    requires below { All (λ place. place < length vectors.old) (numbers.now.luma ++ numbers.now.cb ++ numbers.now.cr) }
    requires count { numbers.now.chroma_count ≤ 4 }
    ensures { (pf : ℕ) → numbers.now.chroma_count ≡ chroma_count pf → map offset_of vectors.new ≡ put_at (map offset_of vectors.old) (numbers.now.luma ++ take numbers.now.chroma_count numbers.now.cb ++ take numbers.now.chroma_count numbers.now.cr) (block_vectors (motion_of pf motion.now)) }
{
    let count = usize::from(numbers.chroma_count);
    put_at(vectors, &numbers.luma, &motion.luma);
    put_at(vectors, &numbers.cb[..count], &motion.chroma[..count]);
    put_at(vectors, &numbers.cr[..count], &motion.chroma[..count]);
}
