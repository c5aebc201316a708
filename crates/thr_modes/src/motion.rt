// The motion vectors of one macro block (Theora I, 7.5.2).
ghost use Rattle.std.specs.Prelude.{◌≡◌, ℕ, map, take};
ghost use Rattle.vid_base.specs.Reading.{Gives, SameEnd};
ghost use Rattle.thr_modes.specs.InOrder.{each};
ghost use Rattle.thr_modes.specs.Vectors.{offset_of};
ghost use Rattle.thr_modes.specs.Motion.{chroma_count, chroma_of, same_motion, own_motion, after, exchanged, empty, own_vector, last_coded, motion_in};
ghost use Rattle.thr_modes.specs.Views.{motion_of, memory_of, vector_form};

use crate::component::{VectorCoding, read_vector};
use crate::mean::{mean_of_four, mean_of_two};
use vid_base::{BitReader, PacketFault, Vector};

/// No motion.
pub const STILL: Vector = Vector { x: 0, y: 0 };

/// The mode in which a macro block has a vector of its own, which is remembered.
pub const INTER_MV: u8 = 2;

/// Those in which it has LAST1 or LAST2.
const INTER_MV_LAST: u8 = 3;

const INTER_MV_LAST2: u8 = 4;

/// The one of the golden frame: a vector of its own, which is not remembered.
pub const INTER_GOLDEN_MV: u8 = 6;

/// The one in which each luma block has a vector of its own.
pub const INTER_MV_FOUR: u8 = 7;

/// The vectors of a macro block's blocks, in raster order from the lower left.
#[derive(Clone, Copy)]
pub struct MacroVectors {
    pub luma: [Vector; 4],
    /// Those of Cb and of Cr: as many count as the macro block has such blocks.
    pub chroma: [Vector; 4],
}

/// LAST1 and LAST2: the vectors that are remembered from macro block to macro block.
#[derive(Clone, Copy)]
pub struct Remembered {
    pub last1: Vector,
    pub last2: Vector,
}

/// The vectors of the chroma blocks, from those of the luma blocks.
#[tactic(auto, unfolding(crate::specs::Motion::chroma_of))]
fn chroma_of(pf: u8, luma: [Vector; 4]) -> [Vector; 4]
    ensures { take (chroma_count pf) (map offset_of result) ≡ chroma_of pf (map offset_of luma) }
{
    match pf {
        0 => [mean_of_four(luma[0], luma[1], luma[2], luma[3]); 4],
        3 => luma,
        _ => {
            let lower = mean_of_two(luma[0], luma[1]);
            let upper = mean_of_two(luma[2], luma[3]);
            [lower, upper, lower, upper]
        }
    }
}

/// One vector for all blocks.
#[tactic(auto, unfolding(crate::specs::Motion::same_motion, crate::specs::Views::motion_of))]
fn same_motion(vector: Vector) -> MacroVectors
    ensures { (pf : ℕ) → motion_of pf result ≡ same_motion pf (offset_of vector) }
{
    MacroVectors {
        luma: [vector; 4],
        chroma: [vector; 4],
    }
}

/// A vector for each luma block.
#[tactic(auto, unfolding(crate::specs::Motion::own_motion, crate::specs::Views::motion_of))]
fn own_motion(pf: u8, luma: [Vector; 4]) -> MacroVectors
    ensures { motion_of pf result ≡ own_motion pf (map offset_of luma) }
{
    MacroVectors {
        luma,
        chroma: chroma_of(pf, luma),
    }
}

/// The vector of a luma block that may have one of its own.
#[tactic(auto, unfolding(crate::specs::Motion::own_vector, crate::specs::Vectors::offset_of))]
fn read_own_vector(
    r: &mut BitReader,
    coding: VectorCoding,
    coded: bool,
) -> Result<Vector, PacketFault>
    ensures value { Gives offset_of result r.new.left (own_vector (vector_form coding) coded r.old.left) }
    ensures end { SameEnd r.old r.new }
{
    if coded {
        read_vector(r, coding)
    } else {
        Ok(STILL)
    }
}

/// Those of the luma blocks of a macro block.
fn read_own_vectors(
    r: &mut BitReader,
    coding: VectorCoding,
    luma: [bool; 4],
) -> Result<[Vector; 4], PacketFault>
    ensures value { Gives (map offset_of) result r.new.left (each (own_vector (vector_form coding)) luma r.old.left) }
    ensures end { SameEnd r.old r.new }
{
    let mut vectors = [STILL; 4];
    'luma: for b in 0..4usize {
        vectors[b] = read_own_vector(r, coding, luma[b])?;
    }
    Ok(vectors)
}

/// The vector of the last coded block; another one where none is coded.
fn last_coded(luma: [bool; 4], vectors: [Vector; 4], other: Vector) -> Vector
    ensures { offset_of result ≡ last_coded luma (map offset_of vectors) (offset_of other) }
{
    let mut last = other;
    'luma: for b in 0..4usize {
        if luma[b] {
            last = vectors[b];
        }
    }
    last
}

impl Remembered {
    /// Nothing is remembered.
    #[tactic(auto, unfolding(crate::specs::Views::memory_of, crate::specs::Vectors::offset_of))]
    pub fn empty() -> Remembered
        ensures { memory_of result ≡ empty }
    {
        Remembered {
            last1: STILL,
            last2: STILL,
        }
    }

    /// LAST1 becomes LAST2, and a vector becomes LAST1.
    #[tactic(auto, unfolding(crate::specs::Motion::after, crate::specs::Views::memory_of))]
    fn after(self, vector: Vector) -> Remembered
        ensures { memory_of result ≡ after (offset_of vector) (memory_of self) }
    {
        Remembered {
            last1: vector,
            last2: self.last1,
        }
    }

    /// They change places.
    #[tactic(auto, unfolding(crate::specs::Motion::exchanged, crate::specs::Views::memory_of))]
    fn exchanged(self) -> Remembered
        ensures { memory_of result ≡ exchanged (memory_of self) }
    {
        Remembered {
            last1: self.last2,
            last2: self.last1,
        }
    }
}

/// The vectors of a macro block by its mode, and what is remembered behind it.
#[tactic(auto, unfolding(crate::specs::Motion::motion_in, crate::specs::Views::memory_of, crate::specs::Vectors::offset_of))]
pub fn read_motion(
    r: &mut BitReader,
    coding: VectorCoding,
    pf: u8,
    mode: u8,
    luma: [bool; 4],
    remembered: Remembered,
) -> Result<(MacroVectors, Remembered), PacketFault>
    ensures value { Gives (λ read. (motion_of pf read.0, memory_of read.1)) result r.new.left (motion_in (vector_form coding) pf mode luma (memory_of remembered) r.old.left) }
    ensures end { SameEnd r.old r.new }
{
    match mode {
        INTER_MV => {
            let vector = read_vector(r, coding)?;
            Ok((same_motion(vector), remembered.after(vector)))
        }
        INTER_MV_LAST => Ok((same_motion(remembered.last1), remembered)),
        INTER_MV_LAST2 => Ok((same_motion(remembered.last2), remembered.exchanged())),
        INTER_GOLDEN_MV => {
            let vector = read_vector(r, coding)?;
            Ok((same_motion(vector), remembered))
        }
        INTER_MV_FOUR => {
            let vectors = read_own_vectors(r, coding, luma)?;
            let last = last_coded(luma, vectors, remembered.last1);
            Ok((own_motion(pf, vectors), remembered.after(last)))
        }
        _ => Ok((same_motion(STILL), remembered)),
    }
}
