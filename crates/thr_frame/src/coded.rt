// What a frame's packet says (Theora I, 7).
ghost use Rattle.std.specs.Prelude.{◌≡◌, IfOk, map, pos, replicate};
ghost use Rattle.thr_modes.specs.Vectors.{offset_of, still};
ghost use Rattle.thr_frame.specs.CodedFrame.{IsCodedFrame, IsSized, frame_of};
ghost use Rattle.thr_frame.specs.Parsed.{blank_values, zero_frame};

use arrayvec::ArrayVec;
use std::alloc::Global;
use thr_token::Coeffs;
use vid_base::{NoMem, Vector};
use vid_geom::Geom;

/// No motion.
pub(crate) const STILL: Vector = Vector { x: 0, y: 0 };

/// The mode of the macro blocks that are predicted from nothing: INTRA (Theora I, 7.4).
pub(crate) const INTRA: u8 = 1;

/// What the packet of a frame says. Lists of blocks have an entry for each block in coded order.
#[derive(Drop)]
pub struct Coded {
    /// Whether the frame is intra (FTYPE 0).
    pub intra: bool,
    /// QIS: one to three quantiser indices, each below 64.
    pub qis: ArrayVec<u8, 3>,
    /// Which blocks are coded (BCODED).
    pub flags: Vec<bool>,
    /// The mode of each macro block in coded order (MBMODES).
    pub modes: Vec<u8>,
    /// The motion vector of each block (MVECTS).
    pub vectors: Vec<Vector>,
    /// For each block which of `qis` its AC coefficients have (QIIS).
    pub places: Vec<u8>,
    /// The coefficients of each block in zigzag order, with the DC values in their first places, and the counts.
    pub coeffs: Coeffs,
}

// Zeros for the coefficients and the counts of so many blocks.
fn blank_coeffs(alloc: Global, blocks: usize) -> Result<Coeffs, NoMem>
    ensures values { IfOk result (λ coeffs. coeffs.values.items ≡ replicate blocks (replicate 64 (pos 0))) }
    ensures counts { IfOk result (λ coeffs. coeffs.counts.items ≡ replicate blocks 0) }
{
    let mut coeffs = Coeffs::new(alloc);
    coeffs.values.resize(blocks, [0; 64])?;
    coeffs.counts.resize(blocks, 0)?;
    Ok(coeffs)
}

// No motion for so many blocks.
#[tactic(auto, unfolding(thr_modes::specs::Vectors::offset_of), using(crate::proofs::MotionLemmas::still_all))]
fn still_vectors(alloc: Global, blocks: usize) -> Result<Vec<Vector>, NoMem>
    ensures { IfOk result (λ vectors. map offset_of vectors.items ≡ replicate blocks still) }
{
    let mut vectors = Vec::new(alloc);
    vectors.resize(blocks, STILL)?;
    Ok(vectors)
}

impl Coded {
    /// An intra frame of zeros at quantiser index 0, with lists for frames of that geometry.
    #[tactic(auto, unfolding(crate::specs::CodedFrame::frame_of))]
    pub fn new(alloc: Global, geom: &Geom) -> Result<Coded, NoMem>
        ensures value { IfOk result (λ coded. frame_of coded ≡ zero_frame geom.now) }
        ensures sized { IfOk result (λ coded. IsSized geom.now (frame_of coded)) }
        ensures rebuildable { IfOk result (λ coded. IsCodedFrame geom.now (frame_of coded)) }
        ensures blank { IfOk result (λ coded. coded.coeffs.values.items ≡ blank_values geom.now) }
    {
        let blocks = geom.blocks() as usize;
        let mut qis = ArrayVec::new();
        qis.push(0);
        let mut flags = Vec::new(alloc);
        flags.resize(blocks, true)?;
        let mut modes = Vec::new(alloc);
        modes.resize(geom.macro_blocks() as usize, INTRA)?;
        let vectors = still_vectors(alloc, blocks)?;
        let mut places = Vec::new(alloc);
        places.resize(blocks, 0)?;
        Ok(Coded {
            intra: true,
            qis,
            flags,
            modes,
            vectors,
            places,
            coeffs: blank_coeffs(alloc, blocks)?,
        })
    }
}
