// Scales, base matrices and ranges of quantiser indices (Theora I, 6.4.2).
ghost use Rattle.std.specs.Prelude.{◌≡◌, Err, IsOk, IfOk, vec_len};
ghost use Rattle.std.specs.List.{All};
ghost use Rattle.vid_base.specs.Reading.{Gives, GivesOrEnded, GivesOrNoMem, KeptOnNoMem, SameEnd};
ghost use Rattle.vid_base.specs.Items.{items};

use crate::Ranges;
use crate::numbers::{read_bytes, read_words};
use crate::ranges::read_ranges;
use std::alloc::{AllocError, Global};
use std::marker::Model;
use vid_base::{BitReader, Ended, PacketFault, Refusal};

/// The most base matrices.
const MOST_MATRICES: u32 = 384;

/// The quantisers of a stream: at each quantiser index the scale of AC and of DC coefficients in hundredths, base
/// matrices of 64 entries in natural order (row by row), and the ranges of quantiser indices of intra and of inter blocks
/// in the planes Y, Cb and Cr. There are 1 to 384 base matrices, and each range names some of them.
#[derive(Debug, Drop)]
pub struct Ramps {
    pub ac: [u16; 64],
    pub dc: [u16; 64],
    pub matrices: Vec<[u8; 64]>,
    pub intra: [Ranges; 3],
    pub inter: [Ranges; 3],
}

impl Model for Ramps {
    ghost use Rattle.std.specs.Prelude.{vec_len};
    ghost use Rattle.thr_quant.specs.Ramps.{Ramps as Seen, AreComplete};

    ghost Value = { Seen };

    ghost view = { λ r.
        record { ac = r.ac; dc = r.dc; matrices = r.matrices.items; intra = r.intra; inter = r.inter } };

    ghost invariant = { λ r. AreComplete (vec_len r.matrices) r.intra r.inter };
}

/// The same ranges of three planes.
fn copied(ranges: &[Ranges; 3]) -> [Ranges; 3]
    ensures { result ≡ ranges.now }
{
    let [y, cb, cr] = ranges;
    [y.copy(), cb.copy(), cr.copy()]
}

/// A copy is equal, and has memory of its own.
impl Clone for Ramps {
    ghost is_clone = { λ v w. w ≡ v };

    fn clone(&self) -> Result<Self, AllocError> {
        let matrices = Vec::from_slice(*self.matrices.allocator(), &self.matrices)?;
        Ok(Ramps {
            ac: self.ac,
            dc: self.dc,
            matrices,
            intra: copied(&self.intra),
            inter: copied(&self.inter),
        })
    }
}

ghost use Rattle.thr_quant.specs.Ramps.{base_matrix_of, matrices_front, matrices_of, pair_of, pairs_of, ramps_front, ramps_of, scales_of};
ghost use Rattle.thr_quant.specs.Ranges.{IsMatrixCount, NameMatrices};

/// 64 scales.
#[tactic(auto, unfolding(crate::specs::Ramps::scales_of))]
fn read_scales(r: &mut BitReader) -> Result<[u16; 64], Ended>
    ensures value { GivesOrEnded (λ scales. scales) result r.new.left (scales_of r.old.left) }
    ensures end { SameEnd r.old r.new }
{
    let width = r.take(4)? + 1;
    read_words(r, width)
}

/// So many base matrices.
fn read_list(alloc: Global, r: &mut BitReader, count: u32) -> Result<Vec<[u8; 64]>, Refusal>
    ensures value { GivesOrNoMem (λ list. list.items) result r.new.left (items base_matrix_of count r.old.left) }
    ensures count { IfOk result (λ list. vec_len list ≡ count) }
    ensures end { SameEnd r.old r.new }
{
    let mut list = Vec::new(alloc);
    for _ in 0..count {
        let matrix = read_bytes(r, 8)?;
        list.push(matrix)?;
    }
    Ok(list)
}

/// Base matrices behind their number.
#[tactic(auto, unfolding(crate::specs::Ramps::matrices_of, crate::specs::Ramps::matrices_front))]
fn read_matrices(alloc: Global, r: &mut BitReader) -> Result<Vec<[u8; 64]>, Refusal>
    ensures value { GivesOrNoMem (λ list. list.items) result r.new.left (matrices_of r.old.left) }
    ensures count { IfOk result (λ list. IsMatrixCount (vec_len list)) }
    ensures needed { result ≡ Err Refusal.NoMem → IsOk (matrices_front r.old.left) }
    ensures end { SameEnd r.old r.new }
{
    let count = r.take(9)? + 1;
    if count > MOST_MATRICES {
        return Err(Refusal::Bad(PacketFault::Matrices));
    }
    read_list(alloc, r, count)
}

/// The ranges of intra blocks in a plane behind another.
#[tactic(auto, unfolding(crate::specs::Ramps::pair_of, crate::specs::Ramps::copy_of))]
fn read_intra(r: &mut BitReader, count: u32, before: &Ranges) -> Result<Ranges, PacketFault>
    requires count { IsMatrixCount count }
    requires before { NameMatrices count before.now }
    ensures value { Gives (λ ranges. ranges) result r.new.left (pair_of count before.now None r.old.left) }
    ensures named { IfOk result (λ ranges. NameMatrices count ranges) }
    ensures end { SameEnd r.old r.new }
{
    if r.take(1)? == 1 {
        read_ranges(r, count)
    } else {
        Ok(before.copy())
    }
}

/// The ranges of inter blocks in a plane, of which the intra ranges are given too.
#[tactic(auto, unfolding(crate::specs::Ramps::pair_of, crate::specs::Ramps::copy_of))]
fn read_inter(
    r: &mut BitReader,
    count: u32,
    before: &Ranges,
    intra: &Ranges,
) -> Result<Ranges, PacketFault>
    requires count { IsMatrixCount count }
    requires before { NameMatrices count before.now }
    requires intra { NameMatrices count intra.now }
    ensures value { Gives (λ ranges. ranges) result r.new.left (pair_of count before.now (Some intra.now) r.old.left) }
    ensures named { IfOk result (λ ranges. NameMatrices count ranges) }
    ensures end { SameEnd r.old r.new }
{
    if r.take(1)? == 1 {
        read_ranges(r, count)
    } else if r.take(1)? == 1 {
        Ok(intra.copy())
    } else {
        Ok(before.copy())
    }
}

/// The ranges of intra and of inter blocks in all three planes.
#[tactic(auto, unfolding(crate::specs::Ramps::pairs_of))]
fn read_pairs(r: &mut BitReader, count: u32) -> Result<([Ranges; 3], [Ranges; 3]), PacketFault>
    requires count { IsMatrixCount count }
    ensures value { Gives (λ both. (both.0, both.1)) result r.new.left (pairs_of count r.old.left) }
    ensures intra { IfOk result (λ both. All (NameMatrices count) both.0) }
    ensures inter { IfOk result (λ both. All (NameMatrices count) both.1) }
    ensures end { SameEnd r.old r.new }
{
    let intra_y = read_ranges(r, count)?;
    let intra_cb = read_intra(r, count, &intra_y)?;
    let intra_cr = read_intra(r, count, &intra_cb)?;
    let inter_y = read_inter(r, count, &intra_cr, &intra_y)?;
    let inter_cb = read_inter(r, count, &inter_y, &intra_cb)?;
    let inter_cr = read_inter(r, count, &inter_cb, &intra_cr)?;
    Ok(([intra_y, intra_cb, intra_cr], [inter_y, inter_cb, inter_cr]))
}

/// The quantisers in the order in which they stand.
#[tactic(auto, unfolding(crate::specs::Ramps::ramps_of, crate::specs::Ramps::ramps_front))]
fn read_fields(alloc: Global, r: &mut BitReader) -> Result<Ramps, Refusal>
    ensures value { GivesOrNoMem (λ ramps. ramps) result r.new.left (ramps_of r.old.left) }
    ensures needed { result ≡ Err Refusal.NoMem → IsOk (ramps_front r.old.left) }
    ensures end { SameEnd r.old r.new }
{
    let ac = read_scales(r)?;
    let dc = read_scales(r)?;
    let matrices = read_matrices(alloc, r)?;
    let (intra, inter) = read_pairs(r, matrices.len() as u32)?;
    Ok(Ramps {
        ac,
        dc,
        matrices,
        intra,
        inter,
    })
}

/// Reads the quantisers of a setup header (Theora I, 6.4.2). Faults in reading order: `Ended`; `Matrices` for more than 384
/// base matrices; `MatrixIndex` for an index that names none, once it is read; `Ramp` for ranges that pass quantiser index
/// 63, once the index behind the last size is read and found good. Only the base matrices take memory, once their number
/// was read and found good; after `NoMem` the reader is as it was.
pub fn read_ramps(alloc: Global, r: &mut BitReader) -> Result<Ramps, Refusal>
    ensures value { GivesOrNoMem (λ ramps. ramps) result r.new.left (ramps_of r.old.left) }
    ensures memory { KeptOnNoMem result r.old r.new }
    ensures needed { result ≡ Err Refusal.NoMem → IsOk (ramps_front r.old.left) }
    ensures end { SameEnd r.old r.new }
{
    let start = r.copy();
    match read_fields(alloc, r) {
        Ok(ramps) => Ok(ramps),
        Err(Refusal::Bad(fault)) => Err(Refusal::Bad(fault)),
        Err(Refusal::NoMem) => {
            *r = start;
            Err(Refusal::NoMem)
        }
    }
}
