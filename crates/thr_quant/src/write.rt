// Writing limits and quantisers (Theora I, 6.4.1 and 6.4.2).
ghost use Rattle.std.specs.Prelude.{◌≡◌, ◌-◌, ◌<◌, ◌≤◌, ◌++◌, length, Bool, List, OnOk, OnErr};
ghost use Rattle.std.specs.List.{All};
ghost use Rattle.vid_base.specs.Arithmetic.{bit_length};
ghost use Rattle.vid_base.specs.Bits.{digits};
ghost use Rattle.vid_base.specs.Items.{all_digits};
ghost use Rattle.thr_quant.specs.Ranges.{AreWhole, IsMatrixCount, NameMatrices, list_bits, range_bits, ranges_bits};
ghost use Rattle.thr_quant.specs.Ramps.{matrices_bits, matrix_list_bits, pair_bits, pairs_bits, ramps_bits, ramps_of, scales_bits};
ghost use Rattle.thr_quant.specs.Limits.{limits_bits, limits_of};

use crate::laws::{limits_fit_a_header, quantisers_fit_a_header};
use crate::numbers::{put_bytes, put_words, width_of_bytes, width_of_words};
use crate::ranges::LAST;
use crate::{Limits, Ramps, Range, Ranges};
use vid_base::{BitWriter, NoMem, ilog};

/// Writes limits in the least width that holds all of them, 0 bits where all are 0 (Theora I, 6.4.1). After `NoMem` the bits
/// that were there are followed by some others.
#[tactic(auto, using(crate::proofs::WholeLemmas::limits_back), unfolding(crate::specs::Limits::limits_bits))]
pub fn write_limits(w: &mut BitWriter, limits: &Limits) -> Result<(), NoMem>
    ensures written { OnOk result (w.new ≡ w.old ++ limits_bits limits.now.of) }
    ensures memory { OnErr result ((more : List Bool) × (w.new ≡ w.old ++ more)) }
    ensures reads_back { (rest : List Bool) → limits_of (limits_bits limits.now.of ++ rest) ≡ Ok (limits.now.of, rest) }
{
    limits_fit_a_header(limits);
    let width = width_of_bytes(&limits.of);
    w.put(width, 3)?;
    put_bytes(w, &limits.of, width)
}

/// Writes scales in the least width that holds all of them, 1 bit at least.
#[tactic(auto, unfolding(crate::specs::Ramps::scales_bits))]
fn write_scales(w: &mut BitWriter, scales: &[u16; 64]) -> Result<(), NoMem>
    ensures written { OnOk result (w.new ≡ w.old ++ scales_bits scales.now) }
    ensures memory { OnErr result ((more : List Bool) × (w.new ≡ w.old ++ more)) }
{
    let width = width_of_words(scales).max(1);
    w.put(width - 1, 4)?;
    put_words(w, scales, width)
}

/// Writes the index of one of so many base matrices.
fn write_matrix_index(w: &mut BitWriter, count: u32, index: u16) -> Result<(), NoMem>
    requires count { IsMatrixCount count }
    requires named { index < count }
    ensures written { OnOk result (w.new ≡ w.old ++ digits (bit_length (count - 1)) index) }
    ensures memory { OnErr result ((more : List Bool) × (w.new ≡ w.old ++ more)) }
{
    w.put(u32::from(index), ilog(count - 1))
}

/// Writes a range among so many steps that are left.
#[tactic(auto, unfolding(crate::specs::Ranges::range_bits))]
fn write_range(w: &mut BitWriter, count: u32, left: u8, range: Range) -> Result<(), NoMem>
    requires count { IsMatrixCount count }
    requires left { left ≤ 63 }
    requires size { (0 < range.size) × (range.size ≤ left) }
    requires named { range.next < count }
    ensures written { OnOk result (w.new ≡ w.old ++ range_bits count left range) }
    ensures memory { OnErr result ((more : List Bool) × (w.new ≡ w.old ++ more)) }
{
    w.put(u32::from(range.size) - 1, ilog(u32::from(left) - 1))?;
    write_matrix_index(w, count, range.next)
}

/// Writes ranges one behind the other.
fn write_list(w: &mut BitWriter, count: u32, list: &[Range]) -> Result<(), NoMem>
    requires count { IsMatrixCount count }
    requires whole { AreWhole list.now }
    requires named { All (λ range. range.next < count) list.now }
    ensures written { OnOk result (w.new ≡ w.old ++ list_bits count 63 list.now) }
    ensures memory { OnErr result ((more : List Bool) × (w.new ≡ w.old ++ more)) }
{
    let mut left = LAST;
    for range in list {
        write_range(w, count, left, *range)?;
        left -= range.size;
    }
    Ok(())
}

/// Writes ranges that name base matrices out of so many.
#[tactic(auto, unfolding(crate::specs::Ranges::ranges_bits))]
fn write_ranges(w: &mut BitWriter, count: u32, ranges: &Ranges) -> Result<(), NoMem>
    requires count { IsMatrixCount count }
    requires named { NameMatrices count ranges.now }
    ensures written { OnOk result (w.new ≡ w.old ++ ranges_bits count ranges.now) }
    ensures memory { OnErr result ((more : List Bool) × (w.new ≡ w.old ++ more)) }
{
    write_matrix_index(w, count, ranges.start)?;
    write_list(w, count, &ranges.list)
}

/// Writes the ranges of intra blocks in a plane behind another.
#[tactic(auto, unfolding(crate::specs::Ramps::pair_bits, vid_base::specs::Bits::digits))]
fn write_intra(w: &mut BitWriter, count: u32, before: &Ranges, own: &Ranges) -> Result<(), NoMem>
    requires count { IsMatrixCount count }
    requires named { NameMatrices count own.now }
    ensures written { OnOk result (w.new ≡ w.old ++ pair_bits count before.now None own.now) }
    ensures memory { OnErr result ((more : List Bool) × (w.new ≡ w.old ++ more)) }
{
    if own == before {
        return w.put(0, 1);
    }
    w.put(1, 1)?;
    write_ranges(w, count, own)
}

/// Writes the ranges of inter blocks in a plane, of which the intra ranges are given too.
#[tactic(auto, unfolding(crate::specs::Ramps::pair_bits, vid_base::specs::Bits::digits))]
fn write_inter(
    w: &mut BitWriter,
    count: u32,
    before: &Ranges,
    intra: &Ranges,
    own: &Ranges,
) -> Result<(), NoMem>
    requires count { IsMatrixCount count }
    requires named { NameMatrices count own.now }
    ensures written { OnOk result (w.new ≡ w.old ++ pair_bits count before.now (Some intra.now) own.now) }
    ensures memory { OnErr result ((more : List Bool) × (w.new ≡ w.old ++ more)) }
{
    if own == intra {
        return w.put(1, 2);
    }
    if own == before {
        return w.put(0, 2);
    }
    w.put(1, 1)?;
    write_ranges(w, count, own)
}

/// Writes a base matrix.
fn write_matrix(w: &mut BitWriter, matrix: &[u8; 64]) -> Result<(), NoMem>
    ensures written { OnOk result (w.new ≡ w.old ++ all_digits 8 matrix.now) }
    ensures memory { OnErr result ((more : List Bool) × (w.new ≡ w.old ++ more)) }
{
    put_bytes(w, matrix, 8)
}

/// Writes base matrices one behind the other.
fn write_matrix_list(w: &mut BitWriter, matrices: &[[u8; 64]]) -> Result<(), NoMem>
    ensures written { OnOk result (w.new ≡ w.old ++ matrix_list_bits matrices.now) }
    ensures memory { OnErr result ((more : List Bool) × (w.new ≡ w.old ++ more)) }
{
    for matrix in matrices {
        write_matrix(w, matrix)?;
    }
    Ok(())
}

/// Writes base matrices behind their number.
#[tactic(auto, unfolding(crate::specs::Ramps::matrices_bits))]
fn write_matrices(w: &mut BitWriter, matrices: &[[u8; 64]]) -> Result<(), NoMem>
    requires { IsMatrixCount (length matrices.now) }
    ensures written { OnOk result (w.new ≡ w.old ++ matrices_bits matrices.now) }
    ensures memory { OnErr result ((more : List Bool) × (w.new ≡ w.old ++ more)) }
{
    w.put(matrices.len() as u32 - 1, 9)?;
    write_matrix_list(w, matrices)
}

/// Writes the ranges of intra and of inter blocks in all three planes.
fn write_pairs(
    w: &mut BitWriter,
    count: u32,
    intra: &[Ranges; 3],
    inter: &[Ranges; 3],
) -> Result<(), NoMem>
    requires count { IsMatrixCount count }
    requires intra { All (NameMatrices count) intra.now }
    requires inter { All (NameMatrices count) inter.now }
    ensures written { OnOk result (w.new ≡ w.old ++ pairs_bits count intra.now inter.now) }
    ensures memory { OnErr result ((more : List Bool) × (w.new ≡ w.old ++ more)) }
{
    let [intra_y, intra_cb, intra_cr] = intra;
    let [inter_y, inter_cb, inter_cr] = inter;
    write_ranges(w, count, intra_y)?;
    write_intra(w, count, intra_y, intra_cb)?;
    write_intra(w, count, intra_cb, intra_cr)?;
    write_inter(w, count, intra_cr, intra_y, inter_y)?;
    write_inter(w, count, inter_y, intra_cb, inter_cb)?;
    write_inter(w, count, inter_cb, intra_cr, inter_cr)
}

/// Writes quantisers (Theora I, 6.4.2): scales in the least width that holds all of them, and for each kind of block and
/// plane behind the first a copy where its ranges are those of the same plane's intra blocks or of the pair before. After
/// `NoMem` the bits that were there are followed by some others.
#[tactic(auto, using(crate::proofs::WholeLemmas::ramps_back), unfolding(crate::specs::Ramps::ramps_bits))]
pub fn write_ramps(w: &mut BitWriter, ramps: &Ramps) -> Result<(), NoMem>
    ensures written { OnOk result (w.new ≡ w.old ++ ramps_bits ramps.now) }
    ensures memory { OnErr result ((more : List Bool) × (w.new ≡ w.old ++ more)) }
    ensures reads_back { (rest : List Bool) → ramps_of (ramps_bits ramps.now ++ rest) ≡ Ok (ramps.now, rest) }
{
    quantisers_fit_a_header(ramps);
    write_scales(w, &ramps.ac)?;
    write_scales(w, &ramps.dc)?;
    write_matrices(w, &ramps.matrices)?;
    write_pairs(w, ramps.matrices.len() as u32, &ramps.intra, &ramps.inter)
}
