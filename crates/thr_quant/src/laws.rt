// Laws of the definitions that contracts here cite, and of each value of the types. These functions change nothing: they
// are there for their clauses, which the proofs of crates above cite.
ghost use Rattle.std.specs.List.{All};
ghost use Rattle.std.specs.Prelude.{◌≡◌, ◌<◌, ◌^◌, ◌++◌, Bool, List, Ok, length, ℕ};
ghost use Rattle.vid_base.specs.Fronts.{ReadsFront};
ghost use Rattle.thr_quant.specs.Limits.{IsLimits, limits_bits, limits_of};
ghost use Rattle.thr_quant.specs.Ranges.{AreWhole};
ghost use Rattle.thr_quant.specs.Ramps.{AreScales, IsBaseMatrix, IsRamps, Ramps, ramps_bits, ramps_of};

use crate::{Limits, Ramps, Ranges};

/// Limits that were read are 64 numbers of 7 bits, any such are read back as they are written, and of the first bits alone
/// they are read as the same or are `Ended`.
pub fn limits_of_a_header()
    ensures sound { (limits : List ℕ) (bits left : List Bool) → limits_of bits ≡ Ok (limits, left) → IsLimits limits }
    ensures reads_back { (limits : List ℕ) (rest : List Bool) → IsLimits limits → limits_of (limits_bits limits ++ rest) ≡ Ok (limits, rest) }
    ensures front { ReadsFront limits_of }
{}

/// Quantisers that were read are those that a setup header can say, any such are read back as they are written, and of the
/// first bits alone they are read as the same or are `Ended`.
pub fn quantisers_of_a_header()
    ensures sound { (ramps : Ramps) (bits left : List Bool) → ramps_of bits ≡ Ok (ramps, left) → IsRamps ramps }
    ensures reads_back { (ramps : Ramps) (rest : List Bool) → IsRamps ramps → ramps_of (ramps_bits ramps ++ rest) ≡ Ok (ramps, rest) }
    ensures front { ReadsFront ramps_of }
{}

/// Limits are such as a setup header can say.
pub fn limits_fit_a_header(limits: &Limits)
    ensures { IsLimits limits.now.of }
{}

/// Words have 16 bits.
fn words_are_small(numbers: &[u16])
    ensures { All (λ v. v < 2 ^ 16) numbers.now }
{
    let _len = numbers.len();
}

/// Bytes have 8 bits.
fn bytes_are_small(numbers: &[u8])
    ensures { All (λ v. v < 2 ^ 8) numbers.now }
{
    let _len = numbers.len();
}

/// Scales are.
fn scales_fit_a_header(scales: &[u16; 64])
    ensures { AreScales scales.now }
{
    words_are_small(scales);
}

/// A base matrix is.
fn matrix_fits_a_header(matrix: &[u8; 64])
    ensures { IsBaseMatrix matrix.now }
{
    bytes_are_small(matrix);
}

/// Base matrices are.
fn matrices_fit_a_header(matrices: &[[u8; 64]])
    ensures { All IsBaseMatrix matrices.now }
{
    for matrix in matrices {
        matrix_fits_a_header(matrix);
    }
}

/// Ranges of three planes are whole.
fn ranges_are_whole(ranges: &[Ranges; 3])
    ensures planes { length ranges.now ≡ 3 }
    ensures whole { All (λ own. AreWhole own.list) ranges.now }
{
    let [y, cb, cr] = ranges;
    let _lens = (y.list.len(), cb.list.len(), cr.list.len());
}

/// Quantisers are such as a setup header can say.
pub fn quantisers_fit_a_header(ramps: &Ramps)
    ensures { IsRamps ramps.now }
{
    scales_fit_a_header(&ramps.ac);
    scales_fit_a_header(&ramps.dc);
    matrices_fit_a_header(&ramps.matrices);
    ranges_are_whole(&ramps.intra);
    ranges_are_whole(&ramps.inter);
}
