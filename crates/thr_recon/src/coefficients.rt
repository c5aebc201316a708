// From coefficients to residuals (Theora I, 7.9.2 and 7.9.4).
ghost use Rattle.std.specs.Prelude.{◌≡◌, ◌+◌, ◌++◌, ◌<◌, ◌≤◌, ◌≤ℤ◌, ◌*ℤ◌, ℕ, pos, negsuc, map, slice_index, true};
ghost use Rattle.std.specs.Int.{cast_signed, w16};
ghost use Rattle.thr_dct.specs.Line.{entry};
ghost use Rattle.thr_recon.specs.Residual.{zigzag, factor_at, product, dequantised, short_residual, residual_of};

use std::simd::prelude::*;
use thr_dct::inverse;
use vid_base::trunc16;

/// Where the coefficient of each place of the natural order stands in zigzag order (Theora I, 2.6).
const ZIGZAG: [usize; 64] = [
    0, 1, 5, 6, 14, 15, 27, 28, 2, 4, 7, 13, 16, 26, 29, 42, 3, 8, 12, 17, 25, 30, 41, 43, 9, 11,
    18, 24, 31, 40, 44, 53, 10, 19, 23, 32, 39, 45, 52, 54, 20, 22, 33, 38, 46, 51, 55, 60, 21, 34,
    37, 47, 50, 56, 59, 61, 35, 36, 48, 49, 57, 58, 62, 63,
];

/// The bits of 32 coefficients from that place on. They are put in order and multiplied without their signs.
fn bits(c: &[i16; 64], from: usize) -> [u16; 32]
    requires { from ≤ 32 }
    ensures { (k : ℕ) → k < 32 → cast_signed w16 (slice_index result k) ≡ entry c.now (from + k) }
{
    let mut out = [0; 32];
    for k in 0..32usize {
        out[k] = c[from + k].cast_unsigned();
    }
    out
}

/// Each number is looked at, whatever those before it are, so that vectors can hold them.
fn are_zeros(numbers: &[u16; 32]) -> bool
    ensures { result ≡ true → (k : ℕ) → k < 32 → slice_index numbers.now k ≡ 0 }
{
    let mut zeros = true;
    for k in 0..32usize {
        zeros = zeros & (numbers[k] == 0);
    }
    zeros
}

/// Numbers in zigzag order, the first 32 and the others, put into natural order. They are read as slices, since an array
/// would become a vector number by number.
fn in_natural_order(low: &[u16; 32], high: &[u16; 32]) -> [u16; 64]
    ensures { result ≡ map (slice_index (low.now ++ high.now)) zigzag }
{
    u16x32::from_slice(low)
        .shuffle(u16x32::from_slice(high), ZIGZAG)
        .to_array()
}

/// The coefficient of these bits times its entry, cut to 16 bits.
fn product(bits: u16, factor: u16) -> i16
    ensures { result ≡ product (cast_signed w16 bits) factor }
{
    bits.wrapping_mul(factor).cast_signed()
}

/// The products of coefficients in natural order, of which the bits are given.
fn products(ordered: &[u16; 64], dc: u16, ac: &[u16; 64]) -> [i16; 64]
    ensures { (p : ℕ) → p < 64 → entry result p ≡ product (cast_signed w16 (slice_index ordered.now p)) (factor_at dc ac.now p) }
{
    let mut out = [0; 64];
    for p in 0..64usize {
        out[p] = product(ordered[p], ac[p]);
    }
    out[0] = product(ordered[0], dc);
    out
}

/// Dequantises a block: coefficients in zigzag order give their products with the entries in natural order, each cut to
/// 16 bits (Theora I, 7.9.2). The entries of `ac` are in natural order; `dc` takes the place of the first.
pub fn dequantise(c: &[i16; 64], dc: u16, ac: &[u16; 64]) -> [i16; 64]
    ensures { result ≡ dequantised c.now dc ac.now }
{
    let low = bits(c, 0);
    let high = bits(c, 32);
    // Most blocks have nothing in their second half, and zeros that are known need no shuffle.
    if are_zeros(&high) {
        return products(&in_natural_order(&low, &[0; 32]), dc, ac);
    }
    products(&in_natural_order(&low, &high), dc, ac)
}

/// The first coefficient times its entry, whole.
fn whole_product(c: &[i16; 64], dc: u16) -> i64
    ensures value { result ≡ entry c.now 0 *ℤ pos dc }
    ensures low { negsuc 2147450879 ≤ℤ result }
    ensures high { result ≤ℤ pos 2147450880 }
{
    i64::from(c[0]) * i64::from(dc)
}

/// Every residual of a block that has no coefficient behind the first.
fn short_residual(c: &[i16; 64], dc: u16) -> i16
    ensures { result ≡ short_residual (entry c.now 0) dc }
{
    trunc16((whole_product(c, dc) + 15) >> 5)
}

/// The residuals of a block in natural order (Theora I, 7.9.4). `count` is the place in zigzag order at which the block's
/// tokens ended: below 2 every residual comes from the first coefficient, whose product with `dc` is not cut. Else they are
/// the inverse transform of the dequantised block.
#[tactic(auto, unfolding(crate::specs::Residual::residual_of))]
pub fn residual(c: &[i16; 64], count: u8, dc: u16, ac: &[u16; 64]) -> [i16; 64]
    ensures { result ≡ residual_of c.now count dc ac.now }
{
    if count < 2 {
        [short_residual(c, dc); 64]
    } else {
        inverse(&dequantise(c, dc, ac))
    }
}
