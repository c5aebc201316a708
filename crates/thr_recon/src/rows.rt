// Rows of eight samples (Theora I, 7.9.1.3 and 7.9.4). Each is computed as a whole, so that a vector can hold it.
ghost use Rattle.std.specs.Prelude.{◌≡◌, ◌+◌, ◌*◌, ◌/◌, ◌%◌, ◌<◌, ◌≤◌, ◌+ℤ◌, pos, [], map, slice_index, slice_index_or};
ghost use Rattle.std.specs.List.{range_with_len};
ghost use Rattle.thr_dct.specs.Line.{entry};
ghost use Rattle.thr_recon.specs.Rebuilt.{sample_of, rebuilt, block_of};

use std::simd::prelude::*;

/// The low bytes of eight numbers. A shuffle, since eight casts would not become one.
fn low_bytes(row: [u16; 8]) -> [u8; 8]
    ensures { result ≡ map (λ u. slice_index row u % 256) (range_with_len 0 8) }
{
    let [a, b, c, d, e, f, g, h] = row;
    u16x8::from_array([a, b, c, d, e, f, g, h])
        .to_le_bytes()
        .swizzle([0, 2, 4, 6, 8, 10, 12, 14])
        .to_array()
}

/// The samples of a row as lanes of 16 bits.
fn wide(row: &[u8; 8]) -> u16x8
    ensures { result ≡ row.now }
{
    u8x8::from_array(*row).cast::<u16>()
}

fn mean_row(a: &[u8; 8], b: &[u8; 8]) -> [u8; 8]
    ensures { result ≡ map (λ u. (slice_index a.now u + slice_index b.now u) / 2) (range_with_len 0 8) }
{
    low_bytes(((wide(a) + wide(b)) >> u16x8::splat(1)).to_array())
}

/// The means of the samples of two blocks, rounded downwards (Theora I, 7.9.1.3).
pub(crate) fn mean_block(a: &[[u8; 8]; 8], b: &[[u8; 8]; 8]) -> [[u8; 8]; 8]
    ensures { result ≡ block_of (λ u v. (slice_index (slice_index_or a.now v []) u + slice_index (slice_index_or b.now v []) u) / 2) }
{
    [
        mean_row(&a[0], &b[0]),
        mean_row(&a[1], &b[1]),
        mean_row(&a[2], &b[2]),
        mean_row(&a[3], &b[3]),
        mean_row(&a[4], &b[4]),
        mean_row(&a[5], &b[5]),
        mean_row(&a[6], &b[6]),
        mean_row(&a[7], &b[7]),
    ]
}

/// A predicted sample and its residual. The residual is bounded before the sum, which so fits 16 bits; what is cut off of it
/// would leave the range of samples in any case.
fn rebuilt_sample(sample: u8, r: &[i16; 64], k: usize) -> u16
    requires { k < 64 }
    ensures value { result ≡ sample_of (pos sample +ℤ entry r.now k) }
    ensures small { result < 256 }
{
    (i16::from(sample) + r[k].clamp(-255, 255))
        .clamp(0, 255)
        .cast_unsigned()
}

fn rebuilt_row(row: &[u8; 8], r: &[i16; 64], at: usize) -> [u8; 8]
    requires { at ≤ 56 }
    ensures { result ≡ map (λ u. sample_of (pos (slice_index row.now u) +ℤ entry r.now (at + u))) (range_with_len 0 8) }
{
    low_bytes([
        rebuilt_sample(row[0], r, at),
        rebuilt_sample(row[1], r, at + 1),
        rebuilt_sample(row[2], r, at + 2),
        rebuilt_sample(row[3], r, at + 3),
        rebuilt_sample(row[4], r, at + 4),
        rebuilt_sample(row[5], r, at + 5),
        rebuilt_sample(row[6], r, at + 6),
        rebuilt_sample(row[7], r, at + 7),
    ])
}

/// The samples of a block plus its residuals, clamped to 0 to 255 (Theora I, 7.9.4).
pub(crate) fn rebuilt_rows(rows: &[[u8; 8]; 8], r: &[i16; 64]) -> [[u8; 8]; 8]
    ensures { result ≡ block_of (rebuilt (λ u v. slice_index (slice_index_or rows.now v []) u) r.now) }
{
    [
        rebuilt_row(&rows[0], r, 0),
        rebuilt_row(&rows[1], r, 8),
        rebuilt_row(&rows[2], r, 16),
        rebuilt_row(&rows[3], r, 24),
        rebuilt_row(&rows[4], r, 32),
        rebuilt_row(&rows[5], r, 40),
        rebuilt_row(&rows[6], r, 48),
        rebuilt_row(&rows[7], r, 56),
    ]
}
