// The forward transform of a block (own).
ghost use Rattle.std.specs.Prelude.{◌≡◌, ℕ, ◌+◌, ◌*◌, ◌<◌, ◌≢◌, ◌^◌, map, All};
ghost use Rattle.thr_dct.specs.Line.{entry, Within};
ghost use Rattle.thr_dct.specs.Forward.{scaled_down, forward_of};
ghost use Rattle.thr_dct.specs.Passes.{summed_rows};

use crate::sums::sums_of_row;

/// A half of one, of which a coefficient has 2^32.
const HALF: i64 = 2_147_483_648;

/// The residuals with room for their sums.
fn widened(r: &[i16; 64]) -> [i32; 64]
    ensures { result ≡ r.now }
{
    let mut out = [0; 64];
    for k in 0..64usize {
        out[k] = i32::from(r[k]);
    }
    out
}

/// Writes eight sums into that column of a block.
fn put_sums(block: &mut [i64; 64], j: usize, sums: [i64; 8])
    requires { j < 8 }
    ensures own { (u : ℕ) → u < 8 → entry block.new (8 * u + j) ≡ entry sums u }
    ensures others { (u i : ℕ) → i < 8 → i ≢ j → entry block.new (8 * u + i) ≡ entry block.old (8 * u + i) }
{
    for u in 0..8usize {
        block[8 * u + j] = sums[u];
    }
}

/// The sums of each row by the rows of the table, which become a column.
fn pass(block: &[i32; 64]) -> [i64; 64]
    requires { All (Within (2 ^ 27)) block.now }
    ensures { result ≡ summed_rows block.now }
{
    let mut out = [0; 64];
    for r in 0..8usize {
        put_sums(&mut out, r, sums_of_row(block, r));
    }
    out
}

/// The same numbers, for the second pass.
fn narrowed(block: &[i64; 64]) -> [i32; 64]
    requires { All (Within (2 ^ 27)) block.now }
    ensures { result ≡ block.now }
{
    let mut out = [0; 64];
    for k in 0..64usize {
        out[k] = block[k] as i32;
    }
    out
}

/// To the nearest number and halves upwards.
#[tactic(auto, using(crate::proofs::Cuts::casts), unfolding(crate::specs::Forward::scaled_down))]
fn scaled_down(s: i64) -> i32
    requires { Within (2 ^ 46) s }
    ensures { result ≡ scaled_down s }
{
    ((s + HALF) >> 32) as i32
}

/// Each sum as a coefficient.
fn coefficients(sums: &[i64; 64]) -> [i32; 64]
    requires { All (Within (2 ^ 46)) sums.now }
    ensures { result ≡ map scaled_down sums.now }
{
    let mut out = [0; 64];
    for k in 0..64usize {
        out[k] = scaled_down(sums[k]);
    }
    out
}

/// The coefficients of a block whose residuals are given, both in natural order: `F[v][u]` is the sum over y and x of
/// `B[v][y] * B[u][x] * r[y][x]`, divided by 2^32 to the nearest number and halves upwards (own).
pub fn forward(r: &[i16; 64]) -> [i32; 64]
    requires { All (Within 255) r.now }
    ensures value { result ≡ forward_of r.now }
    ensures bounds { All (Within 8160) result }
{
    let by_rows = pass(&widened(r));
    let by_columns = pass(&narrowed(&by_rows));
    coefficients(&by_columns)
}
