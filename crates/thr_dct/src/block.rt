// The inverse transform of a block (Theora I, 7.9.3.2). Both passes go by columns, so that eight of them are the lanes of one
// vector, and the rows become columns before the first pass and rows again after it.
ghost use Rattle.std.specs.Prelude.{◌≡◌, ℕ, ◌+◌, ◌*◌, ◌<◌, ◌≢◌, map};
ghost use Rattle.thr_dct.specs.Line.{entry};
ghost use Rattle.thr_dct.specs.Inverse.{row, column, columns, turned, settled, inverse_of};

use crate::line::line;

/// That row of a block.
#[tactic(auto, using(crate::proofs::Cuts::casts), unfolding(crate::specs::Inverse::row))]
fn row(block: &[i16; 64], r: usize) -> [i16; 8]
    requires { r < 8 }
    ensures { result ≡ row block.now r }
{
    let at = 8 * r;
    [
        block[at],
        block[at + 1],
        block[at + 2],
        block[at + 3],
        block[at + 4],
        block[at + 5],
        block[at + 6],
        block[at + 7],
    ]
}

/// That column of a block.
#[tactic(auto, using(crate::proofs::Cuts::casts), unfolding(crate::specs::Inverse::column))]
fn column(block: &[i16; 64], j: usize) -> [i16; 8]
    requires { j < 8 }
    ensures { result ≡ column block.now j }
{
    [
        block[j],
        block[j + 8],
        block[j + 16],
        block[j + 24],
        block[j + 32],
        block[j + 40],
        block[j + 48],
        block[j + 56],
    ]
}

/// Writes eight numbers into that column of a block.
fn put_column(block: &mut [i16; 64], j: usize, column: [i16; 8])
    requires { j < 8 }
    ensures own { (r : ℕ) → r < 8 → entry block.new (8 * r + j) ≡ entry column r }
    ensures others { (r i : ℕ) → i < 8 → i ≢ j → entry block.new (8 * r + i) ≡ entry block.old (8 * r + i) }
{
    for r in 0..8usize {
        block[8 * r + j] = column[r];
    }
}

/// A sixteenth, to the nearest number and halves upwards. The sum is not made, since it may not fit 16 bits.
#[tactic(auto, unfolding(crate::specs::Inverse::settled))]
fn settled(x: i16) -> i16
    ensures { result ≡ settled x }
{
    (x >> 4).wrapping_add((x >> 3) & 1)
}

/// Writes eight numbers into that column of a block, each settled.
fn put_settled(block: &mut [i16; 64], j: usize, column: [i16; 8])
    requires { j < 8 }
    ensures own { (r : ℕ) → r < 8 → entry block.new (8 * r + j) ≡ settled (entry column r) }
    ensures others { (r i : ℕ) → i < 8 → i ≢ j → entry block.new (8 * r + i) ≡ entry block.old (8 * r + i) }
{
    for r in 0..8usize {
        block[8 * r + j] = settled(column[r]);
    }
}

/// Rows become columns.
fn turn(block: &[i16; 64]) -> [i16; 64]
    ensures { result ≡ turned block.now }
{
    let mut out = [0; 64];
    for j in 0..8usize {
        put_column(&mut out, j, row(block, j));
    }
    out
}

/// Each column goes through the transform of one line.
fn columns(block: &[i16; 64]) -> [i16; 64]
    ensures { result ≡ columns block.now }
{
    let mut out = [0; 64];
    for j in 0..8usize {
        put_column(&mut out, j, line(column(block, j)));
    }
    out
}

/// The same, and each number is settled.
fn settled_columns(block: &[i16; 64]) -> [i16; 64]
    ensures { result ≡ map settled (columns block.now) }
{
    let mut out = [0; 64];
    for j in 0..8usize {
        put_settled(&mut out, j, line(column(block, j)));
    }
    out
}

/// The residuals of a block whose coefficients are given, both in natural order (Theora I, 7.9.3.2).
#[tactic(auto, using(crate::proofs::PassLemmas::rows_by_columns), unfolding(crate::specs::Inverse::inverse_of))]
pub fn inverse(c: &[i16; 64]) -> [i16; 64]
    ensures value { result ≡ inverse_of c.now }
{
    let across = turn(c);
    let passed = columns(&across);
    let by_rows = turn(&passed);
    settled_columns(&by_rows)
}
