// The rows of tables by which all tokens can be written (Theora I, 6.4.4 and 7.7.3).
ghost use Rattle.std.specs.Prelude.{◌≡◌, ◌≢◌, ◌+◌, ◌*◌, ◌<◌, ◌≤◌, None, IfNone, IfSome, is_some};
ghost use Rattle.std.specs.List.{Contains};
ghost use Rattle.thr_huff.specs.Codes.{codes_at, code_of};
ghost use Rattle.thr_huff.specs.Rows.{full_row_of, has_all_tokens, is_full_row};
ghost use Rattle.enc_packet.specs.FullRows.{AreAmong, full_rows};

use crate::counts::{Counts, GROUPS, TOKENS};
use arrayvec::ArrayVec;
use std::marker::Model;
use thr_huff::Forest;
use thr_token::Tables;

/// How many rows there are: trees in a group.
const ROWS: u8 = 16;

/// How many trees a setup header has.
const TREES: usize = 80;

/// The rows of tables by which all tokens can be written, with the length of each code. Made once for a stream, of whose
/// trees a clause sees the numbers of those rows, each 0 to 15.
#[derive(Drop)]
pub struct Rows {
    numbers: ArrayVec<u8, 16>,
    /// The length of the code of each token in each tree; 0 where the tree does not hold it.
    lengths: [[u8; TOKENS]; TREES],
}

impl Model for Rows {
    ghost use Rattle.std.specs.Prelude.{ℕ, ◌<◌, List, length};
    ghost use Rattle.std.specs.List.{All};

    ghost Value = { List ℕ };

    ghost view = { λ r. r.numbers.items };

    ghost invariant = { λ r. (0 < length r.numbers.items) × All (λ number. number < 16) r.numbers.items };
}

/// Whether a code of tree hti leads to the token.
fn has_token(forest: &Forest, hti: u8, token: u8) -> bool
    requires hti { hti < 80 }
    requires token { token < 32 }
    ensures { result ≡ is_some (code_of (codes_at forest.now hti) token) }
{
    forest.code(hti, token).is_some()
}

/// Whether a code of tree hti leads to each token.
#[tactic(auto, unfolding(thr_huff::specs::Rows::has_all_tokens))]
fn has_all_tokens(forest: &Forest, hti: u8) -> bool
    requires { hti < 80 }
    ensures { result ≡ has_all_tokens (codes_at forest.now hti) }
{
    (0..32u8).all(|token| has_token(forest, hti, token))
}

/// Whether the trees of this number hold all tokens.
#[tactic(auto, unfolding(thr_huff::specs::Rows::is_full_row))]
fn is_full_row(forest: &Forest, number: u8) -> bool
    requires { number < 16 }
    ensures { result ≡ is_full_row forest.now number }
{
    (0..5u8).all(|group| has_all_tokens(forest, ROWS * group + number))
}

/// The numbers of the rows whose trees hold all tokens.
#[tactic(auto, unfolding(crate::specs::FullRows::full_rows))]
fn numbers_of(forest: &Forest) -> ArrayVec<u8, 16>
    ensures { result.items ≡ full_rows forest.now }
{
    let mut numbers = ArrayVec::new();
    'rows: for number in 0..ROWS {
        if is_full_row(forest, number) {
            numbers.push(number);
        }
    }
    numbers
}

/// The length of the code of a token in tree hti; 0 where there is none.
fn code_length(forest: &Forest, hti: u8, token: u8) -> u8
    requires hti { hti < 80 }
    requires token { token < 32 }
{
    match forest.code(hti, token) {
        Some(code) => code.len,
        None => 0,
    }
}

/// Those of all tokens.
fn code_lengths(forest: &Forest, hti: u8) -> [u8; TOKENS]
    requires { hti < 80 }
{
    let mut lengths = [0; TOKENS];
    for token in 0..32u8 {
        lengths[usize::from(token)] = code_length(forest, hti, token);
    }
    lengths
}

/// How many bits the codes of so many tokens have.
fn bits_of(counts: &[u32; TOKENS], lengths: &[u8; TOKENS]) -> u64 {
    let mut bits = 0u64;
    for token in 0..TOKENS {
        let codes = u64::from(counts[token]).wrapping_mul(u64::from(lengths[token]));
        bits = bits.wrapping_add(codes);
    }
    bits
}

impl Rows {
    /// The rows of a stream's trees; None where no row holds all tokens.
    pub fn new(forest: &Forest) -> Option<Rows>
        ensures none { IfNone result (full_row_of forest.now ≡ None) }
        ensures some { IfSome result (λ rows. rows ≡ full_rows forest.now) }
        ensures row { IfSome result (λ _. full_row_of forest.now ≢ None) }
    {
        // So `numbers` is not empty.
        let _first = forest.full_row()?;
        let numbers = numbers_of(forest);
        let mut lengths = [[0; TOKENS]; TREES];
        for hti in 0..80u8 {
            lengths[usize::from(hti)] = code_lengths(forest, hti);
        }
        Some(Rows { numbers, lengths })
    }

    /// How many bits the codes of so many tokens of some groups have in a row.
    fn bits_in(
        &self,
        number: u8,
        counts: &[[u32; TOKENS]; GROUPS],
        first: usize,
        past: usize,
    ) -> u64
        requires number { number < 16 }
        requires past { past ≤ 5 }
    {
        let mut bits = 0u64;
        for group in first..past {
            let tree = 16 * group + usize::from(number);
            bits = bits.wrapping_add(bits_of(&counts[group], &self.lengths[tree]));
        }
        bits
    }

    /// The row in which the codes of so many tokens of some groups have the fewest bits; of equal ones the first.
    fn shortest(&self, counts: &[[u32; TOKENS]; GROUPS], first: usize, past: usize) -> u8
        requires { past ≤ 5 }
        ensures { Contains self.now result }
    {
        let numbers = self.numbers.as_slice();
        let mut best = numbers[0];
        let mut least = self.bits_in(best, counts, first, past);
        'rows: for number in numbers {
            let bits = self.bits_in(*number, counts, first, past);
            if bits < least {
                best = *number;
                least = bits;
            }
        }
        best
    }

    /// Tables by which so many tokens have the fewest bits: for luma and for chroma, at place 0 and at the other places.
    pub(crate) fn tables(&self, counts: &Counts) -> Tables
        ensures among { AreAmong self.now result }
    {
        Tables {
            luma_dc: self.shortest(&counts.luma, 0, 1),
            chroma_dc: self.shortest(&counts.chroma, 0, 1),
            luma_ac: self.shortest(&counts.luma, 1, GROUPS),
            chroma_ac: self.shortest(&counts.chroma, 1, GROUPS),
        }
    }
}
