// Which token says a meaning (Theora I, 7.7.1 and 7.7.2).
ghost use Rattle.std.specs.Prelude.{◌≡◌, ◌<◌, ◌≤◌, ◌^◌, IsTrue};
ghost use Rattle.thr_token.specs.Tokens.{EndRun, ZeroRun, further_bits, meaning_of, valued};
ghost use Rattle.thr_token.specs.Spellings.{IsSayable, in_one};
ghost use Rattle.thr_token.specs.Views.{as_meaning};

use crate::meaning::Meaning;

/// The longest end-of-block run that a token says by its length.
pub(crate) const LONGEST_RUN: u32 = 4095;

/// A token's number and its further bits as one number.
#[derive(Clone, Copy)]
pub(crate) struct Spelling {
    pub(crate) token: u8,
    pub(crate) extra: u32,
    ghost number: { token < 32 },
    ghost further: { extra < 2 ^ further_bits token },
}

/// Whether one token can say so many zeros and a value of this size behind them.
pub(crate) fn in_one(zeros: u32, size: u32) -> bool
    ensures { result ≡ in_one zeros size }
{
    zeros == 0 || (size == 1 && zeros < 18) || (size < 4 && zeros < 4)
}

/// An end-of-block run of so many blocks.
#[tactic(auto, unfolding(crate::specs::Tokens::meaning_of))]
fn spell_run(blocks: u32) -> Spelling
    requires { (0 < blocks) × (blocks ≤ 4095) }
    ensures { meaning_of result.token result.extra ≡ EndRun blocks }
{
    let (token, extra) = match blocks {
        1 => (0, 0),
        2 => (1, 0),
        3 => (2, 0),
        4..=7 => (3, blocks - 4),
        8..=15 => (4, blocks - 8),
        16..=31 => (5, blocks - 16),
        _ => (6, blocks),
    };
    Spelling { token, extra }
}

/// So many zeros.
#[tactic(auto, unfolding(crate::specs::Tokens::meaning_of))]
fn spell_zeros(zeros: u32) -> Spelling
    requires { (0 < zeros) × (zeros ≤ 64) }
    ensures { meaning_of result.token result.extra ≡ ZeroRun zeros }
{
    let token = if zeros <= 8 { 7 } else { 8 };
    Spelling {
        token,
        extra: zeros - 1,
    }
}

/// A value of this size; it is negative where the sign is 1.
#[tactic(auto, unfolding(crate::specs::Tokens::meaning_of))]
fn spell_value(size: u32, sign: u32) -> Spelling
    requires size { (0 < size) × (size ≤ 580) }
    requires sign { sign < 2 }
    ensures { meaning_of result.token result.extra ≡ valued 0 size sign }
{
    let (token, extra) = match size {
        1 => (if sign == 0 { 9 } else { 10 }, 0),
        2 => (if sign == 0 { 11 } else { 12 }, 0),
        3 => (13, sign),
        4 => (14, sign),
        5 => (15, sign),
        6 => (16, sign),
        7..=8 => (17, 2 * sign + size - 7),
        9..=12 => (18, 4 * sign + size - 9),
        13..=20 => (19, 8 * sign + size - 13),
        21..=36 => (20, 16 * sign + size - 21),
        37..=68 => (21, 32 * sign + size - 37),
        _ => (22, 512 * sign + size - 69),
    };
    Spelling { token, extra }
}

/// So many zeros and a value of this size behind them; it is negative where the sign is 1.
#[tactic(auto, unfolding(crate::specs::Tokens::meaning_of))]
fn spell_both(zeros: u32, size: u32, sign: u32) -> Spelling
    requires zeros { 0 < zeros }
    requires size { 0 < size }
    requires fits { IsTrue (in_one zeros size) }
    requires sign { sign < 2 }
    ensures { meaning_of result.token result.extra ≡ valued zeros size sign }
{
    let (token, extra) = match (size, zeros) {
        (1, 1) => (23, sign),
        (1, 2) => (24, sign),
        (1, 3) => (25, sign),
        (1, 4) => (26, sign),
        (1, 5) => (27, sign),
        (1, 6..=9) => (28, 4 * sign + zeros - 6),
        (1, _) => (29, 8 * sign + zeros - 10),
        (_, 1) => (30, 2 * sign + size - 2),
        _ => (31, 4 * sign + 2 * (size - 2) + zeros - 2),
    };
    Spelling { token, extra }
}

/// The token that says it, and its further bits.
pub(crate) fn spell(meaning: Meaning) -> Spelling
    requires { IsSayable (as_meaning meaning) }
    ensures { meaning_of result.token result.extra ≡ as_meaning meaning }
{
    match meaning {
        Meaning::EndRun(blocks) => spell_run(blocks),
        Meaning::ZeroRun(zeros) => spell_zeros(zeros),
        Meaning::Value { zeros, value } => {
            let size = u32::from(value.unsigned_abs());
            let sign = u32::from(value < 0);
            if zeros == 0 {
                spell_value(size, sign)
            } else {
                spell_both(zeros, size, sign)
            }
        }
    }
}
