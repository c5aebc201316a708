// The numbers of a head (own).
ghost use Rattle.std.specs.Prelude.{◌≡◌, ◌≢◌, ◌≤◌, ◌^◌, ◌∷◌, [], IfSome, MatchOption, length, min};
ghost use Rattle.std.specs.Char.{is_ascii_digit};
ghost use Rattle.std.specs.List.{list_all};
ghost use Rattle.y4m_io.specs.Places.{parts_of};
ghost use Rattle.y4m_io.specs.Numbers.{number_of, number_within, ratio_of, value_of};

use crate::place::first_part;

/// No number of a head may be as great.
const TOO_GREAT: u64 = 1 << 32;

// Whether a text has digits alone.
fn has_digits_alone(text: &[u8]) -> bool
    ensures { result ≡ list_all is_ascii_digit text.now }
{
    text.iter().all(|c| c.is_ascii_digit())
}

// A number, or 2^32 where it is greater.
fn cut(value: u64) -> u64
    ensures { result ≡ min value (2 ^ 32) }
{
    if value > TOO_GREAT { TOO_GREAT } else { value }
}

// The number that digits write, or 2^32 where it is greater.
fn decimal(digits: &[u8]) -> u64
    ensures value { result ≡ min (value_of digits.now) (2 ^ 32) }
{
    let mut value = 0u64;
    for digit in digits {
        value = cut(10 * value + u64::from(digit.saturating_sub(b'0')));
    }
    value
}

// The number that a text writes.
#[tactic(auto, unfolding(crate::specs::Numbers::number_of))]
fn number(text: &[u8]) -> Option<u64>
    ensures value { result ≡ number_of text.now }
{
    if text.is_empty() || !has_digits_alone(text) {
        return None;
    }
    Some(decimal(text))
}

/// The number that a text writes, where it is from least to most.
#[tactic(auto, unfolding(crate::specs::Numbers::number_within))]
pub(crate) fn number_within(text: &[u8], least: u64, most: u64) -> Option<u64>
    ensures value { result ≡ number_within least most (number_of text.now) }
    ensures bounds { IfSome result (λ n. (least ≤ n) × (n ≤ most)) }
{
    let n = number(text)?;
    if n < least || n > most {
        return None;
    }
    Some(n)
}

// Such a number, where 32 bits hold the most.
fn small(text: &[u8], least: u32, most: u32) -> Option<u32>
    ensures value { result ≡ number_within least most (number_of text.now) }
    ensures bounds { IfSome result (λ n. (least ≤ n) × (n ≤ most)) }
{
    Some(number_within(text, least.into(), most.into())? as u32)
}

/// The two parts of a text round a colon.
#[derive(Clone, Copy)]
struct TwoParts<'a> {
    n: &'a [u8],
    d: &'a [u8],
}

// The parts of a text that has two.
#[tactic(auto, using(crate::proofs::PlaceLemmas::some_part))]
fn two_parts(text: &[u8]) -> Option<TwoParts<'_>>
    ensures { MatchOption result (length (parts_of 58 text.now) ≢ 2) (λ r. parts_of 58 text.now ≡ r.n.now ∷ r.d.now ∷ []) }
{
    let n = first_part(b':', text);
    let d = first_part(b':', n.rest?);
    match d.rest {
        Some(_) => None,
        None => Some(TwoParts {
            n: n.bytes,
            d: d.bytes,
        }),
    }
}

/// Two numbers with a colon between, each from least to most.
pub(crate) fn ratio(text: &[u8], least: u32, most: u32) -> Option<(u32, u32)>
    ensures value { result ≡ ratio_of least most text.now }
    ensures bounds { IfSome result (λ r. (least ≤ r.0) × (r.0 ≤ most) × (least ≤ r.1) × (r.1 ≤ most)) }
{
    let parts = two_parts(text)?;
    let n = small(parts.n, least, most)?;
    let d = small(parts.d, least, most)?;
    Some((n, d))
}
