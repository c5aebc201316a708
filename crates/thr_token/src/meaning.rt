// What tokens say (Theora I, 7.7.1 and 7.7.2).
ghost use Rattle.std.specs.Prelude.{◌≡◌, ◌<◌, ◌≤◌, ◌^◌};
ghost use Rattle.thr_token.specs.Tokens.{further_bits, meaning_of, signed, valued};
ghost use Rattle.thr_token.specs.Views.{as_meaning};

/// What a token says with its further bits.
#[derive(Clone, Copy)]
pub(crate) enum Meaning {
    /// An end-of-block run of so many blocks; 0 says all that have not ended.
    EndRun(u32),
    /// So many zeros.
    ZeroRun(u32),
    /// So many zeros, and then a value.
    Value { zeros: u32, value: i16 },
}

/// How many further bits each token has.
static WIDTHS: [u8; 32] = [
    0, 0, 0, 2, 3, 4, 12, 3, 6, 0, 0, 0, 0, 1, 1, 1, 1, 2, 3, 4, 5, 6, 10, 1, 1, 1, 1, 1, 3, 4, 2,
    3,
];

/// How many further bits the token has.
pub(crate) fn further_bits(token: u8) -> u32
    requires { token < 32 }
    ensures value { result ≡ further_bits token }
    ensures few { result ≤ 12 }
{
    u32::from(WIDTHS[usize::from(token)])
}

/// A number of this size; it is negative where the sign is 1.
fn signed(size: u32, sign: u32) -> i16
    requires { size ≤ 580 }
    ensures { result ≡ signed size sign }
{
    let size = size as i16;
    if sign == 1 { -size } else { size }
}

/// So many zeros, and then a value of this size and sign.
fn valued(zeros: u32, size: u32, sign: u32) -> Meaning
    requires { size ≤ 580 }
    ensures { as_meaning result ≡ valued zeros size sign }
{
    Meaning::Value {
        zeros,
        value: signed(size, sign),
    }
}

/// What the token says with its further bits.
#[tactic(auto, unfolding(crate::specs::Tokens::meaning_of))]
pub(crate) fn meaning_of(token: u8, extra: u32) -> Meaning
    requires token { token < 32 }
    requires extra { extra < 2 ^ further_bits token }
    ensures { as_meaning result ≡ meaning_of token extra }
{
    match token {
        0 => Meaning::EndRun(1),
        1 => Meaning::EndRun(2),
        2 => Meaning::EndRun(3),
        3 => Meaning::EndRun(4 + extra),
        4 => Meaning::EndRun(8 + extra),
        5 => Meaning::EndRun(16 + extra),
        6 => Meaning::EndRun(extra),
        7 | 8 => Meaning::ZeroRun(1 + extra),
        9 => valued(0, 1, 0),
        10 => valued(0, 1, 1),
        11 => valued(0, 2, 0),
        12 => valued(0, 2, 1),
        13 => valued(0, 3, extra),
        14 => valued(0, 4, extra),
        15 => valued(0, 5, extra),
        16 => valued(0, 6, extra),
        17 => valued(0, 7 + extra % 2, extra / 2),
        18 => valued(0, 9 + extra % 4, extra / 4),
        19 => valued(0, 13 + extra % 8, extra / 8),
        20 => valued(0, 21 + extra % 16, extra / 16),
        21 => valued(0, 37 + extra % 32, extra / 32),
        22 => valued(0, 69 + extra % 512, extra / 512),
        23 => valued(1, 1, extra),
        24 => valued(2, 1, extra),
        25 => valued(3, 1, extra),
        26 => valued(4, 1, extra),
        27 => valued(5, 1, extra),
        28 => valued(6 + extra % 4, 1, extra / 4),
        29 => valued(10 + extra % 8, 1, extra / 8),
        30 => valued(1, 2 + extra % 2, extra / 2),
        _ => valued(2 + extra % 2, 2 + extra / 2 % 2, extra / 4),
    }
}
