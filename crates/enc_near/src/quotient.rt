// Coefficients from what they are to be times their entries of a matrix (own).
ghost use Rattle.std.specs.Prelude.{◌≡◌, ◌≤◌, ◌<◌, unsigned_abs};
ghost use Rattle.thr_dct.specs.Line.{Within};
ghost use Rattle.enc_near.specs.Near.{IsNearest, fewest, most};
ghost use Rattle.enc_near.specs.Rounds.{Rounds};

use crate::tables::MOST;

// The quotient to the nearest whole number, halves upwards.
fn quotient(f: i32, q: u16) -> i32
    requires f { Within 8160 f }
    requires q { 0 < q }
    ensures { Rounds f q result }
{
    let q = i32::from(q);
    (2 * f + q).div_euclid(2 * q)
}

/// That of a DC coefficient. It is not limited: only how far it is from its predictor counts, and `limit_dc` sees to that.
pub(crate) fn first_quotient(f: i32, q: u16) -> i16
    requires f { Within 8160 f }
    requires q { 16 ≤ q }
    ensures value { Rounds f q result }
    ensures small { unsigned_abs result ≤ 580 }
{
    quotient(f, q) as i16
}

/// The nearest of the coefficients that a token holds.
pub(crate) fn nearest(f: i32, q: u16) -> i16
    requires f { Within 8160 f }
    requires q { 8 ≤ q }
    ensures value { IsNearest f q fewest most result }
    ensures small { unsigned_abs result ≤ 580 }
{
    let c = quotient(f, q);
    if c < -MOST {
        -(MOST as i16)
    } else if c > MOST {
        MOST as i16
    } else {
        c as i16
    }
}
