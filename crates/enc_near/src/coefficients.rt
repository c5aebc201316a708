// The coefficients of a block (own).
ghost use Rattle.std.specs.Prelude.{◌≡◌, ◌<◌, All, get_or};
ghost use Rattle.thr_dct.specs.Line.{Within};
ghost use Rattle.enc_near.specs.Made.{AreEntries, AreMade, natural};

use crate::quotient::{first_quotient, nearest};
use crate::tables::NATURAL;

// The place in natural order of a place of the zigzag order.
fn natural(z: usize) -> usize
    requires { z < 64 }
    ensures value { result ≡ get_or natural z 0 }
    ensures below { result < 64 }
{
    usize::from(NATURAL[z])
}

/// The coefficients in zigzag order: each the nearest of those that a token holds, and the first the quotient to the nearest
/// whole number. What they are to be times their entries is given in natural order, as the entries are.
pub(crate) fn coefficients(wanted: &[i32; 64], matrix: &[u16; 64]) -> [i16; 64]
    requires bounds { All (Within 8160) wanted.now }
    requires entries { AreEntries matrix.now }
    ensures { AreMade wanted.now matrix.now result }
{
    let mut out = [0; 64];
    out[0] = first_quotient(wanted[0], matrix[0]);
    for z in 1..64usize {
        let k = natural(z);
        out[z] = nearest(wanted[k], matrix[k]);
    }
    out
}
