// The setup of streams that are made here (own).
ghost use Rattle.std.specs.Prelude.{◌≡◌, ℕ, ◌+◌, ◌*◌, ◌-◌, ◌/◌, ◌%◌, ◌<◌, IfOk, List};
ghost use Rattle.thr_huff.specs.Codes.{codes_at};
ghost use Rattle.thr_huff.specs.Rows.{IsFullRow};
ghost use Rattle.thr_quant.specs.Limits.{AreLimits};
ghost use Rattle.thr_setup.specs.Setup.{contents};
ghost use Rattle.thr_setup.specs.Import.{even_scales, import_limits, import_matrix, import_ramps, imported, one_range};
ghost use Rattle.thr_setup.specs.ImportTrees.{import_codes};

use crate::Setup;
use crate::trees::import_forest;
use arrayvec::ArrayVec;
use std::alloc::Global;
use thr_quant::{Limits, Ramps, Range, Ranges};
use vid_base::NoMem;

/// The last quantiser index.
const LAST: u8 = 63;

/// Limits of the loop filter: a third of the steps to the last index.
fn import_limits() -> Limits
    ensures { result.of ≡ import_limits }
{
    let mut of = [0; 64];
    for (qi, limit) in of.iter_mut().enumerate() {
        *limit = (LAST - qi as u8) / 3;
    }
    Limits { of }
}

/// Scales that fall by so much from one index to the next, to 10 at the last.
fn even_scales(step: u16) -> [u16; 64]
    requires { step < 16 }
    ensures { result ≡ even_scales step }
{
    let mut scales = [0; 64];
    for (qi, scale) in scales.iter_mut().enumerate() {
        *scale = 10 + step * (63 - qi as u16);
    }
    scales
}

/// A base matrix that rises by 4 in each row and in each column.
fn import_matrix() -> [u8; 64]
    ensures { result ≡ import_matrix }
{
    let mut matrix = [0; 64];
    for (k, value) in matrix.iter_mut().enumerate() {
        let (row, column) = (k as u8 / 8, k as u8 % 8);
        *value = 16 + 4 * (row + column);
    }
    matrix
}

/// One range over all indices, with base matrix 0 at both ends.
fn one_range() -> Ranges
    ensures { result ≡ one_range }
{
    let mut list = ArrayVec::new();
    list.push(Range {
        size: LAST,
        next: 0,
    });
    Ranges { start: 0, list }
}

/// Scales, one base matrix, and one range for each kind of block in each plane.
fn import_ramps(alloc: Global) -> Result<Ramps, NoMem>
    ensures { IfOk result (λ ramps. ramps ≡ import_ramps) }
{
    let mut matrices = Vec::new(alloc);
    matrices.push(import_matrix())?;
    Ok(Ramps {
        ac: even_scales(8),
        dc: even_scales(3),
        matrices,
        intra: [one_range(), one_range(), one_range()],
        inter: [one_range(), one_range(), one_range()],
    })
}

/// The setup of streams that are made here (own): limits of the loop filter, scales that fall evenly, one base matrix, and
/// trees that are the same in all five groups of places of coefficients. Each of its trees holds all tokens.
#[tactic(auto, using(crate::proofs::ImportLemmas::codes_at_import, crate::proofs::ImportLemmas::full_row_import))]
pub fn import_setup(alloc: Global) -> Result<Setup, NoMem>
    ensures value { IfOk result (λ setup. contents setup ≡ imported) }
    ensures codes { IfOk result (λ setup. (hti : ℕ) → hti < 80 → codes_at setup.forest hti ≡ import_codes (hti % 16)) }
    ensures full { IfOk result (λ setup. (number : ℕ) → number < 16 → IsFullRow setup.forest number) }
{
    Ok(Setup {
        limits: import_limits(),
        ramps: import_ramps(alloc)?,
        forest: import_forest(alloc)?,
    })
}
