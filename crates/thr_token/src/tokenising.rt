// The tokens of a frame's coefficients (Theora I, 7.7.3).
ghost use Rattle.std.specs.Prelude.{◌≡◌, ◌≢◌, ◌+◌, ◌*◌, ◌<◌, ◌≤◌, ℕ, pos, List, All, IfOk, OnOk, MatchOption, None, length, map, get_or, unsigned_abs};
ghost use Rattle.vid_geom.specs.CodedOrder.{order_of};
ghost use Rattle.thr_token.specs.declared.token.Token.{Token};
ghost use Rattle.thr_token.specs.Coefficients.{first_place};
ghost use Rattle.thr_token.specs.Standing.{lumas_of};
ghost use Rattle.thr_token.specs.Spellings.{IsSayable};
ghost use Rattle.thr_token.specs.Tokenised.{AreBlank, IsToken, Tells};
ghost use Rattle.thr_token.specs.Telling.{Answer, AreZeros, IsTrueOf, Telling, from_place, place_behind, said};
ghost use Rattle.thr_token.specs.Views.{as_meaning};

use crate::Coeffs;
use crate::adding::{add, close};
use crate::meaning::Meaning;
use crate::places::ENDED;
use crate::run::Run;
use crate::spelling::in_one;
use crate::token::Token;
use std::alloc::Global;
use vid_base::NoMem;
use vid_geom::Geom;

/// How many zeros a block has from the place on, if another value comes behind them.
fn zeros_before(block: &[i16; 64], place: u8) -> Option<u8>
    requires { place < 64 }
    ensures { MatchOption result (AreZeros block.now place 64)
        (λ zeros. (place + zeros < 64) × AreZeros block.now place (place + zeros) × (get_or block.now (place + zeros) (pos 0) ≢ pos 0)) }
{
    'places: for at in place..ENDED {
        if block[usize::from(at)] != 0 {
            return Some(at - place);
        }
    }
    None
}

/// What is said next of a block at the place.
fn next_meaning(block: &[i16; 64], place: u8) -> Meaning
    requires place { place < 64 }
    requires values { All (λ v. unsigned_abs v ≤ 580) block.now }
    ensures sayable { IsSayable (as_meaning result) }
    ensures right { IsTrueOf block.now place (as_meaning result) }
    ensures size { length block.now ≡ 64 }
{
    match zeros_before(block, place) {
        None => Meaning::EndRun(1),
        Some(zeros) => {
            let value = block[usize::from(place + zeros)];
            let zeros = u32::from(zeros);
            if in_one(zeros, u32::from(value.unsigned_abs())) {
                Meaning::Value { zeros, value }
            } else {
                Meaning::ZeroRun(zeros)
            }
        }
    }
}

/// Where a block at the place stands behind what is said of it.
fn place_behind(place: u8, meaning: Meaning) -> u8
    requires { place_behind place (as_meaning meaning) ≤ 64 }
    ensures { result ≡ place_behind place (as_meaning meaning) }
{
    match meaning {
        Meaning::EndRun(_) => ENDED,
        Meaning::ZeroRun(zeros) => place + zeros as u8,
        Meaning::Value { zeros, .. } => place + zeros as u8 + 1,
    }
}

/// The tokens of the blocks at one place, and the run that is held back then. `work` has the place of each block.
fn at_place(
    tokens: &mut Vec<Token>,
    held: Option<Run>,
    place: u8,
    geom: &Geom,
    values: &[[i16; 64]],
    work: &mut [u8],
) -> Result<Option<Run>, NoMem>
    requires place { place < 64 }
    requires values { length values.now ≡ length (order_of geom.now) }
    requires small { All (All (λ v. unsigned_abs v ≤ 580)) values.now }
    requires work { length work.old ≡ length (order_of geom.now) }
    requires low { All (λ p. place ≤ p) work.old }
    ensures told { IfOk result (λ run. (whole : List Token → Answer) →
        Telling whole (from_place place) (lumas_of geom.now) values.now work.old tokens.old.items held →
        Telling whole (from_place (place + 1)) (lumas_of geom.now) values.now work.new tokens.new.items run) }
    ensures few { IfOk result (λ run. said tokens.new.items run ≤ said tokens.old.items held + length (order_of geom.now)) }
    ensures low { OnOk result (All (λ p. place < p) work.new) }
    ensures tokens { OnOk result (All IsToken tokens.old.items → All IsToken tokens.new.items) }
{
    let mut run = held;
    'order: for b in 0..geom.blocks() {
        let i = b as usize;
        if work[i] == place {
            let meaning = next_meaning(&values[i], place);
            run = add(tokens, run, place, geom.at(b).pli == 0, meaning)?;
            work[i] = place_behind(place, meaning);
        }
    }
    Ok(run)
}

/// The tokens of all blocks, and the run that is held back at the end.
fn all_places(
    tokens: &mut Vec<Token>,
    geom: &Geom,
    values: &[[i16; 64]],
    work: &mut [u8],
) -> Result<Option<Run>, NoMem>
    requires values { length values.now ≡ length (order_of geom.now) }
    requires small { All (All (λ v. unsigned_abs v ≤ 580)) values.now }
    requires work { length work.old ≡ length (order_of geom.now) }
    ensures told { IfOk result (λ run. (whole : List Token → Answer) →
        Telling whole (from_place 0) (lumas_of geom.now) values.now work.old tokens.old.items None →
        Telling whole (from_place 64) (lumas_of geom.now) values.now work.new tokens.new.items run) }
    ensures few { IfOk result (λ run. said tokens.new.items run ≤ length tokens.old.items + 64 * length (order_of geom.now)) }
    ensures low { OnOk result (All (λ p. 64 ≤ p) work.new) }
    ensures tokens { OnOk result (All IsToken tokens.old.items → All IsToken tokens.new.items) }
{
    let mut run = None;
    'places: for place in 0..ENDED {
        run = at_place(tokens, run, place, geom, values, work)?;
    }
    Ok(run)
}

/// Where the blocks stand before their first tokens.
fn first_places(alloc: Global, flags: &[bool]) -> Result<Vec<u8>, NoMem>
    ensures { IfOk result (λ work. work.items ≡ map first_place flags.now) }
{
    let mut work = Vec::with_capacity(alloc, flags.len())?;
    'flags: for coded in flags {
        work.push(if *coded { 0 } else { ENDED })?;
    }
    Ok(work)
}

/// The tokens of a frame's coefficients, in the order in which they are read: place by place, and at each place the coded
/// blocks that stand there in coded order (Theora I, 7.7.3). End-of-block runs go on from place to place, and each is
/// joined up to 4,095 blocks. There is an entry for each block in the flags and in the values, each value is within -580 to
/// 580, and a block that is not coded has only zeros. The counts are not read.
pub fn tokenise(
    alloc: Global,
    geom: &Geom,
    flags: &[bool],
    coeffs: &Coeffs,
) -> Result<Vec<Token>, NoMem>
    requires flags { length flags.now ≡ length (order_of geom.now) }
    requires values { length coeffs.now.values.items ≡ length (order_of geom.now) }
    requires small { All (All (λ v. unsigned_abs v ≤ 580)) coeffs.now.values.items }
    requires blank { AreBlank flags.now coeffs.now.values.items }
    ensures tells { IfOk result (λ tokens. (counts : List ℕ) × Tells geom.now flags.now (coeffs.now.values.items, counts) tokens.items) }
    ensures tokens { IfOk result (λ tokens. All IsToken tokens.items) }
    ensures few { IfOk result (λ tokens. length tokens.items ≤ 64 * length (order_of geom.now)) }
{
    let mut work = first_places(alloc, flags)?;
    let mut tokens = Vec::new(alloc);
    let run = all_places(&mut tokens, geom, &coeffs.values, &mut work)?;
    close(&mut tokens, run)?;
    Ok(tokens)
}
