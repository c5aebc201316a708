// Tokens are added to a list, with the end-of-block run that is held back (own).
ghost use Rattle.std.specs.Prelude.{◌≡◌, ◌+◌, ◌<◌, ◌≤◌, ℕ, List, length, All, IfOk, OnOk, None, Some};
ghost use Rattle.thr_token.specs.declared.token.Token.{Token};
ghost use Rattle.thr_token.specs.Tokenised.{IsToken};
ghost use Rattle.thr_token.specs.Spellings.{IsSayable};
ghost use Rattle.thr_token.specs.Telling.{Adds, Answer, Ends, Steps, Told, said};
ghost use Rattle.thr_token.specs.Views.{as_meaning};

use crate::meaning::Meaning;
use crate::run::Run;
use crate::spelling::{LONGEST_RUN, Spelling, spell};
use crate::token::Token;
use vid_base::NoMem;

/// A token with this meaning for a block at the place.
fn push(tokens: &mut Vec<Token>, place: u8, luma: bool, meaning: Meaning) -> Result<(), NoMem>
    requires place { place < 64 }
    requires meaning { IsSayable (as_meaning meaning) }
    ensures adds { OnOk result (Adds place luma (as_meaning meaning) tokens.old.items tokens.new.items) }
    ensures few { OnOk result (length tokens.new.items ≡ length tokens.old.items + 1) }
{
    let Spelling { token, extra } = spell(meaning);
    tokens.push(Token {
        place,
        luma,
        token,
        extra,
    })?;
    Ok(())
}

/// The token of the run that was held back, if there is one.
pub(crate) fn close(tokens: &mut Vec<Token>, run: Option<Run>) -> Result<(), NoMem>
    ensures told { OnOk result ((whole : List Token → Answer) (rest : ℕ → List Token → Answer) →
        Told whole rest tokens.old.items run → Told whole rest tokens.new.items None) }
    ensures tokens { OnOk result (All IsToken tokens.old.items → All IsToken tokens.new.items) }
    ensures few { OnOk result (length tokens.new.items ≡ said tokens.old.items run) }
{
    match run {
        None => Ok(()),
        Some(run) => push(tokens, run.place, run.luma, Meaning::EndRun(run.blocks)),
    }
}

/// The end of a block at the place.
fn end(tokens: &mut Vec<Token>, run: Option<Run>, place: u8, luma: bool) -> Result<Run, NoMem>
    requires { place < 64 }
    ensures told { IfOk result (λ longer. (whole : List Token → Answer) (rest next : ℕ → List Token → Answer) → Ends place luma rest next →
        Told whole rest tokens.old.items run → Told whole next tokens.new.items (Some longer)) }
    ensures tokens { OnOk result (All IsToken tokens.old.items → All IsToken tokens.new.items) }
    ensures few { OnOk result (length tokens.new.items ≤ said tokens.old.items run) }
{
    match run {
        Some(run) if run.blocks < LONGEST_RUN => Ok(Run {
            place: run.place,
            luma: run.luma,
            blocks: run.blocks + 1,
        }),
        _ => {
            close(tokens, run)?;
            Ok(Run {
                place,
                luma,
                blocks: 1,
            })
        }
    }
}

/// What is said of a block at the place, and the run that is held back then.
pub(crate) fn add(
    tokens: &mut Vec<Token>,
    run: Option<Run>,
    place: u8,
    luma: bool,
    meaning: Meaning,
) -> Result<Option<Run>, NoMem>
    requires place { place < 64 }
    requires meaning { IsSayable (as_meaning meaning) }
    ensures told { IfOk result (λ held. (whole : List Token → Answer) (rest next : ℕ → List Token → Answer) → Steps place luma (as_meaning meaning) rest next →
        Told whole rest tokens.old.items run → Told whole next tokens.new.items held) }
    ensures tokens { OnOk result (All IsToken tokens.old.items → All IsToken tokens.new.items) }
    ensures few { IfOk result (λ held. said tokens.new.items held ≤ said tokens.old.items run + 1) }
{
    match meaning {
        Meaning::EndRun(_) => Ok(Some(end(tokens, run, place, luma)?)),
        _ => {
            close(tokens, run)?;
            push(tokens, place, luma, meaning)?;
            Ok(None)
        }
    }
}
