// The tokens of a frame are written (Theora I, 7.7.3).
ghost use Rattle.std.specs.Prelude.{◌≡◌, ◌+◌, ◌*◌, ◌<◌, ◌≤◌, ◌++◌, ℕ, length, ℤ, Bool, List, All, IsSome, OnErr, OnOk};
ghost use Rattle.vid_base.specs.declared.shape.Shape.{Shape};
ghost use Rattle.vid_base.specs.Writing.{Grows, ReadsBack};
ghost use Rattle.thr_token.specs.Coefficients.{coefficients};
ghost use Rattle.thr_token.specs.Tokenised.{IsToken, Tells};
ghost use Rattle.thr_token.specs.WrittenTokens.{IsHeld, code_for, codes_in, in_part, numbers_code, numbers_of, part_code, token_code, tokens_code, tokens_in};
ghost use Rattle.thr_token.specs.Views.{as_numbers, as_part};

use crate::meaning::further_bits;
use crate::token::{Tables, Token};
use crate::trees::TableNumbers;
use thr_huff::Forest;
use vid_base::{BitWriter, NoMem};

/// The two parts of a frame's tokens, each with tables of its own.
#[derive(Clone, Copy)]
pub(crate) enum Part {
    /// Those of place 0.
    Dc,
    /// Those of the other places.
    Ac,
}

impl Part {
    /// Whether the tokens of a place belong to the part.
    fn has(self, place: u8) -> bool
        ensures { result ≡ in_part (as_part self) place }
    {
        match self {
            Part::Dc => place == 0,
            Part::Ac => place != 0,
        }
    }
}

impl Tables {
    /// The tables of a part.
    pub(crate) fn of(&self, part: Part) -> TableNumbers
        ensures { as_numbers result ≡ numbers_of self.now (as_part part) }
    {
        match part {
            Part::Dc => TableNumbers {
                luma: self.luma_dc,
                chroma: self.chroma_dc,
            },
            Part::Ac => TableNumbers {
                luma: self.luma_ac,
                chroma: self.chroma_ac,
            },
        }
    }
}

/// Adds the numbers of two tables.
#[tactic(auto, unfolding(crate::specs::WrittenTokens::numbers_code))]
fn write_numbers(w: &mut BitWriter, numbers: TableNumbers) -> Result<(), NoMem>
    requires luma { numbers.luma < 16 }
    requires chroma { numbers.chroma < 16 }
    ensures written { OnOk result (w.new ≡ w.old ++ numbers_code (as_numbers numbers)) }
    ensures few { OnOk result (length w.new ≡ length w.old + 8) }
    ensures memory { OnErr result (Grows w.old w.new) }
{
    w.put(u32::from(numbers.luma), 4)?;
    w.put(u32::from(numbers.chroma), 4)
}

/// Adds the code of a token and its further bits.
#[tactic(auto, unfolding(crate::specs::WrittenTokens::token_code))]
fn write_token(
    w: &mut BitWriter,
    forest: &Forest,
    numbers: TableNumbers,
    token: Token,
) -> Result<(), NoMem>
    requires luma { numbers.luma < 16 }
    requires chroma { numbers.chroma < 16 }
    requires token { IsToken token }
    requires held { IsSome (code_for forest.now (as_numbers numbers) token) }
    ensures written { OnOk result (w.new ≡ w.old ++ token_code forest.now (as_numbers numbers) token) }
    ensures few { OnOk result (length w.new ≤ length w.old + 44) }
    ensures memory { OnErr result (Grows w.old w.new) }
{
    match forest.code(numbers.tree_of(token.place, token.luma), token.token) {
        Some(code) => {
            w.put(code.bits, u32::from(code.len))?;
            w.put(token.extra, further_bits(token.token))
        }
        None => unreachable!(),
    }
}

/// Adds the codes of the tokens of a part.
fn write_codes(
    w: &mut BitWriter,
    tokens: &[Token],
    forest: &Forest,
    tables: &Tables,
    part: Part,
) -> Result<(), NoMem>
    requires luma { (numbers_of tables.now (as_part part)).luma < 16 }
    requires chroma { (numbers_of tables.now (as_part part)).chroma < 16 }
    requires tokens { All IsToken tokens.now }
    requires held { All (IsHeld forest.now tables.now) tokens.now }
    ensures written { OnOk result (w.new ≡ w.old ++ codes_in forest.now tables.now (as_part part) tokens.now) }
    ensures few { OnOk result (length w.new ≤ length w.old + 44 * tokens_in (as_part part) tokens.now) }
    ensures memory { OnErr result (Grows w.old w.new) }
{
    let numbers = tables.of(part);
    'tokens: for token in tokens {
        if part.has(token.place) {
            write_token(w, forest, numbers, *token)?;
        }
    }
    Ok(())
}

/// Adds the numbers of the tables of a part and its tokens.
#[tactic(auto, unfolding(crate::specs::WrittenTokens::part_code))]
fn write_part(
    w: &mut BitWriter,
    tokens: &[Token],
    forest: &Forest,
    tables: &Tables,
    part: Part,
) -> Result<(), NoMem>
    requires luma { (numbers_of tables.now (as_part part)).luma < 16 }
    requires chroma { (numbers_of tables.now (as_part part)).chroma < 16 }
    requires tokens { All IsToken tokens.now }
    requires held { All (IsHeld forest.now tables.now) tokens.now }
    ensures written { OnOk result (w.new ≡ w.old ++ part_code forest.now tables.now (as_part part) tokens.now) }
    ensures few { OnOk result (length w.new ≤ length w.old + 8 + 44 * tokens_in (as_part part) tokens.now) }
    ensures memory { OnErr result (Grows w.old w.new) }
{
    write_numbers(w, tables.of(part))?;
    write_codes(w, tokens, forest, tables, part)
}

/// Adds the numbers of the tables of place 0 and the tokens of that place, and then the numbers of the tables of the other
/// places and their tokens: of each the first code in the tree of its block, and its further bits (Theora I, 7.7.3). Each
/// table number is below 16, and the trees that the tables name hold the tokens. After `NoMem` the bits that were there are
/// followed by others.
#[tactic(auto, unfolding(crate::specs::WrittenTokens::tokens_code))]
pub fn write_tokens(
    w: &mut BitWriter,
    tokens: &[Token],
    forest: &Forest,
    tables: &Tables,
) -> Result<(), NoMem>
    requires dc { (tables.now.luma_dc < 16) × (tables.now.chroma_dc < 16) }
    requires ac { (tables.now.luma_ac < 16) × (tables.now.chroma_ac < 16) }
    requires tokens { All IsToken tokens.now }
    requires held { All (IsHeld forest.now tables.now) tokens.now }
    ensures written { OnOk result (w.new ≡ w.old ++ tokens_code forest.now tables.now tokens.now) }
    ensures few { OnOk result (length w.new ≤ length w.old + 16 + 44 * length tokens.now) }
    ensures reads_back { OnOk result ((s : Shape) (flags : List Bool) (results : List (List ℤ) × List ℕ) →
        Tells s flags results tokens.now → ReadsBack (coefficients forest.now s flags) results w.old w.new) }
    ensures memory { OnErr result (Grows w.old w.new) }
{
    write_part(w, tokens, forest, tables, Part::Dc)?;
    write_part(w, tokens, forest, tables, Part::Ac)
}
