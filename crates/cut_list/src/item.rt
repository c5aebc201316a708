// The items of an edit list (own).
ghost use Rattle.std.specs.Prelude.{◌≡◌, ◌≢◌, [], ◌∷◌, length, MatchOption};
ghost use Rattle.std.specs.Option.{option_map_or};
ghost use Rattle.cut_list.specs.Slices.{seen, slice_view};
ghost use Rattle.cut_list.specs.Items.{fields_of, item_of, slice_of};
ghost use Rattle.cut_list.specs.Numbers.{number_of};

use crate::fault::Why;
use crate::list::Slice;
use crate::number::read_number;
use crate::place::place_of;

/// The first field of every item.
const WORD: &[u8] = b"slice";

/// A field, and what stands behind the space after it, where there is one.
#[derive(Clone, Copy)]
struct Field<'a> {
    bytes: &'a [u8],
    rest: Option<&'a [u8]>,
}

/// The four fields of an item.
#[derive(Clone, Copy)]
struct Item<'a> {
    word: &'a [u8],
    src: &'a [u8],
    first: &'a [u8],
    past: &'a [u8],
}

// The first field of a line.
fn first_field(line: &[u8]) -> Field<'_>
    ensures { fields_of line.now ≡ result.bytes.now ∷ option_map_or (λ rest. fields_of rest.now) result.rest [] }
{
    match place_of(b' ', line) {
        Some(end) => Field {
            bytes: &line[..end],
            rest: Some(&line[end + 1..]),
        },
        None => Field {
            bytes: line,
            rest: None,
        },
    }
}

// The fields of a line that has four.
#[tactic(auto, using(crate::proofs::LineLemmas::some_field))]
fn four_fields(line: &[u8]) -> Option<Item<'_>>
    ensures fields { MatchOption result (length (fields_of line.now) ≢ 4)
        (λ item. fields_of line.now ≡ item.word.now ∷ item.src.now ∷ item.first.now ∷ item.past.now ∷ []) }
{
    let word = first_field(line);
    let src = first_field(word.rest?);
    let first = first_field(src.rest?);
    let past = first_field(first.rest?);
    match past.rest {
        Some(_) => None,
        None => Some(Item {
            word: word.bytes,
            src: src.bytes,
            first: first.bytes,
            past: past.bytes,
        }),
    }
}

// The slice that three fields of a line say.
#[tactic(auto, unfolding(crate::specs::Items::slice_of))]
fn slice(line: u32, item: &Item) -> Result<Slice, Why>
    ensures { seen slice_view result ≡ slice_of line (number_of item.now.src.now) (number_of item.now.first.now) (number_of item.now.past.now) }
{
    let src = read_number(item.src).ok_or(Why::Number)?;
    let first = read_number(item.first).ok_or(Why::Number)?;
    let past = read_number(item.past).ok_or(Why::Number)?;
    if first >= past {
        return Err(Why::EmptySlice);
    }
    Ok(Slice {
        line,
        src,
        first,
        past,
    })
}

/// The slice that a line says which is an item.
#[tactic(auto, unfolding(crate::specs::Items::item_of))]
pub(crate) fn read_item(line: u32, bytes: &[u8]) -> Result<Slice, Why>
    ensures value { seen slice_view result ≡ item_of line (fields_of bytes.now) }
{
    let item = four_fields(bytes).ok_or(Why::Word)?;
    if item.word != WORD {
        return Err(Why::Word);
    }
    slice(line, &item)
}
