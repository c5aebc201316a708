// The lines of an edit list (own).
ghost use Rattle.std.specs.Prelude.{◌≡◌, ◌<◌, ◌≤◌, ◌∷◌, length, OnOk};
ghost use Rattle.std.specs.Option.{option_map};
ghost use Rattle.cut_list.specs.Slices.{seen, slice_view};
ghost use Rattle.cut_list.specs.EditList.{line_of, lines_of};

use crate::fault::Why;
use crate::item::read_item;
use crate::list::Slice;
use crate::place::place_of;

/// How many lines a list has at most.
const LINES: u32 = 10_000;

/// A line without its line feed, and the text behind it.
#[derive(Clone, Copy)]
pub(crate) struct Line<'a> {
    pub(crate) bytes: &'a [u8],
    pub(crate) behind: &'a [u8],
}

/// The first line of a text.
pub(crate) fn first_line(text: &[u8]) -> Line<'_>
    requires { 0 < length text.now }
    ensures lines { lines_of text.now ≡ result.bytes.now ∷ lines_of result.behind.now }
    ensures shorter { length result.behind.now < length text.now }
{
    match place_of(b'\n', text) {
        Some(end) => Line {
            bytes: &text[..end],
            behind: &text[end + 1..],
        },
        None => Line {
            bytes: text,
            behind: &[],
        },
    }
}

/// What a line behind the head says: a slice, nothing, or why it is bad.
#[tactic(auto, unfolding(crate::specs::EditList::line_of))]
pub(crate) fn read_line(line: u32, bytes: &[u8]) -> Result<Option<Slice>, Why>
    ensures value { seen (option_map slice_view) result ≡ line_of line bytes.now }
    ensures few { OnOk result (line ≤ 10000) }
{
    if line > LINES {
        return Err(Why::TooMany);
    }
    match bytes {
        [] | [b'#', ..] => Ok(None),
        item => Ok(Some(read_item(line, item)?)),
    }
}
