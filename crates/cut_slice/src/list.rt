// An edit list of one slice (own).
ghost use Rattle.std.specs.Prelude.{◌≡◌, ◌<◌, ◌≤◌, length, Some, None, IfSome, take_while, nat_le, if◌then◌else◌};
ghost use Rattle.std.specs.Option.{option_map};
ghost use Rattle.std.specs.Char.{is_ascii_digit};
ghost use Rattle.cut_slice.specs.SliceList.{behind, number_of, slice_of, decimal};
ghost use Rattle.cut_slice.specs.Slices.{slice_view};

/// The frames `first` to `past` - 1 of the source.
#[derive(Clone, Copy, Debug, PartialEq, Eq)]
pub(crate) struct Slice {
    pub(crate) first: u32,
    pub(crate) past: u32,
}

/// A number and the text behind it.
#[derive(Clone, Copy)]
struct Number<'a> {
    value: u32,
    rest: &'a [u8],
}

/// The greatest number of a list.
const GREATEST: u64 = 2_147_483_647;

// The text behind these characters.
#[tactic(auto, unfolding(crate::specs::SliceList::behind))]
fn behind<'a>(characters: &[u8], text: &'a [u8]) -> Option<&'a [u8]>
    ensures { option_map (λ rest. rest.now) result ≡ behind characters.now text.now }
{
    let count = characters.len();
    if text.len() < count || &text[..count] != characters {
        return None;
    }
    Some(&text[count..])
}

// The number that decimal digits write, unless it is too great.
fn decimal(digits: &[u8]) -> Option<u32>
    ensures value { result ≡ (if nat_le (decimal digits.now) 2147483647 then Some (decimal digits.now) else None) }
    ensures bound { IfSome result (λ value. value ≤ 2147483647) }
{
    let mut value = 0u64;
    for digit in digits {
        value = 10 * value + u64::from(digit.saturating_sub(b'0'));
        if value > GREATEST {
            return None;
        }
    }
    Some(value as u32)
}

// How many digits stand at the front of a text.
fn digits_at_front(text: &[u8]) -> usize
    ensures count { result ≡ length (take_while is_ascii_digit text.now) }
    ensures bound { result ≤ length text.now }
{
    text.iter().take_while(|c| c.is_ascii_digit()).count()
}

// The number at the front of a text.
#[tactic(auto, unfolding(crate::specs::SliceList::number_of))]
fn read_number(text: &[u8]) -> Option<Number<'_>>
    ensures number { option_map (λ n. record { 0 = n.value; 1 = n.rest.now }) result ≡ number_of text.now }
    ensures bound { IfSome result (λ n. n.value ≤ 2147483647) }
{
    let count = digits_at_front(text);
    let digits = &text[..count];
    if digits.is_empty() || digits.len() > 1 && digits[0] == b'0' {
        return None;
    }
    let value = decimal(digits)?;
    Some(Number {
        value,
        rest: &text[count..],
    })
}

/// The slice of a list that has the form of one slice.
#[tactic(auto, unfolding(crate::specs::SliceList::slice_of))]
pub(crate) fn read_slice(text: &[u8]) -> Option<Slice>
    ensures slice { option_map slice_view result ≡ slice_of text.now }
    ensures bounds { IfSome result (λ slice. (slice.first < slice.past) × (slice.past ≤ 2147483647)) }
{
    let line = behind(b"oggcut 1", text)?;
    let item = behind(b"\nslice 1 ", line)?;
    let first = read_number(item)?;
    let between = behind(b" ", first.rest)?;
    let past = read_number(between)?;
    let rest = behind(b"\n", past.rest)?;
    if !rest.is_empty() || first.value >= past.value {
        return None;
    }
    Some(Slice {
        first: first.value,
        past: past.value,
    })
}
