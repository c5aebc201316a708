// The numbers of an edit list (own).
ghost use Rattle.std.specs.Prelude.{◌≡◌, ◌≤◌, Some, None, IfSome, nat_le, if◌then◌else◌};
ghost use Rattle.std.specs.Char.{is_ascii_digit};
ghost use Rattle.std.specs.List.{list_all};
ghost use Rattle.cut_list.specs.Numbers.{decimal, is_numeral, number_of};

/// The greatest number of a list.
const GREATEST: u64 = 2_147_483_647;

// Whether a text has digits alone.
fn has_digits_alone(text: &[u8]) -> bool
    ensures { result ≡ list_all is_ascii_digit text.now }
{
    text.iter().all(|c| c.is_ascii_digit())
}

// Whether a field has digits alone, at least one, and no zero before another.
#[tactic(auto, unfolding(crate::specs::Numbers::is_numeral))]
fn is_numeral(field: &[u8]) -> bool
    ensures { result ≡ is_numeral field.now }
{
    if field.is_empty() || field.len() > 1 && field[0] == b'0' {
        return false;
    }
    has_digits_alone(field)
}

// The number that decimal digits write, unless it is too great.
fn decimal(digits: &[u8]) -> Option<u32>
    ensures value { result ≡ (if nat_le (decimal digits.now) 2147483647 then Some (decimal digits.now) else None) }
    ensures bound { IfSome result (λ value. value ≤ 2147483647) }
{
    let mut value = 0u64;
    for digit in digits {
        value = 10 * value + u64::from(digit.saturating_sub(b'0'));
        if value > GREATEST {
            return None;
        }
    }
    Some(value as u32)
}

/// The number that a field says: decimal digits without a leading zero but `0` itself, at most 2,147,483,647.
#[tactic(auto, unfolding(crate::specs::Numbers::number_of))]
pub fn read_number(field: &[u8]) -> Option<u32>
    ensures value { result ≡ number_of field.now }
{
    if is_numeral(field) {
        decimal(field)
    } else {
        None
    }
}
