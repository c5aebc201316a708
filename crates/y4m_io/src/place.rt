// Where a text is cut (own).
ghost use Rattle.std.specs.Prelude.{◌≡◌, ◌∷◌, [], length, IfSome, ◌<◌};
ghost use Rattle.std.specs.Option.{option_map_or};
ghost use Rattle.y4m_io.specs.Places.{first_place, parts_of};

/// A part of a text, and what stands behind the separator after it, where there is one.
#[derive(Clone, Copy)]
pub(crate) struct Part<'a> {
    pub(crate) bytes: &'a [u8],
    pub(crate) rest: Option<&'a [u8]>,
}

/// The place of the first byte that is `wanted`.
pub(crate) fn place_of(wanted: u8, bytes: &[u8]) -> Option<usize>
    ensures value { result ≡ first_place wanted bytes.now }
    ensures inside { IfSome result (λ at. at < length bytes.now) }
{
    bytes.iter().position(|c| *c == wanted)
}

/// The first part of a text.
pub(crate) fn first_part(separator: u8, text: &[u8]) -> Part<'_>
    ensures parts { parts_of separator text.now ≡ result.bytes.now ∷ option_map_or (λ rest. parts_of separator rest.now) result.rest [] }
    ensures shorter { IfSome result.rest (λ rest. length rest.now < length text.now) }
{
    match place_of(separator, text) {
        Some(end) => Part {
            bytes: &text[..end],
            rest: Some(&text[end + 1..]),
        },
        None => Part {
            bytes: text,
            rest: None,
        },
    }
}
