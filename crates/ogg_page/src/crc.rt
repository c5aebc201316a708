// The checksum of a page (RFC 3533, 6).
ghost use Rattle.std.specs.Prelude.{◌≡◌, ◌<◌, ◌≤◌, ◌++◌, ◌∷◌, [], length};
ghost use Rattle.std.specs.List.{concat};
ghost use Rattle.ogg_page.specs.Division.{checksum_of, GoesOn, blanked, zero_bytes};

use crate::page::HEADER;
use crate::table::TABLES;

// What is left of a byte with this many bytes of 0 behind it.
#[inline]
fn left_of(byte: u8, behind: usize) -> u32
    requires { behind < 8 }
    ensures { GoesOn 0 (byte ∷ zero_bytes behind) result }
{
    TABLES[behind][usize::from(byte)]
}

// The remainder behind one more byte.
fn after_byte(crc: u32, byte: u8) -> u32
    ensures { GoesOn crc (byte ∷ []) result }
{
    (crc << 8) ^ TABLES[0][((crc >> 24) ^ u32::from(byte)) as usize]
}

// The remainder behind eight more bytes: it goes into the first four, and what is left of each is looked up at once.
fn after_eight(crc: u32, bytes: &[u8; 8]) -> u32
    ensures { GoesOn crc bytes.now result }
{
    let [a, b, c, d, e, f, g, h] = *bytes;
    let [a, b, c, d] = (crc ^ u32::from_be_bytes([a, b, c, d])).to_be_bytes();
    let last = left_of(h, 0) ^ left_of(g, 1) ^ left_of(f, 2) ^ left_of(e, 3);
    last ^ left_of(d, 4) ^ left_of(c, 5) ^ left_of(b, 6) ^ left_of(a, 7)
}

// The remainder behind more bytes, eight a step.
fn after_eights(crc: u32, eights: &[[u8; 8]]) -> u32
    ensures { GoesOn crc (concat eights.now) result }
{
    let mut crc = crc;
    'eights: for eight in eights {
        crc = after_eight(crc, eight);
    }
    crc
}

// The remainder behind more bytes, one a step.
fn after_bytes(crc: u32, bytes: &[u8]) -> u32
    ensures { GoesOn crc bytes.now result }
{
    let mut crc = crc;
    'bytes: for byte in bytes {
        crc = after_byte(crc, *byte);
    }
    crc
}

// The remainder behind more bytes.
fn after(crc: u32, bytes: &[u8]) -> u32
    ensures { GoesOn crc bytes.now result }
{
    let (eights, rest) = bytes.as_chunks::<8>();
    after_bytes(after_eights(crc, eights), rest)
}

// The remainder behind bytes that begin with a page's header, whose checksum field counts as 0.
fn from_header(page: &[u8]) -> u32
    requires { 26 ≤ length page.now }
    ensures { GoesOn 0 (blanked page.now) result }
{
    after(after(after(0, &page[..22]), &[0; 4]), &page[26..])
}

/// The checksum of a page, with its own field, bytes 22 to 25, taken as 0.
pub fn checksum(page: &[u8]) -> u32
    requires { 27 ≤ length page.now }
    ensures { result ≡ checksum_of page.now }
{
    from_header(page)
}

// The checksum of a page that is not yet put together.
pub(crate) fn checksum_of_parts(header: &[u8; HEADER], lacing: &[u8], body: &[u8]) -> u32
    ensures { result ≡ checksum_of (header.now ++ (lacing.now ++ body.now)) }
{
    after(after(from_header(header), lacing), body)
}
