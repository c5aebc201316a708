// Pages that are read again (own).
ghost use Rattle.std.specs.Prelude.{◌≡◌, ◌<◌, ◌≤◌, length};
ghost use Rattle.ogg_page.specs.Page.{number_at};
ghost use Rattle.src_index.specs.SamePage.{same_page as same_page_of};

use byteorder::{ByteOrder, LittleEndian};
use ogg_page::read_page;

/// The checksum field of a page (RFC 3533, 6), which is bytes 22 to 25.
pub(crate) fn checksum_field(page: &[u8]) -> u32
    requires { 27 ≤ length page.now }
    ensures { result ≡ number_at 4 22 page.now }
{
    LittleEndian::read_u32(&page[22..26])
}

/// Whether the bytes begin with a page that has no fault, and this checksum field and these lacing values. It takes no memory.
pub fn same_page(bytes: &[u8], checksum: u32, lacing: &[u8]) -> bool
    requires { 0 < length bytes.now }
    ensures { result ≡ same_page_of bytes.now checksum lacing.now }
{
    match read_page(bytes, 0) {
        Ok(page) => checksum_field(bytes) == checksum && page.lacing == lacing,
        Err(_) => false,
    }
}
