// Reading a page (RFC 3533, 6).
ghost use Rattle.std.specs.Prelude.{◌≡◌, ◌<◌, ◌≤◌, ◌+◌, ◌*◌, ℕ, List, length, take, drop, sum, IfOk};
ghost use Rattle.ogg_page.specs.Page.{GivesPage, page_at_front, HasShape, bytes_of_page, view, Opens, capture};
ghost use Rattle.ogg_page.specs.Written.{written_page};

use crate::page::{CAPTURE, HEADER};
use crate::{PageFault, PageRef, checksum};
use byteorder::{ByteOrder, LittleEndian};

// The sum of lacing bytes, which is the length of the body.
pub(crate) fn total(lacing: &[u8]) -> usize
    requires { length lacing.now ≤ 255 }
    ensures sum { result ≡ sum lacing.now }
    ensures bound { result ≤ 255 * 255 }
{
    let mut total = 0usize;
    for size in lacing {
        total += usize::from(*size);
    }
    total
}

// The page at the front.
#[tactic(auto, unfolding(crate::specs::Page::page_at_front))]
fn front_page(bytes: &[u8]) -> Result<PageRef<'_>, PageFault>
    ensures page { GivesPage result (page_at_front bytes.now) }
    ensures shape { IfOk result (λ page. HasShape page.lacing.now page.body.now) }
    ensures fits { IfOk result (λ page. bytes_of_page (view page) ≤ length bytes.now) }
{
    let seen = bytes.len().min(4);
    if bytes[..seen] != CAPTURE[..seen] {
        return Err(PageFault::NotAPage);
    }
    if bytes.len() > 4 && bytes[4] != 0 {
        return Err(PageFault::PageVersion);
    }
    if bytes.len() < HEADER {
        return Err(PageFault::Truncated);
    }
    let count = usize::from(bytes[26]);
    if bytes.len() < HEADER + count {
        return Err(PageFault::Truncated);
    }
    let lacing = &bytes[HEADER..HEADER + count];
    let size = HEADER + count + total(lacing);
    if bytes.len() < size {
        return Err(PageFault::Truncated);
    }
    if LittleEndian::read_u32(&bytes[22..26]) != checksum(&bytes[..size]) {
        return Err(PageFault::Checksum);
    }
    Ok(PageRef {
        flags: bytes[5],
        granule: LittleEndian::read_u64(&bytes[6..14]),
        serial: LittleEndian::read_u32(&bytes[14..18]),
        number: LittleEndian::read_u32(&bytes[18..22]),
        lacing,
        body: &bytes[HEADER + count..size],
    })
}

/// The page that begins at byte `at`, or the first of its faults: `NotAPage`, `PageVersion`, `Truncated`, `Checksum`.
pub fn read_page(bytes: &[u8], at: usize) -> Result<PageRef<'_>, PageFault>
    requires { at < length bytes.now }
    ensures page { GivesPage result (page_at_front (drop at bytes.now)) }
    ensures shape { IfOk result (λ page. HasShape page.lacing.now page.body.now) }
    ensures fits { IfOk result (λ page. at + bytes_of_page (view page) ≤ length bytes.now) }
    ensures begins { IfOk result (λ page. take 4 (drop at bytes.now) ≡ capture) }
    // What stands there is what is written for these fields, the checksum with them.
    ensures written { IfOk result (λ page. take (bytes_of_page (view page)) (drop at bytes.now) ≡ written_page (view page)) }
{
    front_page(&bytes[at..])
}

/// The page at the front of all bytes that begin with this window, or the first of its faults: the window has as many
/// bytes as the largest page takes, 65,307, or it is all that is left.
pub fn read_window(window: &[u8]) -> Result<PageRef<'_>, PageFault>
    ensures page { (bytes : List ℕ) → Opens window.now bytes → GivesPage result (page_at_front bytes) }
    ensures shape { IfOk result (λ page. HasShape page.lacing.now page.body.now) }
    ensures fits { IfOk result (λ page. bytes_of_page (view page) ≤ length window.now) }
    ensures begins { IfOk result (λ page. take 4 window.now ≡ capture) }
    ensures written { IfOk result (λ page. take (bytes_of_page (view page)) window.now ≡ written_page (view page)) }
{
    front_page(window)
}
