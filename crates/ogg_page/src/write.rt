// Writing a page (RFC 3533, 6).
ghost use Rattle.std.specs.Prelude.{◌≡◌, ◌<◌, ◌≤◌, ◌+◌, ◌++◌, ◌∷◌, [], ℕ, List, OnOk, OnErr, Ok, length, vec_len, vec_capacity};
ghost use Rattle.ogg_page.specs.Page.{HasShape, page_at_front, ArePages, Page, bytes_of_page};
ghost use Rattle.ogg_page.specs.Written.{head_of, page_from, written_page};

use crate::PageHead;
use crate::crc::checksum_of_parts;
use crate::page::{CAPTURE, HEADER};
use byteorder::{ByteOrder, LittleEndian};
use vid_base::NoMem;

// The bytes before the lacing bytes, with 0 as the checksum.
fn header(head: &PageHead, count: u8) -> [u8; HEADER]
    ensures { result ≡ head_of head.now.flags head.now.granule head.now.serial head.now.number ++ (0 ∷ 0 ∷ 0 ∷ 0 ∷ count ∷ []) }
{
    let mut header = [0; HEADER];
    header[..4].copy_from_slice(&CAPTURE);
    header[5] = head.flags;
    LittleEndian::write_u64(&mut header[6..], head.granule);
    LittleEndian::write_u32(&mut header[14..], head.serial);
    LittleEndian::write_u32(&mut header[18..], head.number);
    header[26] = count;
    header
}

// The bytes before the lacing bytes, with the checksum of the whole page.
fn checked_header(head: &PageHead, lacing: &[u8], body: &[u8]) -> [u8; HEADER]
    requires { length lacing.now ≤ 255 }
    ensures { result ++ (lacing.now ++ body.now) ≡ written_page (page_from head.now lacing.now body.now) }
{
    let mut header = header(head, lacing.len() as u8);
    let sum = checksum_of_parts(&header, lacing, body);
    LittleEndian::write_u32(&mut header[22..], sum);
    header
}

// More bytes, for which there is room.
fn append(out: &mut Vec<u8>, bytes: &[u8])
    requires { vec_len out.old + length bytes.now ≤ vec_capacity out.old }
    ensures items { out.new.items ≡ out.old.items ++ bytes.now }
    ensures capacity { vec_capacity out.old ≤ vec_capacity out.new }
{
    let _ = out.extend_from_slice(bytes);
}

/// Appends the page with this head, these lacing bytes and this body. After `NoMem`, which comes only where there is no
/// room for it, `out` is as it was.
pub fn write_page(
    out: &mut Vec<u8>,
    head: &PageHead,
    lacing: &[u8],
    body: &[u8],
) -> Result<(), NoMem>
    requires flags { head.now.flags < 8 }
    requires shape { HasShape lacing.now body.now }
    ensures written { OnOk result (out.new.items ≡ out.old.items ++ written_page (page_from head.now lacing.now body.now)) }
    ensures memory { OnErr result (out.new.items ≡ out.old.items) }
    ensures full { OnErr result (vec_capacity out.old < vec_len out.old + bytes_of_page (page_from head.now lacing.now body.now)) }
    ensures capacity { vec_capacity out.old ≤ vec_capacity out.new }
    // Whatever bytes follow the page, it is read back.
    ensures reads_back { let page = page_from head.now lacing.now body.now in
        (rest : List ℕ) → page_at_front (written_page page ++ rest) ≡ Ok page }
    // Where out was a list of pages, it is one page more.
    ensures pages { let page = page_from head.now lacing.now body.now in
        OnOk result ((pages : List Page) → ArePages out.old.items pages → ArePages out.new.items (pages ++ page ∷ [])) }
{
    out.try_reserve(HEADER + lacing.len() + body.len())?;
    let header = checked_header(head, lacing, body);
    append(out, &header);
    append(out, lacing);
    append(out, body);
    Ok(())
}
