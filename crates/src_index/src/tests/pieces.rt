// Pages that are cut by the end of a piece, and false pages. A piece has 65,307 bytes, and the first frame's page begins with
// byte 2,619.
use super::again::packet_is;
use super::{COMMENT, IDENT, KEY, add_page, file_of, holds, key_frame, setup_packet, source_of};
use ogg_page::PageHead;
use std::alloc::Global;
use std::process::Abort;

// Where the body of the first frame's page begins, where that has 251 lacing values.
const BODY: usize = 2_619 + 27 + 251;

// Whether a page is read whole that begins so many bytes before the end of the first piece.
fn is_read_before(rt: &impl Abort, alloc: Global, setup: &[u8], before: usize) -> bool {
    assert!(rt; before < 28);
    let frame = key_frame(rt, alloc, 62_416 - before);
    let frames: [super::Frame; 2] = [(64, &frame), (128, KEY)];
    let bytes = file_of(rt, alloc, &IDENT, COMMENT, setup, &frames);
    assert!(rt; bytes.len() == 65_307 - before + 33);
    packet_is(rt, alloc, &bytes, 1, KEY)
}

// A file that is longer than a piece by one byte.
fn is_read_behind(rt: &impl Abort, alloc: Global, setup: &[u8]) -> bool {
    let frame = key_frame(rt, alloc, 62_417);
    let bytes = file_of(rt, alloc, &IDENT, COMMENT, setup, &[(64, &frame)]);
    assert!(rt; bytes.len() == 65_308);
    packet_is(rt, alloc, &bytes, 0, &frame)
}

#[test]
fn a_page_is_read_wherever_a_piece_ends(rt: HostRuntime) {
    let setup = setup_packet(&rt, rt.alloc());
    for before in 0..28usize {
        let so = is_read_before(&rt, rt.alloc(), &setup, before);
        holds(&rt, so, &before);
    }
    assert!(rt; is_read_behind(&rt, rt.alloc(), &setup));
}

// Whether a file is seekable, of which the one frame has 64,000 bytes and holds others from a byte on.
fn is_seekable(rt: &impl Abort, alloc: Global, setup: &[u8], held: &[u8], at: usize) -> bool {
    let mut frame = key_frame(rt, alloc, 64_000);
    assert!(rt; held.len() <= 64_000 && at <= 64_000 - held.len());
    frame[at..at + held.len()].copy_from_slice(held);
    let bytes = file_of(rt, alloc, &IDENT, COMMENT, setup, &[(64, &frame)]);
    source_of(rt, alloc, &bytes).seekable()
}

#[test]
fn a_whole_page_inside_another_is_a_false_one(rt: HostRuntime) {
    let alloc = rt.alloc();
    let setup = setup_packet(&rt, alloc);
    let mut page = Vec::new(alloc);
    let head = PageHead {
        flags: 0,
        granule: 0,
        serial: 9,
        number: 0,
    };
    add_page(&rt, &mut page, &head, &[1], b"O");
    assert!(rt; page.len() == 29);
    let (cut, _) = page.split_at(28);
    assert!(rt; is_seekable(&rt, alloc, &setup, cut, 5));
    let first_piece = 65_307 - BODY;
    // Behind the frame's bits, at the packet's end, and where the first piece ends before it, within its head or behind it.
    for at in [
        5,
        64_000 - 29,
        first_piece,
        first_piece - 1,
        first_piece - 4,
        first_piece - 26,
        first_piece - 28,
        first_piece - 29,
    ] {
        holds(&rt, !is_seekable(&rt, alloc, &setup, &page, at), &at);
    }
    assert!(rt; page.len() == 29);
    page[28] ^= 1;
    assert!(rt; is_seekable(&rt, alloc, &setup, &page, first_piece - 4));
}
