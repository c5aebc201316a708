ghost use Rattle.std.specs.Prelude.{IfOk};
ghost use Rattle.ogg_page.specs.Page.{HasShape};

use crate::read::total;
use crate::*;
use std::alloc::Global;
use std::fmt::Debug;
use std::process::Abort;

// A page that is to be written: flags, granule position, serial and sequence number, lacing values, body.
type Made<'a> = (u8, u64, u32, u32, &'a [u8], &'a [u8]);

// An identification header, and a comment header with a setup packet of one byte.
const IDENT: [u8; 42] = [
    0x80, b't', b'h', b'e', b'o', b'r', b'a', 3, 2, 1, 0, 1, 0, 1, 0, 0, 16, 0, 0, 16, 0, 0, 0, 0,
    0, 25, 0, 0, 0, 1, 0, 0, 1, 0, 0, 1, 0, 0, 0, 0, 0x78, 0xc0,
];

const COMMENT_AND_SETUP: [u8; 22] = [
    0x81, b't', b'h', b'e', b'o', b'r', b'a', 6, 0, 0, 0, b'o', b'g', b'g', b'c', b'u', b't', 0, 0,
    0, 0, 0x82,
];

// The page with the frame packet, its checksum as libogg 1.3.5 sets it.
const FRAME_PAGE: [u8; 29] = [
    b'O', b'g', b'g', b'S', 0, 4, 64, 0, 0, 0, 0, 0, 0, 0, 1, 0, 0, 0, 2, 0, 0, 0, 0x4c, 0x68,
    0x5e, 0x9d, 1, 1, 0,
];

// A page with no packet and another number in each byte of its fields, its checksum as libogg 1.3.5 sets it.
const EMPTY_PAGE: [u8; 27] = [
    b'O', b'g', b'g', b'S', 0, 7, 1, 2, 3, 4, 5, 6, 7, 8, 9, 10, 11, 12, 13, 14, 15, 16, 0x37,
    0xd2, 0xc6, 0xa8, 0,
];

// Its bytes, which are read back by both calls.
fn written(rt: &impl Abort, alloc: Global, made: &Made) -> Vec<u8> {
    let (flags, granule, serial, number, lacing, body) = *made;
    let head = PageHead {
        flags,
        granule,
        serial,
        number,
    };
    assert!(rt; flags < 8 && lacing.len() <= 255);
    assert!(rt; total(lacing) == body.len());
    let mut out = Vec::new(alloc);
    assert!(rt; write_page(&mut out, &head, lacing, body).is_ok());
    assert!(rt; !out.is_empty());
    check_page(rt, read_page(&out, 0), made);
    check_page(rt, read_window(&out), made);
    out
}

fn is_written(rt: &impl Abort, alloc: Global, made: &Made, bytes: &[u8]) {
    assert!(rt; written(rt, alloc, made).as_slice() == bytes);
}

fn check_page(rt: &impl Abort, read: Result<PageRef, PageFault>, made: &Made)
    requires { IfOk read (λ page. HasShape page.lacing.now page.body.now) }
{
    let (flags, granule, serial, number, lacing, body) = *made;
    match read {
        Ok(page) => {
            assert!(rt; page.flags == flags && page.granule == granule);
            assert!(rt; page.serial == serial && page.number == number);
            assert!(rt; page.lacing == lacing && page.body == body);
            assert!(rt; page.size() == 27 + lacing.len() + body.len());
        }
        Err(fault) => holds(rt, false, &fault.name()),
    }
}

// A row of a table holds.
fn holds(rt: &impl Abort, so: bool, row: &impl Debug) {
    assert!(rt; so, "{row:?}");
}

// Whether these bytes are the page's checksum, and stand in its field.
fn has_checksum(page: &[u8], sum: [u8; 4]) -> bool {
    page.len() >= 27 && page[22..26] == sum[..] && checksum(page) == u32::from_le_bytes(sum)
}

// The checksums are those that libogg 1.3.5 sets.
#[test]
fn pages_are_written_with_their_checksum_and_read_back(rt: HostRuntime) {
    const ROWS: [(&str, Made, usize, [u8; 4]); 5] = [
        (
            "an identification header",
            (2, 0, 1, 0, &[42], &IDENT),
            70,
            [0xcf, 0x61, 0xb0, 0xf0],
        ),
        (
            "two packets",
            (0, 0, 1, 1, &[21, 1], &COMMENT_AND_SETUP),
            51,
            [0xa8, 0x9b, 0x12, 0xde],
        ),
        (
            "a frame",
            (4, 64, 1, 2, &[1], &[0]),
            29,
            [0x4c, 0x68, 0x5e, 0x9d],
        ),
        (
            "another number in each byte",
            (7, 0x0807_0605_0403_0201, 0x0c0b_0a09, 0x100f_0e0d, &[], &[]),
            27,
            [0x37, 0xd2, 0xc6, 0xa8],
        ),
        (
            "a packet of 255 bytes ends with a lacing value of 0",
            (0, 0, 1, 3, &[255, 0], &[0; 255]),
            284,
            [0x0a, 0x63, 0xe9, 0x56],
        ),
    ];
    let rows = &ROWS;
    for (name, made, size, sum) in rows {
        let out = written(&rt, rt.alloc(), made);
        holds(&rt, out.len() == *size, name);
        holds(&rt, has_checksum(&out, *sum), name);
    }
    is_written(&rt, rt.alloc(), &rows[2].1, &FRAME_PAGE);
    is_written(&rt, rt.alloc(), &rows[3].1, &EMPTY_PAGE);
}

// Its checksum was worked out bit by bit.
#[test]
fn the_greatest_page_has_65307_bytes(rt: HostRuntime) {
    let mut body = Vec::new(rt.alloc());
    for _ in 0..255 {
        assert!(rt; body.extend_from_slice(&[7; 255]).is_ok());
    }
    let out = written(&rt, rt.alloc(), &(1, u64::MAX, 1, 4, &[255; 255], &body));
    assert!(rt; out.len() == 65307);
    assert!(rt; has_checksum(&out, [0xe0, 0xdf, 0x8e, 0x99]));
}

#[test]
fn each_fault_has_a_smallest_input_and_its_place_in_the_order(rt: HostRuntime) {
    const ROWS: [(&str, &[u8], PageFault); 7] = [
        ("another first byte", b"X", PageFault::NotAPage),
        (
            "another fourth byte and version",
            b"OggX\x01",
            PageFault::NotAPage,
        ),
        ("version 1", b"OggS\x01", PageFault::PageVersion),
        (
            "version 1 of a page with a wrong checksum",
            b"OggS\x01\0\0\0\0\0\0\0\0\0\0\0\0\0\0\0\0\0\0\0\0\0\0",
            PageFault::PageVersion,
        ),
        ("one byte", b"O", PageFault::Truncated),
        (
            "a lacing byte is missing",
            b"OggS\0\0\0\0\0\0\0\0\0\0\0\0\0\0\0\0\0\0\0\0\0\0\x01",
            PageFault::Truncated,
        ),
        (
            "a checksum of 0",
            b"OggS\0\0\0\0\0\0\0\0\0\0\0\0\0\0\0\0\0\0\0\0\0\0\0",
            PageFault::Checksum,
        ),
    ];
    for &(name, bytes, fault) in &ROWS {
        assert!(rt; !bytes.is_empty());
        holds(&rt, read_page(bytes, 0).err() == Some(fault), &name);
        holds(&rt, read_window(bytes).err() == Some(fault), &name);
    }
    assert!(rt; read_window(&[]).err() == Some(PageFault::Truncated));
}

#[test]
fn a_page_cut_anywhere_is_truncated_and_a_changed_byte_is_found(rt: HostRuntime) {
    for n in 0..29 {
        let cut = read_window(&FRAME_PAGE[..n]).err();
        holds(&rt, cut == Some(PageFault::Truncated), &("bytes", n));
        let mut changed = FRAME_PAGE;
        changed[n] ^= 1;
        holds(&rt, read_page(&changed, 0).is_err(), &("byte", n));
    }
}

#[test]
fn faults_have_the_numbers_30_to_33(rt: HostRuntime) {
    const ROWS: [(PageFault, u8, &str); 4] = [
        (PageFault::NotAPage, 30, "NotAPage"),
        (PageFault::PageVersion, 31, "PageVersion"),
        (PageFault::Checksum, 32, "Checksum"),
        (PageFault::Truncated, 33, "Truncated"),
    ];
    for &(fault, number, name) in &ROWS {
        assert!(rt; fault.number() == number && fault.name() == name);
    }
}
