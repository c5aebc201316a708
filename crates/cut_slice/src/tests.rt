use crate::cut;
use cut_report::Status;
use ogg_page::read_page;
use std::fmt::Debug;
use std::process::Abort;
use vid_desk::{Desk, MemDesk};

// A header of 16 by 16 samples, 4:2:0, 25 frames a second, shift 6; a comment header; a setup header of one byte; and
// frames 00 (a key frame), 40 and 00, each on a page of its own. Serial number 9. The checksums are another program's.
const SOURCE: [u8; 208] = [
    0x4f, 0x67, 0x67, 0x53, 0x00, 0x02, 0x00, 0x00, 0x00, 0x00, 0x00, 0x00, 0x00, 0x00, 0x09, 0x00,
    0x00, 0x00, 0x00, 0x00, 0x00, 0x00, 0x8f, 0x65, 0x6c, 0x7c, 0x01, 0x2a, 0x80, 0x74, 0x68, 0x65,
    0x6f, 0x72, 0x61, 0x03, 0x02, 0x01, 0x00, 0x01, 0x00, 0x01, 0x00, 0x00, 0x10, 0x00, 0x00, 0x10,
    0x00, 0x00, 0x00, 0x00, 0x00, 0x19, 0x00, 0x00, 0x00, 0x01, 0x00, 0x00, 0x01, 0x00, 0x00, 0x01,
    0x00, 0x00, 0x00, 0x00, 0x78, 0xc0, 0x4f, 0x67, 0x67, 0x53, 0x00, 0x00, 0x00, 0x00, 0x00, 0x00,
    0x00, 0x00, 0x00, 0x00, 0x09, 0x00, 0x00, 0x00, 0x01, 0x00, 0x00, 0x00, 0xee, 0xa7, 0x28, 0x63,
    0x02, 0x15, 0x01, 0x81, 0x74, 0x68, 0x65, 0x6f, 0x72, 0x61, 0x06, 0x00, 0x00, 0x00, 0x6f, 0x67,
    0x67, 0x63, 0x75, 0x74, 0x00, 0x00, 0x00, 0x00, 0x82, 0x4f, 0x67, 0x67, 0x53, 0x00, 0x00, 0x40,
    0x00, 0x00, 0x00, 0x00, 0x00, 0x00, 0x00, 0x09, 0x00, 0x00, 0x00, 0x02, 0x00, 0x00, 0x00, 0x11,
    0x45, 0xd8, 0x31, 0x01, 0x01, 0x00, 0x4f, 0x67, 0x67, 0x53, 0x00, 0x00, 0x41, 0x00, 0x00, 0x00,
    0x00, 0x00, 0x00, 0x00, 0x09, 0x00, 0x00, 0x00, 0x03, 0x00, 0x00, 0x00, 0x58, 0x9b, 0xbe, 0xfa,
    0x01, 0x01, 0x40, 0x4f, 0x67, 0x67, 0x53, 0x00, 0x00, 0x80, 0x00, 0x00, 0x00, 0x00, 0x00, 0x00,
    0x00, 0x09, 0x00, 0x00, 0x00, 0x04, 0x00, 0x00, 0x00, 0x75, 0xc9, 0x2d, 0x91, 0x01, 0x01, 0x00,
];

// Its frames 2 to 2, and its frames 0 to 1, as they are to be written.
const LAST_FRAME: [u8; 150] = [
    0x4f, 0x67, 0x67, 0x53, 0x00, 0x02, 0x00, 0x00, 0x00, 0x00, 0x00, 0x00, 0x00, 0x00, 0x01, 0x00,
    0x00, 0x00, 0x00, 0x00, 0x00, 0x00, 0xcf, 0x61, 0xb0, 0xf0, 0x01, 0x2a, 0x80, 0x74, 0x68, 0x65,
    0x6f, 0x72, 0x61, 0x03, 0x02, 0x01, 0x00, 0x01, 0x00, 0x01, 0x00, 0x00, 0x10, 0x00, 0x00, 0x10,
    0x00, 0x00, 0x00, 0x00, 0x00, 0x19, 0x00, 0x00, 0x00, 0x01, 0x00, 0x00, 0x01, 0x00, 0x00, 0x01,
    0x00, 0x00, 0x00, 0x00, 0x78, 0xc0, 0x4f, 0x67, 0x67, 0x53, 0x00, 0x00, 0x00, 0x00, 0x00, 0x00,
    0x00, 0x00, 0x00, 0x00, 0x01, 0x00, 0x00, 0x00, 0x01, 0x00, 0x00, 0x00, 0xa8, 0x9b, 0x12, 0xde,
    0x02, 0x15, 0x01, 0x81, 0x74, 0x68, 0x65, 0x6f, 0x72, 0x61, 0x06, 0x00, 0x00, 0x00, 0x6f, 0x67,
    0x67, 0x63, 0x75, 0x74, 0x00, 0x00, 0x00, 0x00, 0x82, 0x4f, 0x67, 0x67, 0x53, 0x00, 0x04, 0x40,
    0x00, 0x00, 0x00, 0x00, 0x00, 0x00, 0x00, 0x01, 0x00, 0x00, 0x00, 0x02, 0x00, 0x00, 0x00, 0x4c,
    0x68, 0x5e, 0x9d, 0x01, 0x01, 0x00,
];

const FIRST_TWO: [u8; 179] = [
    0x4f, 0x67, 0x67, 0x53, 0x00, 0x02, 0x00, 0x00, 0x00, 0x00, 0x00, 0x00, 0x00, 0x00, 0x01, 0x00,
    0x00, 0x00, 0x00, 0x00, 0x00, 0x00, 0xcf, 0x61, 0xb0, 0xf0, 0x01, 0x2a, 0x80, 0x74, 0x68, 0x65,
    0x6f, 0x72, 0x61, 0x03, 0x02, 0x01, 0x00, 0x01, 0x00, 0x01, 0x00, 0x00, 0x10, 0x00, 0x00, 0x10,
    0x00, 0x00, 0x00, 0x00, 0x00, 0x19, 0x00, 0x00, 0x00, 0x01, 0x00, 0x00, 0x01, 0x00, 0x00, 0x01,
    0x00, 0x00, 0x00, 0x00, 0x78, 0xc0, 0x4f, 0x67, 0x67, 0x53, 0x00, 0x00, 0x00, 0x00, 0x00, 0x00,
    0x00, 0x00, 0x00, 0x00, 0x01, 0x00, 0x00, 0x00, 0x01, 0x00, 0x00, 0x00, 0xa8, 0x9b, 0x12, 0xde,
    0x02, 0x15, 0x01, 0x81, 0x74, 0x68, 0x65, 0x6f, 0x72, 0x61, 0x06, 0x00, 0x00, 0x00, 0x6f, 0x67,
    0x67, 0x63, 0x75, 0x74, 0x00, 0x00, 0x00, 0x00, 0x82, 0x4f, 0x67, 0x67, 0x53, 0x00, 0x00, 0x40,
    0x00, 0x00, 0x00, 0x00, 0x00, 0x00, 0x00, 0x01, 0x00, 0x00, 0x00, 0x02, 0x00, 0x00, 0x00, 0x33,
    0x03, 0x21, 0xc3, 0x01, 0x01, 0x00, 0x4f, 0x67, 0x67, 0x53, 0x00, 0x04, 0x41, 0x00, 0x00, 0x00,
    0x00, 0x00, 0x00, 0x00, 0x01, 0x00, 0x00, 0x00, 0x03, 0x00, 0x00, 0x00, 0x05, 0xb6, 0x38, 0x56,
    0x01, 0x01, 0x40,
];

fn desk_with(rt: &(impl Abort + AllocGlobal), text: &[u8], source: &[u8]) -> MemDesk {
    let mut desk = MemDesk::new(rt.alloc());
    assert!(rt; desk.add_input("L", text).is_ok());
    assert!(rt; desk.add_input("S", source).is_ok());
    desk
}

fn status_of(rt: &(impl Abort + AllocGlobal), desk: &mut MemDesk) -> Status {
    match cut(rt.alloc(), desk, "L", "O", "S") {
        Ok(()) => Status::Done,
        Err(status) => status,
    }
}

// A row of a table holds.
fn holds(rt: &impl Abort, so: bool, row: &impl Debug) {
    assert!(rt; so, "{row:?}");
}

// A list cuts these bytes out of a source, and nothing is said.
fn gives(rt: &(impl Abort + AllocGlobal), text: &[u8], source: &[u8], bytes: &[u8]) {
    let mut desk = desk_with(rt, text, source);
    assert!(rt; status_of(rt, &mut desk) == Status::Done);
    assert!(rt; desk.output("O") == Some(bytes));
    assert!(rt; desk.said().is_empty());
}

#[test]
fn a_slice_from_a_key_frame_is_copied(rt: HostRuntime) {
    gives(&rt, b"oggcut 1\nslice 1 2 3\n", &SOURCE, &LAST_FRAME);
    gives(&rt, b"oggcut 1\nslice 1 0 2\n", &SOURCE, &FIRST_TWO);
}

// Whether a list and a source have a status, and an output just where all is done.
fn has(rt: &(impl Abort + AllocGlobal), text: &[u8], source: &[u8], status: Status) -> bool {
    let mut desk = desk_with(rt, text, source);
    let got = status_of(rt, &mut desk);
    got == status && desk.output("O").is_some() == (status == Status::Done)
}

// Lists, and the status that each has.
const LISTS: [(&[u8], Status); 22] = [
    (b"oggcut 1\nslice 1 2 3\n", Status::Done),
    (b"oggcut 1\nslice 1 0 3\n", Status::Done),
    (b"oggcut 1\nslice 1 1 2\n", Status::InPointNotKey),
    (b"oggcut 1\nslice 1 1 3\n", Status::InPointNotKey),
    (b"oggcut 1\nslice 1 0 4\n", Status::NotYet),
    (b"oggcut 1\nslice 1 3 4\n", Status::NotYet),
    (b"", Status::NotYet),
    (b"oggcut 1\n", Status::NotYet),
    (b"oggcut 2\nslice 1 0 1\n", Status::NotYet),
    (b"oggcut 1\r\nslice 1 0 1\n", Status::NotYet),
    (b"oggcut 1\nslice 1 0 1\r\n", Status::NotYet),
    (b"oggcut 1\nslice 1 0 1\n\n", Status::NotYet),
    (b"oggcut 1\n\nslice 1 0 1\n", Status::NotYet),
    (b"oggcut 1\nslice 1 0 1", Status::NotYet),
    (b"oggcut 1\nslice 1 1 1\n", Status::NotYet),
    (b"oggcut 1\nslice 1 2 1\n", Status::NotYet),
    (b"oggcut 1\nslice 1 00 1\n", Status::NotYet),
    (b"oggcut 1\nslice 2 0 1\n", Status::NotYet),
    (b"oggcut 1\nslice 1 0 2147483647\n", Status::NotYet),
    (b"oggcut 1\nslice 1 0 2147483648\n", Status::NotYet),
    (
        b"oggcut 1\nslice 1 0 99999999999999999999\n",
        Status::NotYet,
    ),
    (b"oggcut 1\nslice 1  0 1\n", Status::NotYet),
];

#[test]
fn lists_and_ranges_have_their_status(rt: HostRuntime) {
    for &(text, status) in &LISTS {
        holds(&rt, has(&rt, text, &SOURCE, status), &text);
    }
}

// Bytes of the source that are changed, with the checksum of their page made right but in the last row.
const OTHER_SOURCES: [(&str, [(usize, u8); 5]); 9] = [
    (
        "a second serial number",
        [(164, 8), (172, 42), (173, 122), (174, 177), (175, 39)],
    ),
    (
        "a page out of sequence",
        [(168, 4), (172, 188), (173, 55), (174, 123), (175, 31)],
    ),
    (
        "no flag on the first page",
        [(5, 0), (22, 37), (23, 237), (24, 60), (25, 211)],
    ),
    (
        "flag 2 on a later page",
        [(126, 2), (143, 117), (144, 126), (145, 135), (146, 156)],
    ),
    (
        "flag 4 before the last page",
        [(126, 4), (143, 110), (144, 46), (145, 167), (146, 111)],
    ),
    (
        "a continued page",
        [(126, 1), (143, 163), (144, 216), (145, 119), (146, 103)],
    ),
    (
        "no key frame first",
        [(149, 64), (143, 102), (144, 53), (145, 94), (146, 5)],
    ),
    (
        "another codec",
        [(29, 118), (22, 130), (23, 200), (24, 11), (25, 248)],
    ),
    (
        "a wrong checksum",
        [(29, 118), (30, 104), (31, 101), (32, 111), (33, 114)],
    ),
];

// The source with some of its bytes changed.
fn changed(changes: &[(usize, u8); 5]) -> [u8; 208] {
    let mut source = SOURCE;
    for &(at, byte) in changes {
        if at < source.len() {
            source[at] = byte;
        }
    }
    source
}

#[test]
fn sources_that_are_not_plain_are_not_yet_cut(rt: HostRuntime) {
    for (name, changes) in &OTHER_SOURCES {
        let list = b"oggcut 1\nslice 1 0 1\n";
        holds(&rt, has(&rt, list, &changed(changes), Status::NotYet), name);
    }
    for count in 0..SOURCE.len() {
        let list = b"oggcut 1\nslice 1 0 3\n";
        holds(
            &rt,
            has(&rt, list, &SOURCE[..count], Status::NotYet),
            &count,
        );
    }
}

#[test]
fn the_last_page_may_have_its_flag(rt: HostRuntime) {
    let source = changed(&[(184, 4), (201, 10), (202, 162), (203, 82), (204, 207)]);
    gives(&rt, b"oggcut 1\nslice 1 2 3\n", &source, &LAST_FRAME);
}

// Names of a list, an output and a source, and the status that they have.
const NAMES: [(&str, &str, &str, Status); 4] = [
    ("L", "L", "S", Status::NotYet),
    ("L", "S", "S", Status::NotYet),
    ("X", "O", "Y", Status::NoFile { input: 1 }),
    ("L", "O", "X", Status::NoFile { input: 2 }),
];

// Whether a cut of these names is refused, and leaves no output.
fn is_refused(
    rt: &(impl Abort + AllocGlobal),
    list: &str,
    out: &str,
    source: &str,
    status: Status,
) -> bool {
    let mut desk = desk_with(rt, b"oggcut 1\nslice 1 2 3\n", &SOURCE);
    let answer = cut(rt.alloc(), &mut desk, list, out, source);
    answer == Err(status) && desk.output("O").is_none()
}

#[test]
fn names_have_their_status(rt: HostRuntime) {
    for &(list, out, source, status) in &NAMES {
        holds(
            &rt,
            is_refused(&rt, list, out, source, status),
            &(list, out, source),
        );
    }
}

// Whether a cut of which one call fails is told as that, and leaves a first part of its output from the call on that
// follows its creation. The calls are two finds, two sizes, two reads, one create and three appends.
fn is_told(rt: &(impl Abort + AllocGlobal), call: u64) -> bool {
    let mut desk = desk_with(rt, b"oggcut 1\nslice 1 2 3\n", &SOURCE);
    assert!(rt; desk.fail_at(call).is_ok());
    let fault = if call < 6 {
        Status::ReadFault
    } else {
        Status::WriteFault
    };
    let got = status_of(rt, &mut desk);
    got == fault && leaves_a_first_part(desk.output("O"), call)
}

fn leaves_a_first_part(output: Option<&[u8]>, call: u64) -> bool {
    match output {
        Some(bytes) => call > 6 && LAST_FRAME.starts_with(bytes),
        None => call <= 6,
    }
}

#[test]
fn each_call_that_fails_is_told_and_leaves_a_first_part(rt: HostRuntime) {
    for call in 0..10u64 {
        holds(&rt, is_told(&rt, call), &call);
    }
}

// Where a page of the last frame's cut stands, its flags, number and granule position, and its size.
const PAGES: [(usize, u8, u32, u64, usize); 3] = [
    (0, 2, 0, 0, 70),
    (70, 0, 1, 0, 51),
    (121, 4, 2, 64, 29),
];

#[test]
fn the_pages_of_a_cut_are_those_that_the_format_asks_for(rt: HostRuntime) {
    for &(at, flags, number, granule, size) in &PAGES {
        assert!(rt; at < LAST_FRAME.len());
        match read_page(&LAST_FRAME, at) {
            Ok(page) => {
                assert!(rt; page.flags == flags && page.serial == 1 && page.number == number);
                assert!(rt; page.granule == granule && page.size() == size);
            }
            Err(_) => assert!(rt; false),
        }
    }
}
