ghost use Rattle.std.specs.Prelude.{◌≡◌, ◌≤◌, ◌*◌, sum, length};
ghost use Rattle.vid_desk.specs.Counts.{untold};

use crate::{Status, oggcut};
use ogg_page::{PageHead, write_page};
use std::process::Abort;
use thr_setup::{import_setup, write_setup};
use vid_desk::{Desk, DeskFault, Failed, MemDesk};

// A header of 16 by 16 samples, 4:2:0, 25 frames a second, shift 6; and a comment header.
const IDENT: [u8; 42] = [
    0x80, 0x74, 0x68, 0x65, 0x6f, 0x72, 0x61, 0x03, 0x02, 0x01, 0x00, 0x01, 0x00, 0x01, 0x00, 0x00,
    0x10, 0x00, 0x00, 0x10, 0x00, 0x00, 0x00, 0x00, 0x00, 0x19, 0x00, 0x00, 0x00, 0x01, 0x00, 0x00,
    0x01, 0x00, 0x00, 0x01, 0x00, 0x00, 0x00, 0x00, 0x78, 0xc0,
];

const COMMENT: [u8; 21] = [
    0x81, 0x74, 0x68, 0x65, 0x6f, 0x72, 0x61, 0x06, 0x00, 0x00, 0x00, 0x6f, 0x67, 0x67, 0x63, 0x75,
    0x74, 0x00, 0x00, 0x00, 0x00,
];

pub(crate) const KEY: [u8; 5] = [0x1e, 0x00, 0x01, 0xc0, 0x00];

// The first 33 bits of the trees of the setup header, each where it is 1.
const A_TREE_OF_33_ZEROS: [(u8, usize, u8); 5] = [
    (2, 259, 1),
    (2, 260, 4),
    (2, 261, 40),
    (2, 262, 163),
    (2, 263, 32),
];

// The lacing values of the comment header and of a setup header of 2,490 bytes.
const HEADER_LACING: [u8; 11] = [21, 255, 255, 255, 255, 255, 255, 255, 255, 255, 195];

// The bytes of a packet with one of them changed, if it has that byte.
fn change(packet: &mut [u8], at: usize, bits: u8) {
    if let Some(byte) = packet.get_mut(at) {
        *byte ^= bits;
    }
}

// The setup header of streams made here.
fn setup(rt: &(impl Abort + AllocGlobal)) -> Vec<u8> {
    let mut packet = Vec::new(rt.alloc());
    match import_setup(rt.alloc()) {
        Ok(setup) => assert!(rt; write_setup(&setup, &mut packet).is_ok()),
        Err(_) => assert!(rt; false),
    }
    packet
}

fn total(lacing: &[u8]) -> usize
    requires { length lacing.now ≤ 255 }
    ensures sum { result ≡ sum lacing.now }
    ensures bound { result ≤ 255 * 255 }
{
    let mut total = 0usize;
    for size in lacing {
        total += usize::from(*size);
    }
    total
}

// One more page of the stream.
pub(crate) fn add(
    rt: &impl Abort,
    file: &mut Vec<u8>,
    flags: u8,
    number: u32,
    granule: u64,
    lacing: &[u8],
    body: &[u8],
) {
    assert!(rt; flags < 8 && lacing.len() <= 255 && total(lacing) == body.len());
    let head = PageHead {
        flags,
        granule,
        serial: 1,
        number,
    };
    assert!(rt; write_page(file, &head, lacing, body).is_ok());
}

// The headers' pages: the identification header alone, and the two others. Their packets are changed: which of the three,
// at which byte, and which bits of it.
pub(crate) fn headers(
    rt: &(impl Abort + AllocGlobal),
    changes: &[(u8, usize, u8)],
    flags: u8,
) -> Vec<u8> {
    let mut ident = IDENT;
    let mut others = Vec::new(rt.alloc());
    assert!(rt; others.extend_from_slice(&COMMENT).is_ok());
    assert!(rt; others.extend_from_slice(&setup(rt)).is_ok());
    for (packet, at, bits) in changes {
        match packet {
            0 => change(&mut ident, *at, *bits),
            1 => change(&mut others, *at, *bits),
            _ => change(&mut others, COMMENT.len().saturating_add(*at), *bits),
        }
    }
    let mut file = Vec::new(rt.alloc());
    add(rt, &mut file, 2, 0, 0, &[42], &ident);
    add(rt, &mut file, flags, 1, 0, &HEADER_LACING, &others);
    file
}

// What `check` says of a file.
fn checked(rt: &(impl Abort + AllocGlobal), file: &[u8], status: u8, text: &str) {
    let mut desk = MemDesk::new(rt.alloc());
    assert!(rt; desk.add_input("S", file).is_ok());
    let end = oggcut(rt.alloc(), &["check", "S"], &mut desk);
    assert_eq!(rt; end.number(), status, "{text}");
    assert!(rt; desk.said() == text.as_bytes(), "{text}");
}

// That `check` says the line of a bad source, which ends so.
fn said(rt: &(impl Abort + AllocGlobal), file: &[u8], link: &str, line: &str) {
    let mut text = String::new(rt.alloc());
    for part in ["fault 4 source 1 ", link, line, "\n"] {
        assert!(rt; text.push_str(part).is_ok());
    }
    checked(rt, file, 4, &text);
}

fn refused(rt: &(impl Abort + AllocGlobal), case: &Case, link: &str, line: &str) {
    said(rt, &file_of(rt, case), link, line);
}

// A file of one frame that departs from the well-formed one: changes of its headers, the flags of their second page, the
// third page's flags, sequence number and granule position, and bits of a byte of the frame.
#[derive(Clone, Copy)]
struct Case<'a> {
    changes: &'a [(u8, usize, u8)],
    flags: u8,
    page: (u8, u32, u64),
    frame: (usize, u8),
    line: &'a str,
}

const WHOLE: Case = Case {
    changes: &[],
    flags: 0,
    page: (4, 2, 64),
    frame: (0, 0),
    line: "link 1 picture 16x16 coded 16x16 pixels 420 rate 25:1 frames 1 keys 1\nseekable yes\n",
};

fn file_of(rt: &(impl Abort + AllocGlobal), case: &Case) -> Vec<u8> {
    let mut file = headers(rt, case.changes, case.flags);
    let (flags, number, granule) = case.page;
    let mut frame = KEY;
    let (at, bits) = case.frame;
    change(&mut frame, at, bits);
    add(rt, &mut file, flags, number, granule, &[5], &frame);
    file
}

#[test]
fn a_file_of_one_frame_has_its_line(rt: HostRuntime) {
    let file = file_of(&rt, &WHOLE);
    assert_eq!(rt; file.len(), 70 + 2549 + 33);
    checked(&rt, &file, 0, WHOLE.line);
}

#[test]
fn each_fault_of_a_packet_is_said_with_its_number(rt: HostRuntime) {
    let headers: [(&[(u8, usize, u8)], &str); 15] = [
        (&[(0, 7, 7)], "packet 0 Version"),
        (&[(0, 11, 1)], "packet 0 BadSize"),
        (&[(0, 10, 255), (0, 12, 255)], "packet 0 TooLarge"),
        (&[(0, 25, 0x19)], "packet 0 BadRate"),
        (&[(0, 41, 8)], "packet 0 PixelFormat"),
        (&[(0, 41, 1)], "packet 0 Reserved"),
        (&[(1, 0, 1)], "packet 1 NotComment"),
        (&[(1, 7, 255)], "packet 1 CommentLength"),
        (&[(2, 0, 1)], "packet 2 NotSetup"),
        (&[(2, 192, 0x18)], "packet 2 Matrices"),
        (&[(2, 258, 0x40)], "packet 2 Ramp"),
        (&[(2, 192, 2)], "packet 2 MatrixIndex"),
        (&[(2, 259, 0x20)], "packet 2 TreeLeaves"),
        (&A_TREE_OF_33_ZEROS, "packet 2 TreeDeep"),
        (&[(2, 7, 0x80)], "packet 2 Ended"),
    ];
    for (changes, line) in headers {
        refused(&rt, &Case { changes, ..WHOLE }, "link 1 ", line);
    }
    for (frame, line) in [
        ((0, 0x40), "packet 3 FirstNotKey"),
        ((0, 0x80), "packet 3 NotData"),
        ((1, 0x10), "packet 3 Reserved"),
    ] {
        refused(&rt, &Case { frame, ..WHOLE }, "link 1 ", line);
    }
}

#[test]
fn each_fault_of_a_page_is_said_with_its_byte(rt: HostRuntime) {
    for (flags, page, line) in [
        (0, (4, 2, 65), "byte 2619 BadGranule"),
        (0, (4, 3, 64), "byte 2619 MissingPage"),
        (0, (5, 2, 64), "byte 2619 BadContinued"),
        (0, (6, 2, 64), "byte 2619 Chained"),
        (4, (4, 2, 64), "byte 2619 DataAfterEnd"),
        (2, (4, 2, 64), "byte 70 HeadersNotAlone"),
    ] {
        let case = Case {
            flags,
            page,
            ..WHOLE
        };
        refused(&rt, &case, "", line);
    }
    for (count, line) in [
        (0, "byte 0 NoTrack"),
        (3, "byte 0 Truncated"),
        (70, "byte 70 UnfinishedPacket"),
        (2651, "byte 2619 Truncated"),
    ] {
        let mut file = file_of(&rt, &WHOLE);
        file.truncate(count);
        said(&rt, &file, "", line);
    }
    for (at, line) in [
        (0, "byte 0 NotAPage"),
        (4, "byte 0 PageVersion"),
        (80, "byte 70 Checksum"),
    ] {
        let mut file = file_of(&rt, &WHOLE);
        change(&mut file, at, 1);
        said(&rt, &file, "", line);
    }
}

#[test]
fn a_frame_may_not_stand_too_far_behind_its_key_frame(rt: HostRuntime) {
    // With shift 0 there are only key frames.
    let mut file = headers(&rt, &[(0, 41, 0xc0)], 0);
    add(&rt, &mut file, 0, 2, 1, &[5], &KEY);
    add(&rt, &mut file, 4, 3, 2, &[0], &[]);
    said(&rt, &file, "link 1 ", "packet 4 KeyTooFar");
}

#[test]
fn words_and_inputs_have_their_lines(rt: HostRuntime) {
    let rows: [(&[&str], u8, &str); 13] = [
        (&[], 2, "fault 2 usage\n"),
        (&["cut"], 2, "fault 2 usage\n"),
        (&["check"], 2, "fault 2 usage\n"),
        (&["check", "S", "S"], 2, "fault 2 usage\n"),
        (&["copy", "L", "O", "S"], 2, "fault 2 usage\n"),
        (&["plan"], 2, "fault 2 usage\n"),
        (&["plan", "S"], 2, "fault 2 usage\n"),
        (&["plan", "X", "Y"], 3, "fault 3 input 1 missing\n"),
        (&["plan", "S", "X"], 3, "fault 3 input 2 missing\n"),
        (&["check", "X"], 3, "fault 3 input 1 missing\n"),
        (&["cut", "S", "O", "X"], 3, "fault 3 input 2 missing\n"),
        (&["cut", "S", "S", "S"], 19, "fault 19 form\n"),
        (&["cut", "S", "O", "S"], 19, "fault 19 form\n"),
    ];
    for (words, status, line) in rows {
        let mut desk = MemDesk::new(rt.alloc());
        assert!(rt; desk.add_input("S", b"oggcut 1\n").is_ok());
        assert_eq!(rt; oggcut(rt.alloc(), words, &mut desk).number(), status);
        assert!(rt; desk.said() == line.as_bytes(), "{line}");
    }
}

#[test]
fn a_cut_says_nothing_and_a_slice_that_begins_elsewhere_its_line(rt: HostRuntime) {
    let mut file = file_of(
        &rt,
        &Case {
            page: (0, 2, 64),
            ..WHOLE
        },
    );
    add(&rt, &mut file, 4, 3, 65, &[0], &[]);
    for (list, status, line) in [
        (b"oggcut 1\nslice 1 0 1\n", 0, ""),
        (b"oggcut 1\nslice 1 1 2\n", 18, "fault 18 key\n"),
    ] {
        let mut desk = MemDesk::new(rt.alloc());
        assert!(rt; desk.add_input("L", list).is_ok());
        assert!(rt; desk.add_input("S", &file).is_ok());
        let words = ["cut", "L", "O", "S"];
        assert_eq!(rt; oggcut(rt.alloc(), &words, &mut desk).number(), status);
        assert!(rt; desk.said() == line.as_bytes());
        assert_eq!(rt; desk.output("O").is_some(), status == 0);
    }
}

#[test]
fn a_call_that_fails_is_told(rt: HostRuntime) {
    // The calls are a find, a size, a read, and the line of the link; a fault's own line is the call behind it.
    let file = file_of(&rt, &WHOLE);
    for (call, status, line) in [
        (0, 8, "fault 8 read\n"),
        (1, 8, "fault 8 read\n"),
        (2, 8, "fault 8 read\n"),
        (3, 9, "fault 9 write\n"),
    ] {
        let mut desk = MemDesk::new(rt.alloc());
        assert!(rt; desk.add_input("S", &file).is_ok());
        assert!(rt; desk.fail_at(call).is_ok());
        assert_eq!(rt;
            oggcut(rt.alloc(), &["check", "S"], &mut desk).number(),
            status
        );
        assert!(rt; desk.said() == line.as_bytes());
    }
    let mut desk = MemDesk::new(rt.alloc());
    assert!(rt; desk.fail_at(1).is_ok());
    assert_eq!(rt;
        oggcut(rt.alloc(), &["check", "S"], &mut desk),
        Status::NoFile { input: 1 }
    );
    assert!(rt;
        desk.said().is_empty(),
        "the line of a refusal fails, and the status stays"
    );
}

#[test]
fn a_read_that_fails_in_mid_file_is_told(rt: HostRuntime) {
    // A frame of 65,000 bytes, so that the file is read in two pieces: a find, a size, two reads and the line.
    let mut file = headers(&rt, &[], 0);
    let mut lacing = [255u8; 255];
    lacing[254] = 230;
    let Ok(mut frame) = Vec::from_elem(rt.alloc(), 0u8, 65_000) else {
        panic!(&rt; "there is no frame")
    };
    assert!(rt; frame.len() == 65_000);
    frame[..5].copy_from_slice(&KEY);
    add(&rt, &mut file, 4, 2, 64, &lacing, &frame);
    for (call, status, line) in [
        (2, 8, "fault 8 read\n"),
        (3, 8, "fault 8 read\n"),
        (4, 9, "fault 9 write\n"),
        (5, 0, WHOLE.line),
    ] {
        let mut desk = MemDesk::new(rt.alloc());
        assert!(rt; desk.add_input("S", &file).is_ok());
        assert!(rt; desk.fail_at(call).is_ok());
        let end = oggcut(rt.alloc(), &["check", "S"], &mut desk);
        assert_eq!(rt; end.number(), status, "{call}");
        assert!(rt; desk.said() == line.as_bytes(), "{call}");
    }
}

#[test]
fn an_identification_header_that_ends_early_is_said(rt: HostRuntime) {
    let mut file = Vec::new(rt.alloc());
    add(&rt, &mut file, 2, 0, 0, &[41], &IDENT[..41]);
    said(&rt, &file, "link 1 ", "packet 0 Ended");
}

// A desk with one input and one output, of which nothing is told but the length of the input. No call gives bytes.
#[derive(Drop)]
struct LongInput {
    size: u64,
    said: Vec<u8>,
    read_faults: u64,
    write_faults: u64,
    asked: u64,
}

impl Desk for LongInput {
    ghost sees = { λ desk. untold (record {
      read_faults = desk.read_faults;
      write_faults = desk.write_faults;
      asked = desk.asked;
      found = 1;
      made = 1;
    }) };

    ghost use Rattle.std.proofs.Common.{rules};

    ghost found_in = { λ desk files told. Prim.search rules };

    ghost made_in = { λ desk files told. Prim.search rules };

    fn find(&mut self, _name: &str) -> Result<Option<u32>, DeskFault> {
        Ok(Some(0))
    }

    fn size(&mut self, _id: u32) -> Result<u64, Failed> {
        Ok(self.size)
    }

    fn read_at(&mut self, _id: u32, _pos: u64, buf: &mut [u8]) -> Result<(), Failed> {
        self.asked = self.asked.saturating_add(buf.len() as u64);
        self.read_faults = self.read_faults.saturating_add(1);
        Err(Failed)
    }

    fn create(&mut self, _name: &str) -> Result<u32, DeskFault> {
        self.write_faults = self.write_faults.saturating_add(1);
        Err(DeskFault::Failed)
    }

    fn append(&mut self, _id: u32, _piece: &[u8]) -> Result<(), DeskFault> {
        self.write_faults = self.write_faults.saturating_add(1);
        Err(DeskFault::Failed)
    }

    fn say(&mut self, piece: &[u8]) -> Result<(), DeskFault> {
        self.said.extend_from_slice(piece)?;
        Ok(())
    }
}

#[test]
fn a_file_of_more_than_1099511627776_bytes_is_too_long(rt: HostRuntime) {
    for (size, status, line) in [
        (
            1_099_511_627_777,
            14,
            "fault 14 input 1 bytes 1099511627777\n",
        ),
        (1_099_511_627_776, 8, "fault 8 read\n"),
    ] {
        let mut desk = LongInput {
            size,
            said: Vec::new(rt.alloc()),
            read_faults: 0,
            write_faults: 0,
            asked: 0,
        };
        let end = oggcut(rt.alloc(), &["check", "S"], &mut desk);
        assert_eq!(rt; end.number(), status, "{line}");
        assert!(rt; desk.said.as_slice() == line.as_bytes(), "{line}");
    }
}

#[test]
fn a_refusal_says_its_line_in_one_call(rt: HostRuntime) {
    // The call behind the line fails, and the line is whole.
    let rows: [(&[&str], u64, &str); 3] = [
        (&[], 1, "fault 2 usage\n"),
        (&["check", "X"], 2, "fault 3 input 1 missing\n"),
        (&["cut", "S", "O", "S"], 6, "fault 19 form\n"),
    ];
    for (words, call, line) in rows {
        let mut desk = MemDesk::new(rt.alloc());
        assert!(rt; desk.add_input("S", b"oggcut 1\n").is_ok());
        assert!(rt; desk.fail_at(call).is_ok());
        let _ = oggcut(rt.alloc(), words, &mut desk);
        assert!(rt; desk.said() == line.as_bytes(), "{line}");
    }
}
