ghost use Rattle.std.specs.Prelude.{◌≡◌, ◌≤◌, ◌*◌, sum, length, vec_len};
ghost use Rattle.ogg_page.specs.Page.{HasShape};

use crate::*;
use ogg_page::{PageHead, write_page};
use std::alloc::Global;
use std::fmt::Debug;
use std::process::Abort;
use thr_setup::{import_setup, write_setup};
use vid_desk::{Desk, MemDesk};

mod again;
mod pieces;
mod refusals;

// An identification header of 16 by 16 samples, 4:2:0, 25 frames a second, shift 6.
const IDENT: [u8; 42] = [
    0x80, 0x74, 0x68, 0x65, 0x6f, 0x72, 0x61, 0x03, 0x02, 0x01, 0x00, 0x01, 0x00, 0x01, 0x00, 0x00,
    0x10, 0x00, 0x00, 0x10, 0x00, 0x00, 0x00, 0x00, 0x00, 0x19, 0x00, 0x00, 0x00, 0x01, 0x00, 0x00,
    0x01, 0x00, 0x00, 0x01, 0x00, 0x00, 0x00, 0x00, 0x78, 0xc0,
];

const COMMENT: &[u8] = b"\x81theora\x06\0\0\0oggcut\0\0\0\0";

// A key frame of one grey macro block.
const KEY: &[u8] = &[0x1e, 0x00, 0x01, 0xc0, 0x00];

// An inter frame in which no block is coded.
const INTER: &[u8] = &[0x40, 0x2a, 0x80];

// Granule position and packet of a frame, which stands alone on its page.
type Frame<'a> = (u64, &'a [u8]);

fn total(lacing: &[u8]) -> usize
    requires { length lacing.now ≤ 255 }
    ensures sum { result ≡ sum lacing.now }
    ensures bound { result ≤ 255 * 255 }
{
    let mut total = 0usize;
    for size in lacing {
        total += usize::from(*size);
    }
    total
}

// Appends a page.
fn add_page(rt: &impl Abort, out: &mut Vec<u8>, head: &PageHead, lacing: &[u8], body: &[u8]) {
    assert!(rt; head.flags < 8 && lacing.len() <= 255 && total(lacing) == body.len());
    assert!(rt; write_page(out, head, lacing, body).is_ok());
}

// A page: flags, granule position, serial and sequence number, lacing values, body.
type Page<'a> = (u8, u64, u32, u32, &'a [u8], &'a [u8]);

// Appends pages.
fn add_pages(rt: &impl Abort, out: &mut Vec<u8>, pages: &[Page]) {
    for &(flags, granule, serial, number, lacing, body) in pages {
        let head = PageHead {
            flags,
            granule,
            serial,
            number,
        };
        add_page(rt, out, &head, lacing, body);
    }
}

// Appends a page with these packets, each of them whole.
fn add_packets(
    rt: &impl Abort,
    alloc: Global,
    out: &mut Vec<u8>,
    head: &PageHead,
    packets: &[&[u8]],
) {
    let mut lacing = Vec::new(alloc);
    let mut body = Vec::new(alloc);
    for packet in packets {
        for _ in 0..packet.len() / 255 {
            assert!(rt; lacing.push(255).is_ok());
        }
        assert!(rt; lacing.push((packet.len() % 255) as u8).is_ok());
        assert!(rt; body.extend_from_slice(packet).is_ok());
    }
    add_page(rt, out, head, &lacing, &body);
}

// A file with these headers, the last two on a page, and these frames.
fn file_of(
    rt: &impl Abort,
    alloc: Global,
    ident: &[u8],
    comment: &[u8],
    setup: &[u8],
    frames: &[Frame],
) -> Vec<u8> {
    let mut out = Vec::new(alloc);
    let mut head = PageHead {
        flags: 2,
        granule: 0,
        serial: 1,
        number: 0,
    };
    add_packets(rt, alloc, &mut out, &head, &[ident]);
    head.flags = 0;
    head.number = 1;
    add_packets(rt, alloc, &mut out, &head, &[comment, setup]);
    for (granule, packet) in frames {
        head.granule = *granule;
        head.number = head.number.wrapping_add(1);
        add_packets(rt, alloc, &mut out, &head, &[packet]);
    }
    out
}

// The setup header of streams that are made here.
fn setup_packet(rt: &impl Abort, alloc: Global) -> Vec<u8>
    ensures { vec_len result ≡ 2490 }
{
    let Ok(setup) = import_setup(alloc) else {
        panic!(rt; "there is no setup")
    };
    let mut out = Vec::new(alloc);
    assert!(rt; write_setup(&setup, &mut out).is_ok());
    assert!(rt; out.len() == 2490);
    out
}

// A key frame of so many bytes, of which those behind the first five are not looked at.
fn key_frame(rt: &impl Abort, alloc: Global, size: usize) -> Vec<u8>
    ensures { vec_len result ≡ size }
{
    let Ok(mut frame) = Vec::from_elem(alloc, 0x3fu8, size) else {
        panic!(rt; "there is no frame")
    };
    assert!(rt; size >= 5 && KEY.len() == 5);
    frame[..5].copy_from_slice(KEY);
    frame
}

// What loading a file answers, over a desk of which one call is to fail.
fn loaded(
    rt: &impl Abort,
    alloc: Global,
    bytes: &[u8],
    failing: Option<u64>,
) -> Result<Source, SourceFault> {
    let mut desk = MemDesk::new(alloc);
    assert!(rt; desk.add_input("S", bytes).is_ok());
    if let Some(call) = failing {
        assert!(rt; desk.fail_at(call).is_ok());
    }
    let Ok(Some(id)) = desk.find("S") else {
        panic!(rt; "there is no input")
    };
    Source::load(alloc, &mut desk, id)
}

// A row of a table holds.
fn holds(rt: &impl Abort, so: bool, row: &impl Debug) {
    assert!(rt; so, "{row:?}");
}

// A file that is loaded.
fn source_of(rt: &impl Abort, alloc: Global, bytes: &[u8]) -> Source {
    loaded(rt, alloc, bytes, None).expect(rt, "the file is not loaded")
}

// Whether loading a file is refused for this.
fn is_refused(
    rt: &impl Abort,
    alloc: Global,
    bytes: &[u8],
    failing: Option<u64>,
    fault: SourceFault,
) -> bool {
    loaded(rt, alloc, bytes, failing).err() == Some(fault)
}

// A source of one key frame tells its headers.
fn tells_its_headers(rt: &impl Abort, source: &Source, setup: &[u8]) {
    assert!(rt; source.frames() == 1 && source.links() == 1);
    assert!(rt; source.is_key(0) && source.link_of(0) == 1);
    assert!(rt; source.ident(1).shift == 6);
    assert!(rt; source.setup(1).forest.full_row() == Some(0));
    let headers = source.headers(1);
    assert!(rt; headers.ident == IDENT.as_slice());
    assert!(rt; headers.comment == COMMENT && headers.setup == setup);
}

#[test]
fn a_file_of_one_key_frame_is_loaded(rt: HostRuntime) {
    let setup = setup_packet(&rt, rt.alloc());
    let bytes = file_of(&rt, rt.alloc(), &IDENT, COMMENT, &setup, &[(64, KEY)]);
    assert!(rt; bytes.len() == 70 + 2549 + 33);
    let source = source_of(&rt, rt.alloc(), &bytes);
    tells_its_headers(&rt, &source, &setup);
}

// Frames that decode.
const DECODING: [&[Frame]; 3] = [
    &[(64, &[0x3f, 0x00, 0x04, 0x8d, 0x00, 0x00])],
    &[(64, KEY), (65, INTER), (66, &[])],
    &[(64, KEY), (128, KEY), (129, INTER)],
];

// Whether all of these frames are loaded.
fn are_loaded(rt: &impl Abort, alloc: Global, setup: &[u8], frames: &[Frame]) -> bool {
    let bytes = file_of(rt, alloc, &IDENT, COMMENT, setup, frames);
    source_of(rt, alloc, &bytes).frames() as usize == frames.len()
}

#[test]
fn frames_that_decode_are_loaded(rt: HostRuntime) {
    let setup = setup_packet(&rt, rt.alloc());
    for frames in &DECODING {
        assert!(rt; are_loaded(&rt, rt.alloc(), &setup, frames));
    }
}

// A setup header and a frame of 600 bytes, joined over pages between which pages of another stream stand.
fn joined(rt: &impl Abort, alloc: Global, setup: &[u8], frame: &[u8]) -> Vec<u8> {
    let setup = Vec::from_slice(alloc, setup).expect(rt, "no memory");
    let frame = Vec::from_slice(alloc, frame).expect(rt, "no memory");
    assert!(rt; setup.len() == 2490 && frame.len() == 600);
    let (setup_front, setup_back) = setup.split_at(765);
    let (frame_front, frame_back) = frame.split_at(510);
    let mut front = Vec::new(alloc);
    assert!(rt; front.extend_from_slice(COMMENT).is_ok());
    assert!(rt; front.extend_from_slice(setup_front).is_ok());
    let mut bytes = Vec::new(alloc);
    add_pages(
        rt,
        &mut bytes,
        &[
            (2, 0, 1, 0, &[42], &IDENT),
            (2, 0, 2, 0, &[5], b"other"),
            (0, 0, 1, 1, &[21, 255, 255, 255], &front),
            (0, 0, 2, 1, &[5], b"other"),
            (1, 0, 1, 2, &[255, 255, 255, 255, 255, 255, 195], setup_back),
            (0, u64::MAX, 1, 3, &[255, 255], frame_front),
            (4, 0, 2, 2, &[0], &[]),
            (1, 65, 1, 4, &[90, 0], frame_back),
        ],
    );
    bytes
}

#[test]
fn packets_are_joined_over_pages_of_other_streams(rt: HostRuntime) {
    let setup = setup_packet(&rt, rt.alloc());
    let frame = key_frame(&rt, rt.alloc(), 600);
    let bytes = joined(&rt, rt.alloc(), &setup, &frame);
    let source = source_of(&rt, rt.alloc(), &bytes);
    assert!(rt; source.frames() == 2 && source.is_key(0) && !source.is_key(1));
    assert!(rt; source.headers(1).setup == setup.as_slice());
    assert!(rt; source.seekable());
}

#[test]
fn a_file_of_many_pieces_is_loaded_unless_a_read_fails(rt: HostRuntime) {
    let alloc = rt.alloc();
    let setup = setup_packet(&rt, alloc);
    let frame = key_frame(&rt, alloc, 40_000);
    let frames: [Frame; 8] = [
        (64, &frame),
        (128, &frame),
        (192, &frame),
        (256, &frame),
        (320, &frame),
        (384, &frame),
        (448, &frame),
        (512, &frame),
    ];
    let bytes = file_of(&rt, alloc, &IDENT, COMMENT, &setup, &frames);
    assert!(rt; bytes.len().div_ceil(65_307) == 5);
    // The desk is first asked for the input and its size, and then for five pieces.
    for call in 1..7 {
        let so = is_refused(&rt, alloc, &bytes, Some(call), SourceFault::ReadFault);
        holds(&rt, so, &call);
    }
    assert!(rt; loaded(&rt, alloc, &bytes, Some(7)).is_ok_and(|source| source.frames() == 8));
}
