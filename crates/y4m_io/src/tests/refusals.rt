// Streams, read to their end or their first departure.
ghost use Rattle.std.specs.Prelude.{◌<◌};

use super::holds;
use crate::Y4mFault::{Bad, ReadFault};
use crate::Y4mWhy::{
    Aspect, Colour, Empty, Field, Frame, Interlace, Line, Magic, Rate, Short, Size,
};
use crate::*;
use std::alloc::Global;
use std::process::Abort;
use vid_desk::{Desk, MemDesk};

/// Pictures, and the fault behind them, where there is one.
type Outcome = (u32, Option<Y4mFault>);

// Reads up to ten pictures.
fn read_all<D: Desk>(rt: &impl Abort, alloc: Global, desk: &mut D, id: u32) -> Outcome
    requires { id < (D.sees desk.old).found }
{
    let mut y4m = match Y4m::start(alloc, desk, id) {
        Ok(y4m) => y4m,
        Err(fault) => return (0, Some(fault)),
    };
    let head = *y4m.head();
    let mut picture = Picture::new(alloc, head.w, head.h, head.pf).expect(rt, "no memory");
    for frames in 0..10 {
        match y4m.next(desk, &mut picture) {
            Ok(true) => {}
            Ok(false) => return (frames, None),
            Err(fault) => return (frames, Some(fault)),
        }
    }
    (10, None)
}

// Reads an input, of which a call fails, where one is to.
fn outcome(rt: &impl Abort, alloc: Global, bytes: &[u8], failing: Option<u64>) -> Outcome {
    let mut desk = MemDesk::new(alloc);
    assert!(rt; desk.add_input("S", bytes).is_ok());
    if let Some(call) = failing {
        assert!(rt; desk.fail_at(call).is_ok());
    }
    let Ok(Some(id)) = desk.find("S") else {
        panic!(rt; "there is no input")
    };
    read_all(rt, alloc, &mut desk, id)
}

/// Whole frames, and the departure behind them, where there is one.
type Expected = (u32, Option<Y4mWhy>);

fn is_as_expected(got: Outcome, (frame, why): Expected) -> bool {
    match why {
        Some(why) => got == (frame, Some(Bad { frame, why })),
        None => got == (frame, None),
    }
}

/// Heads, or what begins as one, and the outcome of an input that has nothing else.
const HEADS: [(&[u8], Y4mWhy); 45] = [
    (b"", Magic),
    (b"YUV4MPEG", Magic),
    (b"YUV4MPEG3 W1 H1 F1:1\n", Magic),
    (b"YUV4MPEG2\tW1 H1 F1:1\n", Magic),
    (b"YUV4MPEG2", Line),
    (b"YUV4MPEG2 W1 H1 F1:1", Line),
    (b"YUV4MPEG2 \n", Field),
    (b"YUV4MPEG2  W1 H1 F1:1\n", Field),
    (b"YUV4MPEG2 W1 H1 F1:1 \n", Field),
    (b"YUV4MPEG2 W1 H1 F1:1 B1\n", Field),
    (b"YUV4MPEG2 w1 H1 F1:1\n", Field),
    (b"YUV4MPEG2 W16 W0 H1 F1:1\n", Field),
    (b"YUV4MPEG2 W1 H1 F1:1 Ip Ip\n", Field),
    (b"YUV4MPEG2 W1 H1 F1:1 C444 C1\n", Field),
    (b"YUV4MPEG2 W1 H1 F1:1 A0:0 A0:0\n", Field),
    (b"YUV4MPEG2 W0 H1 F1:1\n", Size),
    (b"YUV4MPEG2 W H1 F1:1\n", Size),
    (b"YUV4MPEG2 W+1 H1 F1:1\n", Size),
    (b"YUV4MPEG2 W1 H0 F1:1\n", Size),
    (b"YUV4MPEG2 H1 F1:1\n", Size),
    (b"YUV4MPEG2 W1 F1:1\n", Size),
    (b"YUV4MPEG2\n", Size),
    (b"YUV4MPEG2 W1048561 H1 F1:1\n", Size),
    (b"YUV4MPEG2 W1 H1048561 F1:1\n", Size),
    (b"YUV4MPEG2 W8192 H4097 F1:1\n", Size),
    (b"YUV4MPEG2 W4294967297 H1 F1:1\n", Size),
    (
        b"YUV4MPEG2 W1000000000000000000000000000000000000000 H1 F1:1\n",
        Size,
    ),
    (
        b"YUV4MPEG2 W1000000000000000000000000000000000000000 H1 F0:1\n",
        Rate,
    ),
    (b"YUV4MPEG2 W1 H1\n", Rate),
    (b"YUV4MPEG2 W1 H1 F25", Rate),
    (b"YUV4MPEG2 W1 H1 F1:0\n", Rate),
    (b"YUV4MPEG2 W1 H1 F1:1:1\n", Rate),
    (b"YUV4MPEG2 W1 H1 F4294967296:1\n", Rate),
    (
        b"YUV4MPEG2 W1 H1 F1:10000000000000000000000000000000000000001\n",
        Rate,
    ),
    (b"YUV4MPEG2 W1 H1 F1:1 A1\n", Aspect),
    (b"YUV4MPEG2 W1 H1 F1:1 A1:16777216\n", Aspect),
    (b"YUV4MPEG2 W1 H1 F1:1 A-1:1\n", Aspect),
    (b"YUV4MPEG2 W1 H1 F1:1 C\n", Colour),
    (b"YUV4MPEG2 W1 H1 F1:1 C411\n", Colour),
    (b"YUV4MPEG2 W1 H1 F1:1 C420p10\n", Colour),
    (b"YUV4MPEG2 W1 H1 F1:1 I\n", Interlace),
    (b"YUV4MPEG2 W1 H1 F1:1 It\n", Interlace),
    (b"YUV4MPEG2 W1 H1 F1:1\n", Empty),
    (
        b"YUV4MPEG2 W1048560 H1 F4294967295:00001 A16777215:0 I? C422 X X=1\n",
        Empty,
    ),
    (b"YUV4MPEG2 F1:1 C420paldv H0002 W8192\n", Empty),
];

#[test]
fn a_head_is_refused_by_its_first_departure(rt: HostRuntime) {
    for &(head, why) in &HEADS {
        let got = outcome(&rt, rt.alloc(), head, None);
        holds(&rt, is_as_expected(got, (0, Some(why))), &head);
    }
}

/// Two frames of one sample a plane.
const TWO: &[u8; 44] = b"YUV4MPEG2 W1 H1 F1:1 C444\nFRAME\nabcFRAME\ndef";

/// How the outcome of the first bytes of this input goes on, from so many bytes on.
const ENDS: [(usize, Expected); 21] = [
    (0, (0, Some(Magic))),
    (9, (0, Some(Line))),
    (10, (0, Some(Field))),
    (11, (0, Some(Size))),
    (12, (0, Some(Line))),
    (13, (0, Some(Field))),
    (14, (0, Some(Size))),
    (15, (0, Some(Line))),
    (16, (0, Some(Field))),
    (17, (0, Some(Rate))),
    (20, (0, Some(Line))),
    (21, (0, Some(Field))),
    (22, (0, Some(Colour))),
    (25, (0, Some(Line))),
    (26, (0, Some(Empty))),
    (27, (0, Some(Frame))),
    (32, (0, Some(Short))),
    (35, (1, None)),
    (36, (1, Some(Frame))),
    (41, (1, Some(Short))),
    (44, (2, None)),
];

#[test]
fn an_input_may_end_at_any_byte(rt: HostRuntime) {
    for (i, (from, expected)) in ENDS.iter().enumerate() {
        let past = if i + 1 < ENDS.len() {
            ENDS[i + 1].0
        } else {
            45
        };
        for size in *from..past.min(45) {
            assert!(rt; size <= TWO.len());
            let got = outcome(&rt, rt.alloc(), &TWO[..size], None);
            holds(&rt, is_as_expected(got, *expected), &size);
        }
    }
}

// A text, so many letters, and a text.
fn stretched(rt: &impl Abort, alloc: Global, front: &[u8], letters: usize, back: &[u8]) -> Vec<u8> {
    let mut text = Vec::new(alloc);
    assert!(rt; text.extend_from_slice(front).is_ok());
    for _ in 0..letters {
        assert!(rt; text.push(b'x').is_ok());
    }
    assert!(rt; text.extend_from_slice(back).is_ok());
    text
}

/// What stands before some letters and behind them, how many they are, and the outcome.
const STRETCHED: [(&[u8], usize, &[u8], Expected); 8] = [
    (b"YUV4MPEG2 W1 H1 F1:1 X", 1001, b"\n", (0, Some(Empty))),
    (b"YUV4MPEG2 W1 H1 F1:1 X", 1002, b"\n", (0, Some(Line))),
    (b"YUV4MPEG2 X", 1013, b"W0\n", (0, Some(Line))),
    (b"YUV4MPEG2 X", 1010, b" W0\n", (0, Some(Size))),
    (
        b"YUV4MPEG2 W1 H1 F1:1 C444\nFRAME ",
        249,
        b"\nabc",
        (1, None),
    ),
    (
        b"YUV4MPEG2 W1 H1 F1:1 C444\nFRAME ",
        250,
        b"\nabc",
        (0, Some(Line)),
    ),
    (
        b"YUV4MPEG2 W1 H1 F1:1 C444\nFRAME ",
        250,
        b"",
        (0, Some(Line)),
    ),
    (
        b"YUV4MPEG2 W1 H1 F1:1 C444\nFRAME ",
        249,
        b"",
        (0, Some(Short)),
    ),
];

#[test]
fn a_head_has_1024_bytes_at_most_and_a_frames_line_256(rt: HostRuntime) {
    for &(front, letters, back, expected) in &STRETCHED {
        let text = stretched(&rt, rt.alloc(), front, letters, back);
        let got = outcome(&rt, rt.alloc(), &text, None);
        holds(&rt, is_as_expected(got, expected), &letters);
    }
}

/// Frames behind a head of one sample a plane, and the outcome.
const FRAMES: [(&[u8], Expected); 6] = [
    (b"YUV4MPEG2 W1 H1 F1:1 C444\nFRAMES\nabc", (0, Some(Frame))),
    (b"YUV4MPEG2 W1 H1 F1:1 C444\nframe\nabc", (0, Some(Frame))),
    (b"YUV4MPEG2 W1 H1 F1:1 C444\nFRAME\nabc\n", (1, Some(Frame))),
    (
        b"YUV4MPEG2 W1 H1 F1:1 C444\nFRAME Ip\nabcFRAME \nabc",
        (2, None),
    ),
    (b"YUV4MPEG2 W3 H3 F1:1\nFRAME\n123456789abcdABCD", (1, None)),
    (
        b"YUV4MPEG2 W3 H3 F1:1 C422\nFRAME\n123456789abcdefABCDE",
        (0, Some(Short)),
    ),
];

#[test]
fn a_frame_is_refused_by_its_first_departure(rt: HostRuntime) {
    for &(text, expected) in &FRAMES {
        let got = outcome(&rt, rt.alloc(), text, None);
        holds(&rt, is_as_expected(got, expected), &text);
    }
}

#[test]
fn a_read_that_fails_is_told(rt: HostRuntime) {
    // Call 0 looks for the input, and call 1 asks for its size.
    for call in 1..7 {
        let got = outcome(&rt, rt.alloc(), TWO, Some(call));
        holds(&rt, got == (0, Some(ReadFault)), &call);
    }
    let got = outcome(&rt, rt.alloc(), TWO, Some(7));
    holds(&rt, got == (1, Some(ReadFault)), &7);
}
