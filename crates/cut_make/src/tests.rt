// Films that are made over a desk in memory.
ghost use Rattle.std.specs.Prelude.{◌≡◌};

use crate::{Film, make};
use cut_report::Status;
use std::process::Abort;
use vid_desk::MemDesk;

// The head and the first frame's line of pictures of 16 by 16 samples.
const FRONT: &str = "YUV4MPEG2 W16 H16 F25:1 Ip A1:1 C420jpeg\nFRAME\n";

// A film of pictures of 16 by 16 samples.
fn film(frames: u32) -> Film
    ensures { result ≡ record { start = 0; frames = frames; w = 16; h = 16 } }
{
    Film {
        start: 0,
        frames,
        w: 16,
        h: 16,
    }
}

// A part of a text.
fn part(rt: &impl Abort, text: &[u8], first: usize, part: &[u8]) {
    let past = first.saturating_add(part.len());
    assert!(rt; text.get(first..past) == Some(part), "{first}");
}

#[test]
fn the_samples_of_a_film_are_those_of_its_slopes(rt: HostRuntime) {
    let mut desk = MemDesk::new(rt.alloc());
    assert!(rt; make(rt.alloc(), &mut desk, &film(1), "A") == Ok(431));
    let text = desk.output("A").unwrap_or(&[]);
    assert_eq!(rt; text.len(), 431);
    part(&rt, text, 0, FRONT.as_bytes());
    let luma: [u8; 16] = [
        32, 33, 34, 35, 36, 37, 38, 39, 40, 41, 42, 43, 44, 45, 46, 47,
    ];
    part(&rt, text, 47, &luma);
    part(&rt, text, 302, &[62]);
    part(&rt, text, 303, &[96, 97, 98, 99, 100, 101, 102, 103]);
    part(&rt, text, 367, &[160; 8]);
}

#[test]
fn the_second_picture_has_moved_two_columns_and_a_row(rt: HostRuntime) {
    let mut desk = MemDesk::new(rt.alloc());
    assert!(rt; make(rt.alloc(), &mut desk, &film(3), "A") == Ok(1211));
    let text = desk.output("A").unwrap_or(&[]);
    assert_eq!(rt; text.len(), 1211);
    part(&rt, text, 431, b"FRAME\n");
    part(&rt, text, 437, &[35, 36, 37]);
    part(&rt, text, 693, &[97, 98, 99]);
    part(&rt, text, 757, &[159, 159, 159]);
}

#[test]
fn a_call_that_fails_leaves_a_first_part_of_the_film(rt: HostRuntime) {
    let mut whole = MemDesk::new(rt.alloc());
    assert!(rt; make(rt.alloc(), &mut whole, &film(2), "A") == Ok(821));
    for (call, count, left) in [
        (0, 0, None),
        (1, 10, Some(10)),
        (2, 0, Some(41)),
        (3, 389, Some(820)),
    ] {
        let mut desk = MemDesk::new(rt.alloc());
        assert!(rt; desk.fail_part_at(call, count).is_ok());
        let end = make(rt.alloc(), &mut desk, &film(2), "A");
        assert!(rt; end == Err(Status::WriteFault), "{call}");
        let wanted = match left {
            Some(size) => whole.output("A").unwrap_or(&[]).get(..size),
            None => None,
        };
        assert!(rt; desk.output("A") == wanted, "{call}");
    }
}
