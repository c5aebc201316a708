use crate::*;
use std::alloc::Global;
use std::process::Abort;
use vid_base::{BitWriter, PacketFault, Refusal};

// Puts fields: how many times, the value, and the width of each.
fn put(rt: &impl Abort, w: &mut BitWriter, fields: &[(u32, u32, u32)]) {
    for (times, value, n) in fields {
        for _ in 0..*times {
            assert!(rt; *n <= 32 && (*n == 32 || *value < 1u32 << *n));
            assert_eq!(rt; w.put(*value, *n), Ok(()));
        }
    }
}

// How much of a packet is whole, before the part that a row is about.
#[derive(Clone, Copy)]
enum Whole {
    Name,
    Limits,
    Scales,
    // So many base matrices of zeros.
    Matrices(u32),
    // With one base matrix, and a range that is copied five times.
    Ranges,
}

// Puts the name, and what is whole behind it.
fn begin(rt: &impl Abort, w: &mut BitWriter, whole: Whole) {
    for byte in [0x82, 0x74, 0x68, 0x65, 0x6f, 0x72, 0x61] {
        put(rt, w, &[(1, byte, 8)]);
    }
    let limits = (1, 0, 3);
    let (wide, scales) = ((1, 0, 4), (2, 0, 32));
    match whole {
        Whole::Name => {}
        Whole::Limits => put(rt, w, &[limits]),
        Whole::Scales => put(rt, w, &[limits, wide, scales, wide, scales]),
        Whole::Matrices(count) => {
            put(rt, w, &[limits, wide, scales, wide, scales]);
            assert!(rt; 0 < count && count <= 384);
            put(rt, w, &[(1, count - 1, 9), (64 * count, 0, 8)]);
        }
        Whole::Ranges => {
            put(rt, w, &[limits, wide, scales, wide, scales]);
            put(rt, w, &[(1, 0, 9), (64, 0, 8), (1, 62, 6), (1, 0, 8)]);
        }
    }
}

// The packet of the setup of streams that are made here.
fn import_packet(rt: &impl Abort, alloc: Global) -> Vec<u8> {
    let Ok(setup) = import_setup(alloc) else {
        panic!(rt; "there is no setup")
    };
    let mut out = Vec::new(alloc);
    assert_eq!(rt; write_setup(&setup, &mut out), Ok(()));
    out
}

#[test]
fn the_setup_of_our_own_streams_is_written_in_2490_bytes(rt: HostRuntime) {
    let packet = import_packet(&rt, rt.alloc());
    assert_eq!(rt; packet.len(), 2490);
    let front = [0x82, 0x74, 0x68, 0x65, 0x6f, 0x72, 0x61, 0xb5, 0xa5];
    assert!(rt; packet.starts_with(&front));
}

#[test]
fn a_setup_that_was_read_is_written_as_the_same_bytes(rt: HostRuntime) {
    let packet = import_packet(&rt, rt.alloc());
    let Ok(setup) = read_setup(rt.alloc(), &packet) else {
        panic!(&rt; "the setup is not read")
    };
    let mut again = Vec::new(rt.alloc());
    assert_eq!(rt; write_setup(&setup, &mut again), Ok(()));
    assert!(rt; again.as_slice() == packet.as_slice());
    assert_eq!(rt; setup.forest.full_row(), Some(0));
}

#[test]
fn a_setup_is_written_behind_the_bytes_that_are_there(rt: HostRuntime) {
    let packet = import_packet(&rt, rt.alloc());
    let Ok(setup) = import_setup(rt.alloc()) else {
        panic!(&rt; "there is no setup")
    };
    let mut out = Vec::new(rt.alloc());
    assert_eq!(rt; out.push(7).is_ok(), true);
    for times in 0..3 {
        assert_eq!(rt; write_setup(&setup, &mut out), Ok(()), "{times} before it");
    }
    assert_eq!(rt; out.len(), 1 + 3 * 2490);
    assert!(rt; out.ends_with(&packet));
}

#[test]
fn a_packet_that_is_cut_is_ended_or_no_setup(rt: HostRuntime) {
    let packet = import_packet(&rt, rt.alloc());
    for n in 0..packet.len() {
        // Among the trees each look reads all those before it, so only some places are looked at.
        if n > 400 && n % 61 != 0 {
            continue;
        }
        let want = if n < 7 {
            PacketFault::NotSetup
        } else {
            PacketFault::Ended
        };
        let refusal = read_setup(rt.alloc(), &packet[..n]).err();
        assert_eq!(rt; refusal, Some(Refusal::Bad(want)), "{n}");
    }
}

// That a packet with these fields behind what is whole is refused.
fn refused(rt: &impl Abort, alloc: Global, row: (&str, Whole, &[(u32, u32, u32)], PacketFault)) {
    let (name, whole, fields, want) = row;
    let mut w = BitWriter::new(alloc);
    begin(rt, &mut w, whole);
    put(rt, &mut w, fields);
    let refusal = read_setup(alloc, &w.finish()).err();
    assert_eq!(rt; refusal, Some(Refusal::Bad(want)), "{name}");
}

#[test]
fn each_fault_before_the_trees_is_answered(rt: HostRuntime) {
    let rows: [(&str, Whole, &[(u32, u32, u32)], PacketFault); 11] = [
        ("no limits", Whole::Name, &[], PacketFault::Ended),
        (
            "limits that end",
            Whole::Name,
            &[(1, 7, 3), (63, 127, 7)],
            PacketFault::Ended,
        ),
        (
            "scales that end",
            Whole::Limits,
            &[(1, 15, 4), (63, 9, 16)],
            PacketFault::Ended,
        ),
        ("no number", Whole::Scales, &[], PacketFault::Ended),
        (
            "385 matrices",
            Whole::Scales,
            &[(1, 384, 9)],
            PacketFault::Matrices,
        ),
        (
            "matrices that end",
            Whole::Scales,
            &[(1, 383, 9), (384 * 64 - 1, 255, 8)],
            PacketFault::Ended,
        ),
        (
            "index 3 of 3 matrices",
            Whole::Matrices(3),
            &[(1, 3, 2)],
            PacketFault::MatrixIndex,
        ),
        (
            "index 299 of 299 behind a range",
            Whole::Matrices(299),
            &[(1, 0, 9), (1, 62, 6), (1, 299, 9)],
            PacketFault::MatrixIndex,
        ),
        (
            "a range of 64 steps",
            Whole::Matrices(1),
            &[(1, 63, 6)],
            PacketFault::Ramp,
        ),
        ("no ranges", Whole::Matrices(1), &[], PacketFault::Ended),
        (
            "the last pair ends",
            Whole::Matrices(1),
            &[(1, 62, 6)],
            PacketFault::Ended,
        ),
    ];
    for row in rows {
        refused(&rt, rt.alloc(), row);
    }
}

#[test]
fn each_fault_of_the_trees_is_answered(rt: HostRuntime) {
    let rows: [(&str, Whole, &[(u32, u32, u32)], PacketFault); 6] = [
        (
            "a tree of 33 bits",
            Whole::Ranges,
            &[(33, 0, 1)],
            PacketFault::TreeDeep,
        ),
        (
            "a last tree of 33 bits",
            Whole::Ranges,
            &[(79, 32, 6), (33, 0, 1)],
            PacketFault::TreeDeep,
        ),
        (
            "33 leaves",
            Whole::Ranges,
            &[(32, 32, 7), (1, 1, 1)],
            PacketFault::TreeLeaves,
        ),
        (
            "33 leaves of the last tree",
            Whole::Ranges,
            &[(79, 32, 6), (32, 32, 7), (1, 1, 1)],
            PacketFault::TreeLeaves,
        ),
        (
            "a second tree that ends",
            Whole::Ranges,
            &[(1, 1, 1)],
            PacketFault::Ended,
        ),
        (
            "a last tree that ends",
            Whole::Ranges,
            &[(79, 32, 6), (1, 1, 1)],
            PacketFault::Ended,
        ),
    ];
    for row in rows {
        refused(&rt, rt.alloc(), row);
    }
}

#[test]
fn the_header_of_comments_is_no_setup(rt: HostRuntime) {
    let comment = [0x81, 0x74, 0x68, 0x65, 0x6f, 0x72, 0x61, 0xff, 0xff];
    let refusal = read_setup(rt.alloc(), &comment).err();
    assert_eq!(rt; refusal, Some(Refusal::Bad(PacketFault::NotSetup)));
}

// Limits of 127, scales of 65,535, 384 base matrices, six pairs that differ, each of 63 ranges, and trees of 32 leaves whose
// longest codes have 31 bits.
fn greatest_packet(rt: &impl Abort, alloc: Global) -> Vec<u8> {
    let mut w = BitWriter::new(alloc);
    begin(rt, &mut w, Whole::Name);
    put(rt, &mut w, &[(1, 7, 3), (64, 127, 7)]);
    let scales = (64, 65_535, 16);
    put(rt, &mut w, &[(1, 15, 4), scales, (1, 15, 4), scales]);
    put(rt, &mut w, &[(1, 383, 9), (384 * 64, 255, 8)]);
    for pair in 0..6 {
        if pair > 0 {
            put(rt, &mut w, &[(1, 1, 1)]);
        }
        put(rt, &mut w, &[(1, pair, 9), (31, 383, 15), (16, 383, 14)]);
        put(rt, &mut w, &[(8, 383, 13), (4, 383, 12), (2, 383, 11)]);
        put(rt, &mut w, &[(1, 383, 10), (1, 383, 9)]);
    }
    for _ in 0..80 {
        put(rt, &mut w, &[(31, 63, 7), (1, 63, 6)]);
    }
    w.finish()
}

#[test]
fn the_greatest_setup_and_its_copy_are_written_as_they_were_read(rt: HostRuntime) {
    let packet = greatest_packet(&rt, rt.alloc());
    let Ok(setup) = read_setup(rt.alloc(), &packet) else {
        panic!(&rt; "the setup is not read")
    };
    let Ok(copy) = setup.clone() else {
        panic!(&rt; "the setup is not copied")
    };
    for written in [setup, copy] {
        let mut out = Vec::new(rt.alloc());
        assert_eq!(rt; write_setup(&written, &mut out), Ok(()));
        assert!(rt; out.as_slice() == packet.as_slice());
    }
}

// By rank, two codes stand behind 0, two behind 10, four behind 110, eight behind 1110 and sixteen behind 1111.
#[test]
fn tokens_have_the_codes_of_their_ranks_in_each_group(rt: HostRuntime) {
    let Ok(setup) = import_setup(rt.alloc()) else {
        panic!(&rt; "there is no setup")
    };
    let rows = [
        ("token 5 of number 0", 0, 5, 0b00101, 5),
        ("rank 7 of number 1", 1, 23, 0b11011, 5),
        ("rank 8 of number 1", 1, 4, 0b1110000, 7),
        ("rank 0 of number 2", 2, 9, 0b00, 2),
        ("rank 2 of number 3 in group 1", 19, 0, 0b100, 3),
        ("rank 31 of number 1 in group 4", 65, 31, 0b11111111, 8),
        ("token 5 of number 15 in group 4", 79, 5, 0b00101, 5),
    ];
    for (name, hti, token, bits, len) in rows {
        assert!(rt; hti < 80 && token < 32);
        let Some(code) = setup.forest.code(hti, token) else {
            panic!(&rt; "{name} has no code")
        };
        assert_eq!(rt; (code.bits, code.len), (bits, len), "{name}");
    }
}

#[test]
fn limits_and_entries_of_the_setup_of_our_own_streams(rt: HostRuntime) {
    let Ok(setup) = import_setup(rt.alloc()) else {
        panic!(&rt; "there is no setup")
    };
    let of = setup.limits.of;
    assert_eq!(rt; [of[0], of[1], of[60], of[61], of[63]], [21, 20, 1, 0, 0]);
    let rows = [
        ("DC at 49", 0, 49, 0, 32),
        ("AC at 49", 0, 49, 1, 96),
        ("the least of intra AC at 63", 0, 63, 1, 8),
        ("the least of inter AC at 63", 1, 63, 1, 16),
        ("DC at 0", 0, 0, 0, 124),
        ("the last at 0", 0, 0, 63, 1480),
    ];
    for (name, qti, qi, k, want) in rows {
        assert!(rt; qti < 2 && qi < 64 && k < 64);
        assert_eq!(rt; setup.ramps.matrix(qti, 2, qi)[k], want, "{name}");
    }
}
