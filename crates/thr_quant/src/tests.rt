ghost use Rattle.thr_quant.specs.Ranges.{NameMatrices};

use crate::*;
use arrayvec::ArrayVec;
use std::alloc::Global;
use std::fmt::Debug;
use std::process::Abort;
use vid_base::{BitReader, BitWriter, PacketFault, Refusal};

// Puts fields of a value and a width each, so many times.
fn put(rt: &impl Abort, w: &mut BitWriter, times: u32, fields: &[(u32, u32)]) {
    for _ in 0..times {
        for (value, n) in fields {
            assert!(rt; *n <= 32 && (*n == 32 || *value < 1u32 << *n));
            assert!(rt; w.put(*value, *n).is_ok());
        }
    }
}

// A row of a table holds.
fn holds(rt: &impl Abort, so: bool, row: &impl Debug) {
    assert!(rt; so, "{row:?}");
}

// One range over all indices, with matrix 0 at both ends.
fn one_range() -> Ranges
    ensures { NameMatrices 1 result }
{
    let mut list = ArrayVec::new();
    list.push(Range { size: 63, next: 0 });
    Ranges { start: 0, list }
}

// Scales that fall evenly, and one matrix that rises from the upper left.
fn even_ramps(rt: &impl Abort, alloc: Global) -> Ramps {
    let mut ac = [0; 64];
    let mut dc = [0; 64];
    for qi in 0..64usize {
        ac[qi] = 10 + 8 * (63 - qi as u16);
        dc[qi] = 10 + 3 * (63 - qi as u16);
    }
    let mut matrix = [0; 64];
    for k in 0..64usize {
        matrix[k] = 16 + 4 * (k as u8 / 8 + k as u8 % 8);
    }
    let mut matrices = Vec::new(alloc);
    assert!(rt; matrices.push(matrix).is_ok());
    Ramps {
        ac,
        dc,
        matrices,
        intra: [one_range(), one_range(), one_range()],
        inter: [one_range(), one_range(), one_range()],
    }
}

// Three flat matrices of 10, 30 and 90. The ranges of intra Y have all three; those of intra Cb are copied; intra Cr
// and inter Y have one range each; inter Cb is copied from inter Y, and inter Cr from intra Cr.
fn flat_ramps(rt: &impl Abort, alloc: Global) -> Vec<u8> {
    let mut w = BitWriter::new(alloc);
    put(rt, &mut w, 1, &[(15, 4)]);
    put(rt, &mut w, 20, &[(100, 16)]);
    put(rt, &mut w, 1, &[(65_535, 16)]);
    put(rt, &mut w, 43, &[(100, 16)]);
    put(rt, &mut w, 1, &[(0, 4), (0, 32), (0, 32), (2, 9)]);
    put(rt, &mut w, 64, &[(10, 8)]);
    put(rt, &mut w, 64, &[(30, 8)]);
    put(rt, &mut w, 64, &[(90, 8)]);
    let intra_y = [(0, 2), (9, 6), (1, 2), (49, 6), (2, 2), (2, 2), (0, 2)];
    put(rt, &mut w, 1, &intra_y);
    put(rt, &mut w, 1, &[(0, 1)]);
    put(rt, &mut w, 1, &[(1, 1), (2, 2), (62, 6), (0, 2)]);
    put(rt, &mut w, 1, &[(1, 1), (1, 2), (62, 6), (1, 2)]);
    put(rt, &mut w, 1, &[(0, 2), (1, 2)]);
    w.finish()
}

// The entry of a matrix in natural order.
fn entry(rt: &impl Abort, ramps: &Ramps, qti: u8, pli: u8, qi: u8, k: usize) -> u16 {
    assert!(rt; qti < 2 && pli < 3 && qi < 64 && k < 64);
    ramps.matrix(qti, pli, qi)[k]
}

// Kind, quantiser index and place of an entry in Y, and the entry.
const EVEN: [(&str, u8, u8, usize, u16); 6] = [
    ("DC at 49", 0, 49, 0, 32),
    ("AC at 49", 0, 49, 1, 96),
    ("the least of intra AC at 63", 0, 63, 1, 8),
    ("the least of inter AC at 63", 1, 63, 1, 16),
    ("DC at 0", 0, 0, 0, 124),
    ("the last at 0", 0, 0, 63, 1480),
];

#[test]
fn entries_of_one_matrix_under_even_scales(rt: HostRuntime) {
    let ramps = even_ramps(&rt, rt.alloc());
    for &(name, qti, qi, k, want) in &EVEN {
        holds(&rt, entry(&rt, &ramps, qti, 0, qi, k) == want, &name);
    }
}

// Quantisers, all of these bytes.
fn read(rt: &impl Abort, alloc: Global, bytes: &[u8]) -> Ramps {
    let ramps = read_ramps(alloc, &mut BitReader::new(bytes));
    ramps.expect(rt, "the quantisers are not read")
}

// Kind, plane, quantiser index and place of an entry, and the entry.
const FLAT: [(&str, u8, u8, u8, usize, u16); 13] = [
    ("the first range, halfway", 0, 0, 5, 1, 80),
    ("the first range, nearer to its start", 0, 0, 3, 1, 64),
    ("where two ranges meet", 0, 0, 10, 1, 120),
    ("past the greatest entry", 0, 0, 20, 1, 4096),
    ("the last range, which falls", 0, 0, 61, 1, 252),
    ("the least of intra DC", 0, 0, 5, 0, 16),
    ("intra Cb is copied from intra Y", 0, 1, 3, 1, 64),
    ("intra Cr at its start", 0, 2, 0, 63, 360),
    ("intra Cr at its end", 0, 2, 63, 63, 40),
    ("inter Y", 1, 0, 31, 7, 120),
    ("inter Cb is copied from inter Y", 1, 1, 31, 7, 120),
    ("inter Cr is copied from intra Cr", 1, 2, 0, 63, 360),
    ("the least of inter DC", 1, 2, 0, 0, 32),
];

#[test]
fn entries_between_flat_matrices(rt: HostRuntime) {
    let bytes = flat_ramps(&rt, rt.alloc());
    let ramps = read(&rt, rt.alloc(), &bytes);
    for &(name, qti, pli, qi, k, want) in &FLAT {
        holds(&rt, entry(&rt, &ramps, qti, pli, qi, k) == want, &name);
    }
}

// Quantisers are written as these bytes.
fn are_written(rt: &impl Abort, alloc: Global, ramps: &Ramps, bytes: &[u8]) {
    let mut w = BitWriter::new(alloc);
    assert!(rt; write_ramps(&mut w, ramps).is_ok());
    assert!(rt; w.finish().as_slice() == bytes);
}

#[test]
fn copies_are_written_as_copies(rt: HostRuntime) {
    let bytes = flat_ramps(&rt, rt.alloc());
    let ramps = read(&rt, rt.alloc(), &bytes);
    are_written(&rt, rt.alloc(), &ramps, &bytes);
}

// The bytes of limits, which are read back.
fn limits_packet(rt: &impl Abort, alloc: Global, of: [u8; 64]) -> Vec<u8> {
    assert!(rt; of.iter().all(|limit| *limit < 128));
    let limits = Limits { of };
    let mut w = BitWriter::new(alloc);
    assert!(rt; write_limits(&mut w, &limits).is_ok());
    let bytes = w.finish();
    assert!(rt; read_limits(&mut BitReader::new(&bytes)) == Ok(limits));
    bytes
}

#[test]
fn limits_take_the_least_width(rt: HostRuntime) {
    let mut falling = [0; 64];
    for qi in 0..64usize {
        falling[qi] = (63 - qi as u8) / 3;
    }
    let none = limits_packet(&rt, rt.alloc(), [0; 64]);
    assert!(rt; none.as_slice() == [0].as_slice());
    let five_bits = limits_packet(&rt, rt.alloc(), falling);
    assert_eq!(rt; five_bits.len(), 41);
    let greatest = limits_packet(&rt, rt.alloc(), [127; 64]);
    assert_eq!(rt; greatest.len(), 57);
}

// Scales of 1 bit, so many base matrices of zeros, and fields behind them.
fn quantisers(rt: &impl Abort, alloc: Global, count: u32, fields: &[(u32, u32)]) -> Vec<u8> {
    let mut w = BitWriter::new(alloc);
    put(rt, &mut w, 2, &[(0, 4), (0, 32), (0, 32)]);
    assert!(rt; 0 < count && count <= 384);
    put(rt, &mut w, 1, &[(count - 1, 9)]);
    put(rt, &mut w, 64 * count, &[(0, 8)]);
    put(rt, &mut w, 1, fields);
    w.finish()
}

// Whether quantisers of these bytes are refused for this.
fn are_refused(alloc: Global, bytes: &[u8], fault: PacketFault) -> bool {
    match read_ramps(alloc, &mut BitReader::new(bytes)) {
        Err(refusal) => refusal == Refusal::Bad(fault),
        Ok(_) => false,
    }
}

// How many matrices there are, and fields from the ranges of intra Y on, with the two copies behind them.
const INDICES: [(&str, u32, &[(u32, u32)]); 9] = [
    ("the start of intra Y", 3, &[(3, 2)]),
    ("the first range's end", 3, &[(0, 2), (62, 6), (3, 2)]),
    (
        "the last range's end",
        3,
        &[(0, 2), (61, 6), (2, 2), (3, 2)],
    ),
    ("behind a range of 64 steps", 3, &[(0, 2), (63, 6), (3, 2)]),
    ("5 of 5", 5, &[(5, 3)]),
    ("299 of 299", 299, &[(0, 9), (62, 6), (299, 9)]),
    (
        "the start of intra Cr",
        3,
        &[(0, 2), (62, 6), (0, 2), (0, 1), (1, 1), (3, 2)],
    ),
    (
        "the start of inter Y",
        3,
        &[(0, 2), (62, 6), (0, 2), (0, 2), (1, 1), (3, 2)],
    ),
    (
        "the last of inter Cr",
        3,
        &[
            (0, 2),
            (62, 6),
            (0, 2),
            (0, 6),
            (1, 1),
            (0, 2),
            (62, 6),
            (3, 2),
        ],
    ),
];

#[test]
fn an_index_that_names_no_matrix_is_answered_wherever_it_stands(rt: HostRuntime) {
    for &(name, count, fields) in &INDICES {
        let bytes = quantisers(&rt, rt.alloc(), count, fields);
        let so = are_refused(rt.alloc(), &bytes, PacketFault::MatrixIndex);
        holds(&rt, so, &name);
    }
}

// How many matrices there are, the fields behind them, and the fault.
const RANGES: [(&str, u32, &[(u32, u32)], PacketFault); 7] = [
    ("64 steps", 1, &[(63, 6)], PacketFault::Ramp),
    (
        "a second range that passes the end",
        3,
        &[(0, 2), (59, 6), (0, 2), (3, 2), (0, 2)],
        PacketFault::Ramp,
    ),
    (
        "64 steps in inter Cr",
        1,
        &[(62, 6), (0, 6), (1, 1), (63, 6)],
        PacketFault::Ramp,
    ),
    ("no ranges", 384, &[], PacketFault::Ended),
    ("no range", 384, &[(383, 9)], PacketFault::Ended),
    (
        "a range without its end",
        299,
        &[(9, 9), (9, 6)],
        PacketFault::Ended,
    ),
    (
        "no pair behind the second",
        1,
        &[(62, 6)],
        PacketFault::Ended,
    ),
];

#[test]
fn ranges_past_the_last_index_and_bits_that_end_are_answered(rt: HostRuntime) {
    for &(name, count, fields, want) in &RANGES {
        let bytes = quantisers(&rt, rt.alloc(), count, fields);
        holds(&rt, are_refused(rt.alloc(), &bytes, want), &name);
    }
}

// So many times scales of 1 bit, and fields behind them.
fn scales_and(rt: &impl Abort, alloc: Global, scales: u32, fields: &[(u32, u32)]) -> Vec<u8> {
    let mut w = BitWriter::new(alloc);
    put(rt, &mut w, scales, &[(0, 4), (0, 32), (0, 32)]);
    put(rt, &mut w, 1, fields);
    w.finish()
}

// How many scales of 1 bit there are, the fields behind them, and the fault.
const SCALES: [(&str, u32, &[(u32, u32)], PacketFault); 5] = [
    ("no width", 0, &[], PacketFault::Ended),
    (
        "AC scales that end",
        0,
        &[(15, 4), (9, 32)],
        PacketFault::Ended,
    ),
    (
        "DC scales that end",
        1,
        &[(15, 4), (9, 32)],
        PacketFault::Ended,
    ),
    ("385 matrices", 2, &[(384, 9)], PacketFault::Matrices),
    ("384 matrices that end", 2, &[(383, 9)], PacketFault::Ended),
];

#[test]
fn scales_and_matrices_that_end_and_385_matrices_are_answered(rt: HostRuntime) {
    for &(name, scales, fields, want) in &SCALES {
        let bytes = scales_and(&rt, rt.alloc(), scales, fields);
        holds(&rt, are_refused(rt.alloc(), &bytes, want), &name);
    }
}

// Scales of 65,535, so many base matrices whose indices have `width` bits, and six pairs that differ, each of 63 ranges.
fn greatest(rt: &impl Abort, alloc: Global, count: u32, width: u32) -> Vec<u8> {
    let mut w = BitWriter::new(alloc);
    for _ in 0..2 {
        put(rt, &mut w, 1, &[(15, 4)]);
        put(rt, &mut w, 64, &[(65_535, 16)]);
    }
    assert!(rt; 3 < count && count <= 384 && width <= 9);
    let last = count - 1;
    put(rt, &mut w, 1, &[(last, 9)]);
    put(rt, &mut w, 64 * count, &[(255, 8)]);
    for pair in 0..6u32 {
        if pair > 0 {
            put(rt, &mut w, 1, &[(1, 1)]);
        }
        put(rt, &mut w, 1, &[(pair % 3, width)]);
        let steps = [(31, 6), (16, 5), (8, 4), (4, 3), (2, 2), (1, 1)];
        for &(times, bits) in &steps {
            put(rt, &mut w, times, &[(0, bits), (last, width)]);
        }
        put(rt, &mut w, 1, &[(pair / 3, width)]);
    }
    w.finish()
}

// The greatest quantisers are written as they were read, and so is their copy.
fn are_read_and_written(rt: &impl Abort, alloc: Global, count: u32, width: u32) {
    let bytes = greatest(rt, alloc, count, width);
    let ramps = read(rt, alloc, &bytes);
    are_written(rt, alloc, &ramps, &bytes);
    let copy = ramps.clone().expect(rt, "the quantisers are not copied");
    are_written(rt, alloc, &copy, &bytes);
}

#[test]
fn the_greatest_quantisers_and_their_copy_are_written_as_they_were_read(rt: HostRuntime) {
    for &(count, width) in &[(4, 2), (5, 3), (64, 6), (299, 9), (384, 9)] {
        are_read_and_written(&rt, rt.alloc(), count, width);
    }
}
