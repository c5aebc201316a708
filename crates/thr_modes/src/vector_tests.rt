ghost use Rattle.std.specs.Prelude.{◌<◌, All};

use crate::*;
use std::alloc::Global;
use std::fmt::Debug;
use std::process::Abort;
use vid_base::{BitReader, BitWriter, PacketFault, Refusal, Shape, Vector};
use vid_geom::Geom;

/// One macro block in mode 2: bits, how many of them are left, and the components of its vector.
const CODED: [(&[u8], usize, [i8; 2]); 14] = [
    (&[0x14], 1, [1, -1]),
    (&[0x06], 0, [0, 2]),
    (&[0x30], 0, [2, 0]),
    (&[0x38], 0, [-2, 0]),
    (&[0x40], 0, [3, 0]),
    (&[0x48], 0, [-3, 0]),
    (&[0x50, 0x00], 6, [4, 0]),
    (&[0x5e, 0x00], 6, [-7, 0]),
    (&[0x60, 0x00], 5, [8, 0]),
    (&[0x6f, 0x00], 5, [-15, 0]),
    (&[0x70, 0x00], 4, [16, 0]),
    (&[0x7f, 0x80], 4, [-31, 0]),
    (&[0x8a, 0x30], 3, [-2, 3]),
    (&[0x82, 0x08], 3, [0, 0]),
];

/// Frames of four macro blocks in a row: their modes, the components that are read, and those of the vectors that the
/// macro blocks have.
const REMEMBERED: [([u8; 4], &[i8], [i8; 8]); 7] = [
    ([2, 2, 4, 3], &[1, 2, -3, 4], [1, 2, -3, 4, 1, 2, 1, 2]),
    ([2, 2, 4, 4], &[1, 2, -3, 4], [1, 2, -3, 4, 1, 2, -3, 4]),
    ([2, 2, 3, 4], &[1, 2, -3, 4], [1, 2, -3, 4, -3, 4, 1, 2]),
    ([2, 6, 3, 4], &[1, 2, 5, -6], [1, 2, 5, -6, 1, 2, 0, 0]),
    ([3, 4, 2, 4], &[1, 2], [0, 0, 0, 0, 1, 2, 0, 0]),
    ([0, 1, 5, 2], &[1, 2], [0, 0, 0, 0, 0, 0, 1, 2]),
    ([2, 0, 2, 4], &[1, 2, -3, 4], [1, 2, 0, 0, -3, 4, 1, 2]),
];

/// Frames of two macro blocks in modes 7 and 3: the pixel format, whether the upper right luma block of the first is
/// coded, the components that are read, and those of the vectors of Y, Cb and Cr in coded order.
const OWN: [(u8, bool, &[i8], &[i8]); 4] = [
    (
        0,
        true,
        &[1, -1, 2, -2, 0, 3, -1, -2],
        &[
            1, -1, 2, -2, -1, -2, 0, 3, -1, -2, -1, -2, -1, -2, -1, -2, 1, -1, -1, -2, 1, -1, -1,
            -2,
        ],
    ),
    (
        0,
        false,
        &[1, -1, 2, -2, 0, 3],
        &[
            1, -1, 2, -2, 0, 0, 0, 3, 0, 3, 0, 3, 0, 3, 0, 3, 1, 0, 0, 3, 1, 0, 0, 3,
        ],
    ),
    (
        2,
        true,
        &[1, -1, 2, -2, 0, 3, -1, -2],
        &[
            1, -1, 2, -2, -1, -2, 0, 3, -1, -2, -1, -2, -1, -2, -1, -2, 2, -2, -1, -2, -1, -2, -1,
            1, 2, -2, -1, -2, -1, -2, -1, 1,
        ],
    ),
    (
        3,
        true,
        &[1, -1, 2, -2, 0, 3, -1, -2],
        &[
            1, -1, 2, -2, -1, -2, 0, 3, -1, -2, -1, -2, -1, -2, -1, -2, 1, -1, 2, -2, -1, -2, 0, 3,
            -1, -2, -1, -2, -1, -2, -1, -2, 1, -1, 2, -2, -1, -2, 0, 3, -1, -2, -1, -2, -1, -2, -1,
            -2,
        ],
    ),
];

// The layout of a frame of so many macro blocks across and upwards in a pixel format.
fn frame(rt: &impl Abort, alloc: Global, across: u16, upwards: u16, pf: u8) -> Geom {
    let shape = Shape::new(across, upwards, pf).expect(rt, "no shape");
    Geom::new(alloc, shape).expect(rt, "no memory")
}

// Components under MVMODE 1: 5 bits and a sign each.
fn packet(rt: &impl Abort, alloc: Global, components: &[i8]) -> Vec<u8> {
    let mut w = BitWriter::new(alloc);
    w.put(1, 1).expect(rt, "no memory");
    for component in components {
        let size = u32::from(component.unsigned_abs() % 32);
        w.put(size, 5).expect(rt, "no memory");
        w.put(u32::from(*component < 0), 1).expect(rt, "no memory");
    }
    w.finish()
}

// The components of vectors.
fn components(rt: &impl Abort, alloc: Global, vectors: &[Vector]) -> Vec<i8> {
    let mut components = Vec::new(alloc);
    for vector in vectors {
        components.push(vector.x).expect(rt, "no memory");
        components.push(vector.y).expect(rt, "no memory");
    }
    components
}

// The components of the vectors or the fault, which both calls have to answer alike, leaving as many bits.
fn read(
    rt: &impl Abort,
    alloc: Global,
    r: &mut BitReader,
    geom: &Geom,
    flags: &[bool],
    modes: &[u8],
) -> Result<Vec<i8>, PacketFault> {
    assert!(rt; flags.len() == geom.blocks() as usize);
    assert!(rt; modes.len() == geom.macro_blocks() as usize);
    let mut again = r.copy();
    let mut vectors = Vec::new(alloc);
    let answer = read_vectors(r, geom, flags, modes, &mut vectors);
    let lent = vec![in alloc; Vector { x: 9, y: 9 }; flags.len()];
    let mut lent = lent.expect(rt, "no memory");
    let second = read_vectors_in(&mut again, geom, flags, modes, &mut lent);
    assert!(rt; left(r) == left(&again));
    are_alike(rt, answer, &vectors, second, &lent);
    match second {
        Ok(()) => Ok(components(rt, alloc, &vectors)),
        Err(fault) => Err(fault),
    }
}

// Both calls have answered alike: with the same vectors, or with one fault and none.
fn are_alike(
    rt: &impl Abort,
    answer: Result<(), Refusal>,
    vectors: &[Vector],
    second: Result<(), PacketFault>,
    lent: &[Vector],
) {
    match second {
        Ok(()) => {
            assert_eq!(rt; answer, Ok(()));
            assert!(rt; lent == vectors);
        }
        Err(fault) => {
            assert_eq!(rt; answer, Err(Refusal::Bad(fault)));
            assert!(rt; vectors.is_empty());
        }
    }
}

// Whether these components were read.
fn is(read: &Result<Vec<i8>, PacketFault>, components: &[i8]) -> bool {
    match read {
        Ok(got) => got.as_slice() == components,
        Err(_) => false,
    }
}

// How many bits are left, of at most 8, which are looked at and not taken.
fn left(r: &BitReader) -> usize {
    let mut ahead = r.copy();
    let mut count = 0usize;
    for _ in 0..8 {
        if ahead.bit().is_ok() {
            count = count.saturating_add(1);
        }
    }
    count
}

// A row of a table holds.
fn holds(rt: &impl Abort, so: bool, row: &impl Debug) {
    assert!(rt; so, "{row:?}");
}

// Whether these bits give vectors of one macro block, all of the components x and y, and leave so many bits.
fn all_are(
    rt: &impl Abort,
    alloc: Global,
    geom: &Geom,
    bytes: &[u8],
    rest: usize,
    [x, y]: [i8; 2],
) -> bool {
    let mut r = BitReader::new(bytes);
    let vectors = read(rt, alloc, &mut r, geom, &[true; 6], &[2]);
    is(&vectors, &[x, y, x, y, x, y, x, y, x, y, x, y]) && left(&r) == rest
}

#[test]
fn a_vector_is_read_under_both_codings(rt: HostRuntime) {
    let geom = frame(&rt, rt.alloc(), 1, 1, 0);
    for &(bytes, rest, vector) in &CODED {
        let so = all_are(&rt, rt.alloc(), &geom, bytes, rest, vector);
        holds(&rt, so, &vector);
    }
}

// Whether the macro blocks have vectors of these components.
fn are_remembered(
    rt: &impl Abort,
    alloc: Global,
    geom: &Geom,
    modes: &[u8],
    coded: &[i8],
    expected: &[i8],
) -> bool {
    let bytes = packet(rt, alloc, coded);
    let vectors = read(
        rt,
        alloc,
        &mut BitReader::new(&bytes),
        geom,
        &[true; 24],
        modes,
    );
    let vectors = vectors.expect(rt, "no vectors");
    vectors.get(32..40) == Some(expected)
}

#[test]
fn vectors_are_remembered_from_macro_block_to_macro_block(rt: HostRuntime) {
    let geom = frame(&rt, rt.alloc(), 4, 1, 0);
    for &(modes, coded, expected) in &REMEMBERED {
        let same = are_remembered(&rt, rt.alloc(), &geom, &modes, coded, &expected);
        holds(&rt, same, &modes);
    }
}

// Whether two macro blocks in modes 7 and 3 have vectors of these components.
fn have_own(
    rt: &impl Abort,
    alloc: Global,
    geom: &Geom,
    last: bool,
    coded: &[i8],
    expected: &[i8],
) -> bool {
    let flags = vec![in alloc; true; geom.blocks() as usize];
    let mut flags = flags.expect(rt, "no memory");
    assert!(rt; flags.len() > 2);
    flags[2] = last;
    let bytes = packet(rt, alloc, coded);
    let vectors = read(
        rt,
        alloc,
        &mut BitReader::new(&bytes),
        geom,
        &flags,
        &[7, 3],
    );
    is(&vectors, expected)
}

#[test]
fn each_luma_block_has_its_own_vector_and_chroma_has_means(rt: HostRuntime) {
    for &(pf, last, coded, expected) in &OWN {
        let geom = frame(&rt, rt.alloc(), 2, 1, pf);
        let same = have_own(&rt, rt.alloc(), &geom, last, coded, expected);
        holds(&rt, same, &pf);
    }
}

// Whether bytes end before the vectors of one macro block in mode 7 do.
fn end_early(rt: &impl Abort, alloc: Global, geom: &Geom, bytes: &[u8]) -> bool {
    let mut r = BitReader::new(bytes);
    read(rt, alloc, &mut r, geom, &[true; 6], &[7]) == Err(PacketFault::Ended)
}

#[test]
fn vectors_end_early_at_each_cut(rt: HostRuntime) {
    let geom = frame(&rt, rt.alloc(), 1, 1, 0);
    let bytes = packet(&rt, rt.alloc(), &[1, 2, 3, 4, 5, 6, 7, 8]);
    assert_eq!(rt; bytes.len(), 7);
    for cut in 0..7usize {
        let refused = end_early(&rt, rt.alloc(), &geom, &bytes.as_slice()[..cut]);
        holds(&rt, refused, &cut);
    }
}

// The next of a row of numbers below 65,536 that look random.
fn next(seed: &mut u32) -> u32 {
    *seed = seed.wrapping_mul(1_664_525).wrapping_add(1_013_904_223);
    *seed >> 16
}

// Bytes that look random, the first of them at least 128: schemes 4 to 7 have no list of their own that could be refused.
fn drawn_bytes(rt: &impl Abort, alloc: Global, count: usize, seed: &mut u32) -> Vec<u8> {
    let mut bytes = vec![in alloc; 0u8; count].expect(rt, "no memory");
    for byte in bytes.iter_mut() {
        *byte = (next(seed) % 256) as u8;
    }
    if let Some(first) = bytes.first_mut() {
        *first = 128 + *first % 128;
    }
    bytes
}

// Flags that look random, three in four of them set.
fn drawn_flags(rt: &impl Abort, alloc: Global, count: usize, seed: &mut u32) -> Vec<bool> {
    let mut flags = vec![in alloc; false; count].expect(rt, "no memory");
    for flag in flags.iter_mut() {
        *flag = next(seed) % 4 != 0;
    }
    flags
}

// Modes that are written are read again.
fn modes_are_read_again(rt: &impl Abort, alloc: Global, geom: &Geom, flags: &[bool], modes: &[u8])
    requires { All (λ mode. mode < 8) modes.now }
{
    assert!(rt; flags.len() == geom.blocks() as usize);
    assert!(rt; modes.len() == geom.macro_blocks() as usize);
    let mut w = BitWriter::new(alloc);
    assert_eq!(rt; write_modes(&mut w, geom, flags, modes), Ok(()));
    let written = w.finish();
    let mut back = Vec::new(alloc);
    let answer = read_modes(&mut BitReader::new(&written), geom, flags, &mut back);
    assert_eq!(rt; answer, Ok(()));
    assert!(rt; back.as_slice() == modes);
}

// Whether vectors that are written are read again.
fn vectors_are_read_again(
    rt: &impl Abort,
    alloc: Global,
    geom: &Geom,
    flags: &[bool],
    modes: &[u8],
    vectors: &[Vector],
) -> bool {
    assert!(rt; flags.len() == geom.blocks() as usize);
    assert!(rt; modes.len() == geom.macro_blocks() as usize);
    assert!(rt; vectors.len() == geom.blocks() as usize);
    let mut w = BitWriter::new(alloc);
    assert_eq!(rt; write_vectors(&mut w, geom, flags, modes, vectors), Ok(()));
    let written = w.finish();
    let back = read(rt, alloc, &mut BitReader::new(&written), geom, flags, modes);
    is(&back, &components(rt, alloc, vectors))
}

// Modes and vectors of any bits, for any flags: written, they are read again.
fn are_read_again(rt: &impl Abort, alloc: Global, geom: &Geom, seed: &mut u32) -> bool {
    let flags = drawn_flags(rt, alloc, geom.blocks() as usize, seed);
    let bytes = drawn_bytes(rt, alloc, 8 + 2 * geom.blocks() as usize, seed);
    assert!(rt; flags.len() == geom.blocks() as usize);
    let mut modes = Vec::new(alloc);
    let mut r = BitReader::new(&bytes);
    if read_modes(&mut r, geom, &flags, &mut modes).is_err() {
        return false;
    }
    modes_are_read_again(rt, alloc, geom, &flags, &modes);
    assert!(rt; modes.len() == geom.macro_blocks() as usize);
    let mut vectors = Vec::new(alloc);
    let answer = read_vectors(&mut r, geom, &flags, &modes, &mut vectors);
    assert_eq!(rt; answer, Ok(()));
    vectors_are_read_again(rt, alloc, geom, &flags, &modes, &vectors)
}

/// Columns, rows and formats of frames, the greatest among them, and how many of each are drawn.
const SHAPES: [(u16, u16, u8, u32); 8] = [
    (1, 1, 0, 16),
    (2, 1, 2, 16),
    (1, 2, 3, 16),
    (3, 3, 0, 16),
    (3, 3, 2, 16),
    (3, 3, 3, 16),
    (65_535, 2, 3, 1),
    (512, 256, 3, 1),
];

#[test]
fn modes_and_vectors_of_any_bits_are_read_again_when_they_were_written(rt: HostRuntime) {
    let mut seed = 7;
    for &(across, upwards, pf, count) in &SHAPES {
        let geom = frame(&rt, rt.alloc(), across, upwards, pf);
        for _ in 0..count {
            let same = are_read_again(&rt, rt.alloc(), &geom, &mut seed);
            holds(&rt, same, &(across, upwards, pf));
        }
    }
}
