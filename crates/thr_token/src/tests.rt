ghost use Rattle.std.specs.Prelude.{◌≡◌, length};
ghost use Rattle.vid_geom.specs.CodedOrder.{order_of};

use crate::*;
use std::alloc::Global;
use std::process::Abort;
use std::test::Fail;
use thr_huff::{Forest, read_forest};
use vid_base::{BitReader, BitWriter, NoMem, PacketFault, Refusal, Shape};
use vid_geom::Geom;

/// A number and how many bits it has.
type Field = (u32, u32);

/// A value that is not 0: its block, its place, and the value.
type Value = (usize, usize, i16);

// The bytes of fields one behind the other, each of at most 12 bits.
fn bytes_of(alloc: Global, fields: &[Field]) -> Result<Vec<u8>, NoMem> {
    let mut w = BitWriter::new(alloc);
    for (number, width) in fields {
        let width = (*width).min(12);
        w.put(*number % (1 << width), width)?;
    }
    Ok(w.finish())
}

// The bits of a tree in which token t has the 5-bit code that is less than t by a shift.
fn put_tree(w: &mut BitWriter, shift: u32) -> Result<(), NoMem> {
    for code in 0..32u32 {
        let levels = if code == 0 { 5 } else { code.trailing_zeros() };
        w.put(0, levels)?;
        w.put(1, 1)?;
        w.put(code.wrapping_add(shift) % 32, 5)?;
    }
    Ok(())
}

// Trees of all tokens with codes of 5 bits. Under number 0 a code is the token, under number 1 it is one less, and under
// number 2 it is less by the group; the others are as number 0.
fn forest(alloc: Global) -> Result<Forest, Fail> {
    let mut w = BitWriter::new(alloc);
    for hti in 0..80u32 {
        let shift = match hti % 16 {
            1 => 1,
            2 => hti / 16,
            _ => 0,
        };
        put_tree(&mut w, shift)?;
    }
    let bytes = w.finish();
    Ok(read_forest(alloc, &mut BitReader::new(&bytes))?)
}

// How many bits are left, of at most 64.
fn left(r: &mut BitReader) -> usize {
    let mut count = 0usize;
    for _ in 0..64 {
        if r.bit().is_ok() {
            count = count.saturating_add(1);
        }
    }
    count
}

/// What a call read, and how many bits it left.
#[derive(Drop)]
struct Outcome {
    coeffs: Coeffs,
    left: usize,
}

// By the call over lists.
fn by_lists(
    alloc: Global,
    forest: &Forest,
    geom: &Geom,
    flags: &[bool],
    bytes: &[u8],
) -> Result<Result<Outcome, PacketFault>, NoMem>
    requires { length flags.now ≡ length (order_of geom.now) }
{
    let mut r = BitReader::new(bytes);
    let mut coeffs = Coeffs::new(alloc);
    match read_tokens(&mut r, forest, geom, flags, &mut coeffs) {
        Ok(()) => Ok(Ok(Outcome {
            coeffs,
            left: left(&mut r),
        })),
        Err(Refusal::Bad(fault)) => Ok(Err(fault)),
        Err(Refusal::NoMem) => Err(NoMem),
    }
}

// By the call that lends a byte a block.
fn by_bytes(
    alloc: Global,
    forest: &Forest,
    geom: &Geom,
    flags: &[bool],
    bytes: &[u8],
) -> Result<Result<Outcome, PacketFault>, NoMem>
    requires { length flags.now ≡ length (order_of geom.now) }
{
    let mut coeffs = Coeffs::new(alloc);
    coeffs.values.resize(flags.len(), [7; 64])?;
    coeffs.counts.resize(flags.len(), 7)?;
    let mut work = Vec::new(alloc);
    work.resize(flags.len(), 7)?;
    let mut r = BitReader::new(bytes);
    let values = &mut coeffs.values;
    let counts = &mut coeffs.counts;
    if let Err(fault) = read_tokens_in(&mut r, forest, geom, flags, values, counts, &mut work) {
        return Ok(Err(fault));
    }
    Ok(Ok(Outcome {
        coeffs,
        left: left(&mut r),
    }))
}

// By the call that lends a word a block.
fn by_words(
    alloc: Global,
    forest: &Forest,
    geom: &Geom,
    flags: &[bool],
    bytes: &[u8],
) -> Result<Result<Outcome, PacketFault>, NoMem>
    requires { length flags.now ≡ length (order_of geom.now) }
{
    let mut coeffs = Coeffs::new(alloc);
    coeffs.values.resize(flags.len(), [0; 64])?;
    coeffs.counts.resize(flags.len(), 7)?;
    let mut list = Vec::new(alloc);
    list.resize(flags.len(), 7)?;
    let mut r = BitReader::new(bytes);
    let values = &mut coeffs.values;
    let counts = &mut coeffs.counts;
    if let Err(fault) = read_tokens_with(&mut r, forest, geom, flags, values, counts, &mut list) {
        return Ok(Err(fault));
    }
    Ok(Ok(Outcome {
        coeffs,
        left: left(&mut r),
    }))
}

// Whether two calls answered alike.
fn agree(a: &Result<Outcome, PacketFault>, b: &Result<Outcome, PacketFault>) -> bool {
    match (a, b) {
        (Ok(a), Ok(b)) => {
            a.left == b.left
                && a.coeffs.values.as_slice() == b.coeffs.values.as_slice()
                && a.coeffs.counts.as_slice() == b.coeffs.counts.as_slice()
        }
        (Err(a), Err(b)) => *a == *b,
        _ => false,
    }
}

// By the call that keeps no coefficient: how many bits it left.
fn checked(forest: &Forest, geom: &Geom, flags: &[bool], bytes: &[u8]) -> Result<usize, PacketFault>
    requires { length flags.now ≡ length (order_of geom.now) }
{
    let mut r = BitReader::new(bytes);
    check_tokens(&mut r, forest, geom, flags)?;
    Ok(left(&mut r))
}

// Whether it left as many bits as a call that reads, or has its fault.
fn passes(a: &Result<Outcome, PacketFault>, left: Result<usize, PacketFault>) -> bool {
    match (a, left) {
        (Ok(a), Ok(left)) => a.left == left,
        (Err(a), Err(fault)) => *a == fault,
        _ => false,
    }
}

// The coefficients of a macro block in 4:2:0, whose six blocks are coded but for those from one on, or the fault. The four
// calls have to answer alike.
fn read(
    rt: &impl Abort,
    alloc: Global,
    coded: usize,
    bytes: &[u8],
) -> Result<Result<Outcome, PacketFault>, Fail> {
    let forest = forest(alloc)?;
    let shape = Shape::new(1, 1, 0).expect(rt, "no shape");
    let geom = Geom::new(alloc, shape).expect(rt, "no memory");
    let mut flags = Vec::new(alloc);
    flags.resize(geom.blocks() as usize, true)?;
    for b in coded..flags.len() {
        flags[b] = false;
    }
    let outcome = by_lists(alloc, &forest, &geom, &flags, bytes)?;
    let of_bytes = by_bytes(alloc, &forest, &geom, &flags, bytes)?;
    let of_words = by_words(alloc, &forest, &geom, &flags, bytes)?;
    assert!(rt; agree(&outcome, &of_bytes) && agree(&outcome, &of_words));
    assert!(rt; passes(&outcome, checked(&forest, &geom, &flags, bytes)));
    Ok(outcome)
}

// Whether the values are these and all others 0.
fn holds(coeffs: &Coeffs, values: &[Value]) -> bool {
    for (b, block) in coeffs.values.iter().enumerate() {
        for (place, value) in block.iter().enumerate() {
            let want = values
                .iter()
                .find(|known| known.0 == b && known.1 == place)
                .map_or(0, |known| known.2);
            if *value != want {
                return false;
            }
        }
    }
    true
}

/// A token, its further bits, and how many they are.
type Token = (u32, u32, u32);

// The packet of the tokens of one block under tables of number 0: the second pair of numbers stands behind the first token.
fn alone(alloc: Global, tokens: &[Token]) -> Result<Vec<u8>, NoMem> {
    let mut fields = Vec::new(alloc);
    fields.push((0, 8))?;
    for (at, (token, extra, width)) in tokens.iter().enumerate() {
        fields.push((*token, 5))?;
        fields.push((*extra, *width))?;
        if at == 0 {
            fields.push((0, 8))?;
        }
    }
    bytes_of(alloc, &fields)
}

/// Tokens of one block, its values that are not 0, and its count.
const SAID: [(&[Token], &[Value], u8); 32] = [
    (&[(9, 0, 0), (0, 0, 0)], &[(0, 0, 1)], 1),
    (&[(10, 0, 0), (0, 0, 0)], &[(0, 0, -1)], 1),
    (&[(11, 0, 0), (0, 0, 0)], &[(0, 0, 2)], 1),
    (&[(12, 0, 0), (0, 0, 0)], &[(0, 0, -2)], 1),
    (&[(13, 0, 1), (0, 0, 0)], &[(0, 0, 3)], 1),
    (&[(14, 1, 1), (0, 0, 0)], &[(0, 0, -4)], 1),
    (&[(15, 0, 1), (0, 0, 0)], &[(0, 0, 5)], 1),
    (&[(16, 1, 1), (0, 0, 0)], &[(0, 0, -6)], 1),
    (&[(17, 1, 2), (0, 0, 0)], &[(0, 0, 8)], 1),
    (&[(18, 4, 3), (0, 0, 0)], &[(0, 0, -9)], 1),
    (&[(19, 7, 4), (0, 0, 0)], &[(0, 0, 20)], 1),
    (&[(20, 31, 5), (0, 0, 0)], &[(0, 0, -36)], 1),
    (&[(21, 0, 6), (0, 0, 0)], &[(0, 0, 37)], 1),
    (&[(22, 511, 10), (0, 0, 0)], &[(0, 0, 580)], 1),
    (&[(22, 1_023, 10), (0, 0, 0)], &[(0, 0, -580)], 1),
    (&[(23, 1, 1), (0, 0, 0)], &[(0, 1, -1)], 2),
    (&[(27, 0, 1), (0, 0, 0)], &[(0, 5, 1)], 6),
    (&[(28, 5, 3), (0, 0, 0)], &[(0, 7, -1)], 8),
    (&[(29, 7, 4), (0, 0, 0)], &[(0, 17, 1)], 18),
    (&[(30, 1, 2), (0, 0, 0)], &[(0, 1, 3)], 2),
    (&[(31, 1, 3), (0, 0, 0)], &[(0, 3, 2)], 4),
    (&[(31, 6, 3), (0, 0, 0)], &[(0, 2, -3)], 3),
    // Ends, and zeros that reach the last place.
    (&[(0, 0, 0)], &[], 0),
    (&[(5, 15, 4)], &[], 0),
    (&[(6, 0, 12)], &[], 0),
    (&[(6, 4_095, 12)], &[], 0),
    (&[(8, 63, 6)], &[], 0),
    (&[(8, 62, 6), (7, 0, 3)], &[], 63),
    (&[(7, 7, 3), (9, 0, 0), (0, 0, 0)], &[(0, 8, 1)], 9),
    (&[(8, 62, 6), (10, 0, 0)], &[(0, 63, -1)], 63),
    (&[(8, 61, 6), (30, 0, 2)], &[(0, 63, 2)], 62),
    (&[(12, 0, 0), (8, 62, 6)], &[(0, 0, -2)], 1),
];

/// Tokens of one block that pass its last place, or whose bits end.
const FAULTS: [(&[Token], PacketFault); 7] = [
    (&[(9, 0, 0), (8, 63, 6)], PacketFault::TokenPastEnd),
    (&[(8, 62, 6), (7, 1, 3)], PacketFault::TokenPastEnd),
    (&[(8, 62, 6), (23, 0, 1)], PacketFault::TokenPastEnd),
    (&[(8, 60, 6), (31, 1, 3)], PacketFault::TokenPastEnd),
    (&[(8, 62, 6), (29, 0, 0)], PacketFault::Ended),
    (&[(9, 0, 0), (22, 0, 5)], PacketFault::Ended),
    (&[], PacketFault::Ended),
];

#[test]
fn tokens_of_one_block_have_these_values_and_faults(rt: HostRuntime) -> Result<(), Fail> {
    for (tokens, values, count) in SAID {
        let bytes = alone(rt.alloc(), tokens)?;
        let Outcome { coeffs, left } = read(&rt, rt.alloc(), 1, &bytes)?.expect(&rt, "a fault");
        assert!(rt; holds(&coeffs, values), "count {count}");
        assert!(rt; coeffs.counts.as_slice() == [count, 0, 0, 0, 0, 0].as_slice());
        assert!(rt; left < 8, "count {count}");
    }
    for (tokens, fault) in FAULTS {
        let bytes = alone(rt.alloc(), tokens)?;
        let answer = read(&rt, rt.alloc(), 1, &bytes)?;
        assert!(rt; answer.err() == Some(fault), "{} tokens", tokens.len());
    }
    Ok(())
}

/// Fields of the tokens of a frame, how many of its blocks are coded, the values that are not 0, and the counts.
const FRAMES: [(&[Field], usize, &[Value], [u8; 6]); 8] = [
    // One run of all blocks at place 0, and one value before such a run at place 1.
    (&[(0, 8), (3, 5), (2, 2), (0, 8)], 6, &[], [0; 6]),
    (
        &[(0, 8), (9, 5), (3, 5), (1, 2), (0, 8), (0, 5)],
        6,
        &[(0, 0, 1)],
        [1, 0, 0, 0, 0, 0],
    ),
    // No block is coded, and the tables before place 1 are read.
    (&[(0, 8), (0, 8)], 0, &[], [0; 6]),
    // A run across two places, and a run of all that are left.
    (
        &[
            (0, 8),
            (9, 5),
            (10, 5),
            (9, 5),
            (9, 5),
            (9, 5),
            (2, 5),
            (0, 8),
            (6, 5),
            (0, 12),
        ],
        6,
        &[(0, 0, 1), (1, 0, -1), (2, 0, 1), (3, 0, 1), (4, 0, 1)],
        [1, 1, 1, 1, 1, 0],
    ),
    // A run of all counts a block that has come further.
    (
        &[(0, 8), (9, 5), (6, 5), (0, 12), (0, 8)],
        6,
        &[(0, 0, 1)],
        [1, 0, 0, 0, 0, 0],
    ),
    // Chroma takes the second number.
    (
        &[
            (0, 4),
            (1, 4),
            (9, 5),
            (9, 5),
            (9, 5),
            (9, 5),
            (9, 5),
            (9, 5),
            (1, 4),
            (0, 4),
            (4, 5),
            (0, 4),
        ],
        6,
        &[
            (0, 0, 1),
            (1, 0, 1),
            (2, 0, 1),
            (3, 0, 1),
            (4, 0, -1),
            (5, 0, -1),
        ],
        [1, 1, 1, 1, 1, 1],
    ),
    // A block that its zeros have ended is not counted.
    (
        &[(0, 8), (8, 5), (63, 6), (3, 5), (1, 2), (0, 8)],
        6,
        &[],
        [0; 6],
    ),
    // A value at the first and the last place of each group, whose trees differ.
    (
        &[
            (2, 4),
            (0, 4),
            (9, 5),
            (2, 4),
            (0, 4),
            (8, 5),
            (6, 5),
            (2, 3),
            (8, 5),
            (7, 5),
            (5, 5),
            (6, 3),
            (7, 5),
            (6, 5),
            (5, 5),
            (10, 6),
            (6, 5),
            (5, 5),
            (4, 5),
            (33, 6),
            (5, 5),
        ],
        1,
        &[
            (0, 0, 1),
            (0, 1, 1),
            (0, 5, 1),
            (0, 6, 1),
            (0, 14, 1),
            (0, 15, 1),
            (0, 27, 1),
            (0, 28, 1),
            (0, 63, 1),
        ],
        [63, 0, 0, 0, 0, 0],
    ),
];

#[test]
fn runs_go_on_across_blocks_and_places_and_trees_go_by_plane_and_group(
    rt: HostRuntime,
) -> Result<(), Fail> {
    for (fields, coded, values, counts) in FRAMES {
        let bytes = bytes_of(rt.alloc(), fields)?;
        let Outcome { coeffs, left } = read(&rt, rt.alloc(), coded, &bytes)?.expect(&rt, "a fault");
        assert!(rt; holds(&coeffs, values), "{} fields", fields.len());
        assert!(rt;
            coeffs.counts.as_slice() == counts.as_slice(),
            "{} fields",
            fields.len()
        );
        assert!(rt; left < 8, "{} fields", fields.len());
        let cut = read(&rt, rt.alloc(), coded, &bytes[..bytes.len() / 2])?;
        assert!(rt;
            cut.err() == Some(PacketFault::Ended),
            "{} fields",
            fields.len()
        );
    }
    Ok(())
}
