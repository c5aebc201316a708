ghost use Rattle.std.specs.Prelude.{◌≡◌, IfOk, length};
ghost use Rattle.vid_geom.specs.CodedOrder.{order_of};

use crate::*;
use std::alloc::{AllocError, Global};
use std::process::Abort;
use vid_base::{BitReader, BitWriter, PacketFault, Refusal, Shape};
use vid_geom::Geom;

// The layout of a frame, from its columns and rows of macro blocks and its pixel format.
fn layout(rt: &impl Abort, alloc: Global, columns: u16, rows: u16, format: u8) -> Geom {
    let shape = Shape::new(columns, rows, format).expect(rt, "no shape");
    Geom::new(alloc, shape).expect(rt, "no memory")
}

// What both calls read: the flags of a frame.
fn read(alloc: Global, geom: &Geom, bytes: &[u8]) -> Result<Vec<bool>, Refusal> {
    let mut flags = Vec::new(alloc);
    read_flags(&mut BitReader::new(bytes), geom, &mut flags)?;
    Ok(flags)
}

fn read_in(alloc: Global, geom: &Geom, bytes: &[u8]) -> Result<Vec<bool>, Refusal> {
    let blocks = geom.blocks() as usize;
    let mut flags = vec![in alloc; false; blocks]?;
    let mut work = vec![in alloc; true; 2 * geom.superblocks() as usize + blocks]?;
    read_flags_in(&mut BitReader::new(bytes), geom, &mut flags, &mut work)?;
    Ok(flags)
}

// The flags, which both calls are to read, as they are written.
fn written(alloc: Global, geom: &Geom, flags: &[bool]) -> Result<Vec<u8>, Refusal>
    requires { length flags.now ≡ length (order_of geom.now) }
{
    let mut w = BitWriter::new(alloc);
    write_flags(&mut w, geom, flags)?;
    Ok(w.finish())
}

// Whether both calls read these flags.
fn has_flags(alloc: Global, geom: &Geom, bytes: &[u8], flags: &[bool]) -> Result<bool, Refusal> {
    let one = read(alloc, geom, bytes)?;
    let other = read_in(alloc, geom, bytes)?;
    Ok(one.as_slice() == flags && other.as_slice() == flags)
}

// Whether both calls answer this fault.
fn has_fault(alloc: Global, geom: &Geom, bytes: &[u8], fault: PacketFault) -> bool {
    read(alloc, geom, bytes) == Err(Refusal::Bad(fault))
        && read_in(alloc, geom, bytes) == Err(Refusal::Bad(fault))
}

/// The flags of a macro block in 4:2:0: its luma is partly coded, its Cb coded and its Cr not.
const FLAGS: [bool; 6] = [true, false, true, true, true, false];

#[test]
fn the_flags_of_a_macro_block_have_fifteen_bits(rt: HostRuntime) {
    let geom = layout(&rt, rt.alloc(), 1, 1, 0);
    assert!(rt; geom.blocks() == 6);
    let bytes = written(rt.alloc(), &geom, &FLAGS).expect(&rt, "no memory");
    assert!(rt; bytes.as_slice() == [0xa4, 0x82].as_slice());
    assert!(rt; has_flags(rt.alloc(), &geom, &bytes, &FLAGS) == Ok(true));
    let mut r = BitReader::new(&bytes);
    let mut flags = Vec::new(rt.alloc());
    assert!(rt; read_flags(&mut r, &geom, &mut flags) == Ok(()));
    assert!(rt; r.left() == 1);
}

// A flag for each block; of 65,536 so many differ from the one before.
fn drawn_flags(alloc: Global, blocks: u32, changes: u32) -> Result<Vec<bool>, AllocError>
    ensures { IfOk result (λ flags. length flags.items ≡ blocks) }
{
    let mut flags = vec![in alloc; false; blocks as usize]?;
    let mut state = changes;
    let mut value = true;
    for at in 0..flags.len() {
        state = state.wrapping_mul(1_664_525).wrapping_add(1_013_904_223);
        value = value != ((state >> 16) < changes);
        flags[at] = value;
    }
    Ok(flags)
}

// Whether drawn flags of a frame come back, and what is cut off their bytes is missed.
fn comes_back_whole(alloc: Global, geom: &Geom, changes: u32) -> Result<bool, Refusal> {
    let flags = drawn_flags(alloc, geom.blocks(), changes)?;
    let bytes = written(alloc, geom, &flags)?;
    for n in 0..bytes.len() {
        if !has_fault(alloc, geom, &bytes[..n], PacketFault::Ended) {
            return Ok(false);
        }
    }
    has_flags(alloc, geom, &bytes, &flags)
}

#[test]
fn flags_of_twelve_shapes_are_written_and_read_and_end_where_their_bytes_are_cut(rt: HostRuntime) {
    for (columns, rows) in [(1, 1), (2, 3), (4, 1), (5, 3)] {
        for format in [0, 2, 3] {
            let geom = layout(&rt, rt.alloc(), columns, rows, format);
            for changes in [65_536, 30_000, 10_000, 2_000, 0] {
                let answer = comes_back_whole(rt.alloc(), &geom, changes);
                assert!(rt;
                    answer == Ok(true),
                    "{columns} by {rows} of format {format}"
                );
            }
        }
    }
}

/// Frames of the most blocks, and how many flags of 65,536 differ from the one before: with none, the strings have runs of
/// the longest kind.
const GREATEST: [(u16, u16, u32); 2] = [(65_535, 2, 30_000), (512, 256, 0)];

// Whether drawn flags of a frame come back.
fn comes_back_once(alloc: Global, geom: &Geom, changes: u32) -> Result<bool, Refusal> {
    let flags = drawn_flags(alloc, geom.blocks(), changes)?;
    let bytes = written(alloc, geom, &flags)?;
    has_flags(alloc, geom, &bytes, &flags)
}

#[test]
fn the_flags_of_the_greatest_frames_are_written_and_read(rt: HostRuntime) {
    for (columns, rows, changes) in GREATEST {
        let geom = layout(&rt, rt.alloc(), columns, rows, 3);
        assert!(rt;
            comes_back_once(rt.alloc(), &geom, changes) == Ok(true),
            "{columns}"
        );
    }
}

/// Bytes of which one of the three strings of a macro block in 4:2:0 has a run that is too long.
const TOO_LONG: [&[u8]; 3] = [&[0xe0], &[0x5e, 0x00], &[0xa4, 0xe0]];

#[test]
fn a_run_may_not_pass_the_end_of_any_of_the_three_strings(rt: HostRuntime) {
    let geom = layout(&rt, rt.alloc(), 1, 1, 0);
    for bytes in TOO_LONG {
        assert!(rt; has_fault(rt.alloc(), &geom, bytes, PacketFault::RunTooLong));
    }
}
