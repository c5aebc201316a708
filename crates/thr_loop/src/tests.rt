ghost use Rattle.std.specs.Prelude.{◌≡◌, IfOk, length};
ghost use Rattle.vid_geom.specs.CodedOrder.{order_of};
ghost use Rattle.vid_plane.specs.Picture.{IsLike};
ghost use Rattle.vid_plane.specs.Frames.{IsFrameOf};

mod digests;

use crate::filter;
use digests::DIGESTS;
use std::alloc::{AllocError, Global};
use std::process::Abort;
use std::test::Fail;
use vid_base::Shape;
use vid_geom::{Block, Geom};
use vid_plane::{Frame, Plane};

/// Macro blocks of a row and of a column, and the format.
static SHAPES: [(u16, u16, u8); 4] = [(2, 2, 0), (3, 1, 2), (1, 2, 3), (2, 3, 0)];

static LIMITS: [u8; 9] = [1, 2, 5, 10, 30, 63, 64, 127, 0];

/// The number of a frame whose samples are 10 in the first eight columns and 20 behind them.
const HALVES: u32 = u32::MAX;

// A number for a frame, a plane and a place.
fn mixed(frame: u32, plane: u32, x: u32, y: u32) -> u32 {
    let h = frame
        .wrapping_mul(2_654_435_761)
        .wrapping_add(plane.wrapping_mul(2_246_822_507))
        .wrapping_add(y.wrapping_mul(3_266_489_917))
        .wrapping_add(x.wrapping_mul(668_265_263));
    let k = (h ^ (h >> 15)).wrapping_mul(739_982_445);
    k ^ (k >> 12)
}

// Draws a sample: of noise, of the ends of the range alone, of a slope, or of even blocks, as the frame's number says.
fn drawn(frame: u32, plane: u32, x: u32, y: u32) -> u8 {
    if frame == HALVES {
        return if x < 8 { 10 } else { 20 };
    }
    let h = mixed(frame, plane, x, y);
    match frame / 4 % 4 {
        0 => (h >> 24) as u8,
        1 => if h >> 31 == 1 { 255 } else { 0 },
        2 => (x
            .wrapping_mul(3)
            .wrapping_add(y.wrapping_mul(2))
            .wrapping_add(h >> 29)
            & 255) as u8,
        _ => (100u32.wrapping_add(
            mixed(frame, plane, x / 8, (y / 8).wrapping_add(1000)).wrapping_mul(4) % 64,
        ) & 255) as u8,
    }
}

fn is_drawn_coded(frame: u32, block: Block) -> bool {
    let h = mixed(frame, u32::from(block.pli) + 3, block.col, block.row) >> 24;
    match frame % 3 {
        0 => true,
        1 => h < 128,
        _ => h < 40,
    }
}

fn draw(plane: &mut Plane, frame: u32, pli: u32)
    ensures { IsLike plane.old plane.new }
{
    for y in 0..plane.height() {
        for x in 0..plane.width() {
            plane.set(x, y, drawn(frame, pli, x, y));
        }
    }
}

fn drawn_flags(alloc: Global, geom: &Geom, frame: u32) -> Result<Vec<bool>, AllocError>
    ensures { IfOk result (λ flags. length flags.items ≡ length (order_of geom.now)) }
{
    let mut flags = Vec::new(alloc);
    for place in 0..geom.blocks() {
        flags.push(is_drawn_coded(frame, geom.at(place)))?;
    }
    Ok(flags)
}

fn drawn_frame(alloc: Global, shape: Shape, number: u32) -> Result<Frame, vid_base::NoMem>
    ensures { IfOk result (λ frame. IsFrameOf shape frame) }
{
    let mut frame = Frame::new(alloc, shape)?;
    draw(&mut frame.y, number, 0);
    draw(&mut frame.cb, number, 1);
    draw(&mut frame.cr, number, 2);
    Ok(frame)
}

fn digest(mut sum: u32, plane: &Plane) -> u32 {
    for y in 0..plane.height() {
        for sample in plane.row(y) {
            sum = sum.wrapping_mul(16_777_619) ^ u32::from(*sample);
        }
    }
    sum
}

fn filtered_digest(rt: &impl Abort, alloc: Global, number: u32) -> Result<u32, Fail> {
    let (fmbw, fmbh, pf) = SHAPES[number as usize % 4];
    let shape = Shape::new(fmbw, fmbh, pf).expect(rt, "no shape");
    let geom = Geom::new(alloc, shape)?;
    let mut frame = drawn_frame(alloc, shape, number)?;
    let flags = drawn_flags(alloc, &geom, number)?;
    let limit = LIMITS[number as usize % 9];
    assert!(rt; limit < 128);
    filter(&mut frame, &geom, &flags, limit);
    Ok(digest(digest(digest(0, &frame.y), &frame.cb), &frame.cr))
}

#[test]
fn libtheora_filters_frames_alike(rt: HostRuntime) -> Result<(), Fail> {
    for (number, wanted) in DIGESTS.iter().enumerate() {
        assert_eq!(rt;
            (number, filtered_digest(&rt, rt.alloc(), number as u32)?),
            (number, *wanted)
        );
    }
    Ok(())
}

/// Limits, and what is left of a line 10 10 20 20 across an edge.
const ROWS: [(u8, [u8; 4]); 3] = [
    (10, [10, 13, 17, 20]),
    (2, [10, 11, 19, 20]),
    (1, [10, 10, 20, 20]),
];

fn filtered_halves(rt: &impl Abort, alloc: Global, limit: u8) -> Result<[u8; 4], Fail> {
    let shape = Shape::new(1, 1, 0).expect(rt, "no shape");
    let geom = Geom::new(alloc, shape)?;
    let mut frame = drawn_frame(alloc, shape, HALVES)?;
    let flags = drawn_flags(alloc, &geom, HALVES)?;
    assert!(rt; limit < 128);
    filter(&mut frame, &geom, &flags, limit);
    assert!(rt; frame.y.width() == 16);
    assert!(rt; frame.y.height() == 16);
    Ok(frame.y.four(6, 0))
}

#[test]
fn a_step_of_ten_is_softened_as_far_as_the_limit_lets_it(rt: HostRuntime) -> Result<(), Fail> {
    for (limit, wanted) in ROWS {
        assert_eq!(rt;
            (limit, filtered_halves(&rt, rt.alloc(), limit)?),
            (limit, wanted)
        );
    }
    Ok(())
}
