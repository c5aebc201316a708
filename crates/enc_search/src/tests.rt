ghost use Rattle.std.specs.Prelude.{IfOk};
ghost use Rattle.vid_plane.specs.Picture.{IsLike};
ghost use Rattle.vid_plane.specs.Frames.{IsFrameOf};
ghost use Rattle.thr_frame.specs.Painted.{AreSealed};

use crate::{Choice, choose};
use std::alloc::Global;
use std::process::Abort;
use vid_base::{NoMem, Shape, Vector};
use vid_geom::Geom;
use vid_plane::{Frame, Plane};

/// What the luma of a frame shows: by column alone, and 128 or 0 in each sample.
#[derive(Clone, Copy)]
enum Luma {
    Slope,
    SlopeMoved,
    Waves,
    WavesMoved,
    WavesMixed,
    Grey,
    Black,
}

fn wave(x: u32) -> u8 {
    (x.wrapping_mul(x) % 251) as u8
}

fn sample(luma: Luma, x: u32) -> u8 {
    let column = x % 16;
    match luma {
        Luma::Slope => (10 * column) as u8,
        Luma::SlopeMoved => (10 * (column + 2).min(15)) as u8,
        Luma::Waves => wave(x),
        Luma::WavesMoved => wave(x.saturating_sub(3)),
        Luma::WavesMixed => wave(if x / 16 == 1 {
            x + 2
        } else {
            x.saturating_sub(3)
        }),
        Luma::Grey => 128,
        Luma::Black => 0,
    }
}

fn draw(plane: &mut Plane, luma: Luma)
    ensures { IsLike plane.old plane.new }
{
    for y in 0..plane.height() {
        for x in 0..plane.width() {
            plane.set(x, y, sample(luma, x));
        }
    }
}

fn drawn(alloc: Global, shape: Shape, luma: Luma) -> Result<Frame, NoMem>
    ensures sized { IfOk result (λ frame. IsFrameOf shape frame) }
    ensures sealed { IfOk result AreSealed }
{
    let mut frame = Frame::new(alloc, shape)?;
    draw(&mut frame.y, luma);
    draw(&mut frame.cb, Luma::Grey);
    draw(&mut frame.cr, Luma::Grey);
    frame.seal();
    Ok(frame)
}

// The choice for a target, a previous and a golden frame of so many macro blocks in a row.
fn chosen(
    alloc: Global,
    columns: u16,
    target: Luma,
    prev: Luma,
    golden: Luma,
) -> Result<Choice, NoMem> {
    let Some(shape) = Shape::new(columns, 1, 0) else {
        return Err(NoMem);
    };
    let geom = Geom::new(alloc, shape)?;
    let target = drawn(alloc, shape, target)?;
    let prev = drawn(alloc, shape, prev)?;
    let golden = drawn(alloc, shape, golden)?;
    choose(alloc, &geom, &target, &prev, &golden)
}

/// Target, previous and golden frame of one macro block; its mode, and the vector of its blocks.
const ONE: [(Luma, Luma, Luma, u8, Vector); 6] = [
    (
        Luma::SlopeMoved,
        Luma::Slope,
        Luma::Black,
        2,
        Vector { x: 4, y: 0 },
    ),
    (
        Luma::Slope,
        Luma::Black,
        Luma::Slope,
        5,
        Vector { x: 0, y: 0 },
    ),
    (
        Luma::Grey,
        Luma::Slope,
        Luma::Black,
        1,
        Vector { x: 0, y: 0 },
    ),
    (
        Luma::Slope,
        Luma::Slope,
        Luma::Black,
        0,
        Vector { x: 0, y: 0 },
    ),
    (
        Luma::Slope,
        Luma::Slope,
        Luma::Slope,
        0,
        Vector { x: 0, y: 0 },
    ),
    (Luma::Grey, Luma::Grey, Luma::Grey, 0, Vector { x: 0, y: 0 }),
];

#[test]
fn a_macro_block_has_the_mode_and_the_vector_that_predict_it_best(rt: HostRuntime) {
    for (target, prev, golden, mode, vector) in ONE {
        let choice = chosen(rt.alloc(), 1, target, prev, golden).expect(&rt, "no memory");
        assert!(rt; choice.modes.as_slice() == [mode].as_slice(), "{mode}");
        assert!(rt;
            choice.vectors.as_slice() == [vector; 6].as_slice(),
            "{mode}"
        );
    }
}

#[test]
fn vectors_that_are_remembered_are_not_coded_again(rt: HostRuntime) {
    let same = chosen(rt.alloc(), 2, Luma::WavesMoved, Luma::Waves, Luma::Black).expect(
        &rt,
        "no memory",
    );
    assert!(rt; same.modes.as_slice() == [2u8, 3].as_slice());
    assert!(rt; same.vectors.as_slice() == [Vector { x: -6, y: 0 }; 12].as_slice());
    let mixed = chosen(rt.alloc(), 3, Luma::WavesMixed, Luma::Waves, Luma::Black).expect(
        &rt,
        "no memory",
    );
    assert!(rt; mixed.modes.as_slice() == [2u8, 2, 4].as_slice());
}
