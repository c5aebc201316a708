ghost use Rattle.std.specs.Prelude.{◌≡◌, IfOk, length, replicate, true};
ghost use Rattle.vid_geom.specs.CodedOrder.{order_of};
ghost use Rattle.vid_geom.specs.MacroBlocks.{macro_blocks};
ghost use Rattle.thr_frame.specs.CodedFrame.{kinds_of};
ghost use Rattle.vid_plane.specs.Picture.{IsLike};
ghost use Rattle.vid_plane.specs.Frames.{IsFrameOf};
ghost use Rattle.thr_frame.specs.Painted.{AreSealed};

use crate::nearest_values;
use std::alloc::Global;
use std::process::Abort;
use thr_frame::fill_kinds;
use thr_setup::{Setup, import_setup};
use thr_token::Coeffs;
use vid_base::{NoMem, Shape, Vector};
use vid_geom::Geom;
use vid_plane::{Frame, Plane};

/// What the luma of a frame shows: one sample everywhere, or in each block a ramp to the right and upwards.
#[derive(Clone, Copy)]
enum Luma {
    Even(u8),
    Ramp,
}

fn sample(luma: Luma, x: u32, y: u32) -> u8 {
    match luma {
        Luma::Even(sample) => sample,
        Luma::Ramp => 50 + 6 * ((x % 8) as u8) + 7 * ((y % 8) as u8),
    }
}

fn draw(plane: &mut Plane, luma: Luma)
    ensures { IsLike plane.old plane.new }
{
    for y in 0..plane.height() {
        for x in 0..plane.width() {
            plane.set(x, y, sample(luma, x, y));
        }
    }
}

fn drawn(alloc: Global, shape: Shape, luma: Luma) -> Result<Frame, NoMem>
    ensures sized { IfOk result (λ frame. IsFrameOf shape frame) }
    ensures sealed { IfOk result AreSealed }
{
    let mut frame = Frame::new(alloc, shape)?;
    draw(&mut frame.y, luma);
    draw(&mut frame.cb, Luma::Even(128));
    draw(&mut frame.cr, Luma::Even(128));
    frame.seal();
    Ok(frame)
}

/// The target, the previous and the golden frame of one macro block, its mode, and the quantiser index.
#[derive(Clone, Copy)]
struct Case {
    target: Luma,
    prev: Luma,
    golden: Luma,
    mode: u8,
    qi: u8,
}

/// The lists of a frame of which all blocks are coded in one mode, without motion.
#[derive(Drop)]
struct Lists {
    flags: Vec<bool>,
    kinds: Vec<u8>,
    modes: Vec<u8>,
    vectors: Vec<Vector>,
}

fn make_lists(alloc: Global, geom: &Geom, mode: u8) -> Result<Lists, NoMem>
    ensures flags { IfOk result (λ l. l.flags.items ≡ replicate (length (order_of geom.now)) true) }
    ensures kinds { IfOk result (λ l. l.kinds.items ≡ kinds_of geom.now l.modes.items) }
    ensures modes { IfOk result (λ l. length l.modes.items ≡ length (macro_blocks geom.now)) }
    ensures vectors { IfOk result (λ l. length l.vectors.items ≡ length (order_of geom.now)) }
{
    let blocks = geom.blocks() as usize;
    let flags = vec![in alloc; true; blocks]?;
    let modes = vec![in alloc; mode; geom.macro_blocks() as usize]?;
    let vectors = vec![in alloc; Vector { x: 0, y: 0 }; blocks]?;
    let mut kinds = vec![in alloc; 0; blocks]?;
    fill_kinds(geom, &modes, &mut kinds);
    Ok(Lists {
        flags,
        kinds,
        modes,
        vectors,
    })
}

fn room(alloc: Global, geom: &Geom) -> Result<Coeffs, NoMem>
    ensures { IfOk result (λ coeffs. length coeffs.values.items ≡ length (order_of geom.now)) }
{
    let mut coeffs = Coeffs::new(alloc);
    coeffs.values = vec![in alloc; [0; 64]; geom.blocks() as usize]?;
    Ok(coeffs)
}

/// The frames of a case.
#[derive(Drop)]
struct Frames {
    target: Frame,
    prev: Frame,
    golden: Frame,
}

fn draw_all(alloc: Global, shape: Shape, case: &Case) -> Result<Frames, NoMem>
    ensures target { IfOk result (λ f. IsFrameOf shape f.target) }
    ensures prev { IfOk result (λ f. IsFrameOf shape f.prev × AreSealed f.prev) }
    ensures golden { IfOk result (λ f. IsFrameOf shape f.golden × AreSealed f.golden) }
{
    Ok(Frames {
        target: drawn(alloc, shape, case.target)?,
        prev: drawn(alloc, shape, case.prev)?,
        golden: drawn(alloc, shape, case.golden)?,
    })
}

// The coefficients of the blocks, those of luma first.
fn made(alloc: Global, setup: &Setup, case: &Case) -> Result<Coeffs, NoMem> {
    let Some(shape) = Shape::new(1, 1, 0) else {
        return Err(NoMem);
    };
    let geom = Geom::new(alloc, shape)?;
    let frames = draw_all(alloc, geom.shape(), case)?;
    let lists = make_lists(alloc, &geom, case.mode)?;
    let mut coeffs = room(alloc, &geom)?;
    nearest_values(
        &geom,
        setup,
        &frames.target,
        &frames.prev,
        &frames.golden,
        case.qi.min(63),
        &lists.flags,
        &lists.kinds,
        &lists.modes,
        &lists.vectors,
        &mut coeffs,
    );
    Ok(coeffs)
}

/// 128 and no more is predicted in mode 1, the previous frame in mode 0, the golden one in mode 5. The transform of a constant is 32
/// times that constant, and the entries are 32 at index 49 and 68 at index 30 for intra blocks, 32 at index 63 for inter blocks.
const EVEN: [(Case, i16); 6] = [
    (
        Case {
            target: Luma::Even(129),
            prev: Luma::Even(0),
            golden: Luma::Even(0),
            mode: 1,
            qi: 49,
        },
        1,
    ),
    (
        Case {
            target: Luma::Even(129),
            prev: Luma::Even(0),
            golden: Luma::Even(0),
            mode: 1,
            qi: 30,
        },
        0,
    ),
    (
        Case {
            target: Luma::Even(255),
            prev: Luma::Even(0),
            golden: Luma::Even(9),
            mode: 0,
            qi: 63,
        },
        255,
    ),
    (
        Case {
            target: Luma::Even(0),
            prev: Luma::Even(255),
            golden: Luma::Even(9),
            mode: 0,
            qi: 63,
        },
        -255,
    ),
    (
        Case {
            target: Luma::Ramp,
            prev: Luma::Even(0),
            golden: Luma::Ramp,
            mode: 5,
            qi: 63,
        },
        0,
    ),
    (
        Case {
            target: Luma::Ramp,
            prev: Luma::Ramp,
            golden: Luma::Even(0),
            mode: 0,
            qi: 63,
        },
        0,
    ),
];

#[test]
fn what_is_lacking_by_one_number_everywhere_is_coded_by_its_dc_value(rt: HostRuntime) {
    let setup = import_setup(rt.alloc()).expect(&rt, "no memory");
    for (case, dc) in &EVEN {
        let coeffs = made(rt.alloc(), &setup, case).expect(&rt, "no memory");
        let mut luma = [0; 64];
        luma[0] = *dc;
        assert!(rt;
            coeffs.values.as_slice() == [luma, luma, luma, luma, [0; 64], [0; 64]].as_slice(),
            "{dc}"
        );
    }
}

/// Those of the ramp less 128 at index 63, by the transform in floating point, with entries from 8 to 28 behind the first, which is
/// 16.
const RAMP: [i16; 64] = [
    -65, -55, -64, 0, 0, 0, -6, 0, 0, -7, 0, 0, 0, 0, 0, -1, 0, 0, 0, 0, -1, 0, 0, 0, 0, 0, 0, 0,
    0, 0, 0, 0, 0, 0, 0, 0, 0, 0, 0, 0, 0, 0, 0, 0, 0, 0, 0, 0, 0, 0, 0, 0, 0, 0, 0, 0, 0, 0, 0, 0,
    0, 0, 0, 0,
];

#[test]
fn a_ramp_has_the_coefficients_of_its_transform_in_zigzag_order(rt: HostRuntime) {
    let case = Case {
        target: Luma::Ramp,
        prev: Luma::Even(0),
        golden: Luma::Even(0),
        mode: 1,
        qi: 63,
    };
    let setup = import_setup(rt.alloc()).expect(&rt, "no memory");
    let coeffs = made(rt.alloc(), &setup, &case).expect(&rt, "no memory");
    assert!(rt; coeffs.values.as_slice() == [RAMP, RAMP, RAMP, RAMP, [0; 64], [0; 64]].as_slice());
}
