ghost use Rattle.std.specs.Prelude.{◌≡◌, true};
ghost use Rattle.thr_dc.specs.Frames.{IsWithin};

use crate::change::Change;
use crate::predictor::from_neighbours;
use crate::*;
use std::alloc::{AllocError, Global};
use std::process::Abort;
use std::test::Fail;
use thr_token::Coeffs;
use vid_base::Shape;
use vid_geom::{Block, Geom};

/// Values to the left, to the lower left, below and to the lower right, and what they predict.
type Around = (
    Option<i16>,
    Option<i16>,
    Option<i16>,
    Option<i16>,
    Option<i32>,
);

const PREDICTED: [Around; 26] = [
    (None, None, None, None, None),
    (Some(7), None, None, None, Some(7)),
    (Some(7), Some(9), None, None, Some(7)),
    (None, Some(9), None, None, Some(9)),
    (None, None, None, Some(5), Some(5)),
    (None, None, Some(3), None, Some(3)),
    (None, Some(9), Some(3), None, Some(3)),
    (None, None, Some(3), Some(5), Some(3)),
    (Some(-1), None, Some(0), None, Some(0)),
    (None, Some(3), None, Some(-6), Some(-1)),
    (Some(100), None, None, Some(10), Some(62)),
    (Some(-100), None, None, Some(-10), Some(-62)),
    (Some(100), Some(999), None, Some(10), Some(62)),
    (Some(100), None, Some(999), Some(10), Some(62)),
    (None, Some(10), Some(20), Some(30), Some(20)),
    (None, Some(100), Some(-50), Some(7), Some(-11)),
    (Some(100), Some(50), Some(90), None, Some(131)),
    (Some(100), Some(50), Some(90), Some(-999), Some(131)),
    // Far from the value below, the left one, the lower left one.
    (Some(300), Some(0), Some(300), None, Some(300)),
    (Some(300), Some(0), Some(400), None, Some(400)),
    (Some(0), Some(-100), Some(200), None, Some(0)),
    (Some(100), Some(0), Some(100), None, Some(0)),
    (Some(100), Some(0), Some(100), Some(50), Some(0)),
    // 128 apart is not far.
    (Some(158), Some(0), Some(158), None, Some(0)),
    (Some(159), Some(0), Some(159), None, Some(159)),
    (
        Some(i16::MAX),
        Some(i16::MIN),
        Some(i16::MAX),
        None,
        Some(32_767),
    ),
];

#[test]
fn each_set_of_neighbours_has_its_own_predictor(rt: HostRuntime) -> Result<(), Fail> {
    for (left, lower_left, below, lower_right, predictor) in PREDICTED {
        let found = from_neighbours(left, lower_left, below, lower_right);
        assert!(rt;
            found == predictor,
            "{left:?} {lower_left:?} {below:?} {lower_right:?}"
        );
    }
    Ok(())
}

/// The blocks of a frame and their coefficients.
#[derive(Drop)]
struct Frame {
    flags: Vec<bool>,
    kinds: Vec<u8>,
    coeffs: Coeffs,
}

// The layout of a frame, from its columns and rows of macro blocks and its pixel format.
fn layout(rt: &impl Abort, alloc: Global, columns: u16, rows: u16, format: u8) -> Geom {
    let shape = Shape::new(columns, rows, format).expect(rt, "no shape");
    Geom::new(alloc, shape).expect(rt, "no memory")
}

// A frame whose blocks are not coded and have these coefficients.
fn uncoded_frame(alloc: Global, geom: &Geom, coefficient: i16) -> Result<Frame, AllocError> {
    let blocks = geom.blocks() as usize;
    Ok(Frame {
        flags: vec![in alloc; false; blocks]?,
        kinds: vec![in alloc; 0; blocks]?,
        coeffs: Coeffs {
            values: vec![in alloc; [coefficient; 64]; blocks]?,
            counts: vec![in alloc; 9; blocks]?,
        },
    })
}

// Whether the DC values of the coded blocks are from -580 to 580.
fn is_within_limit(flags: &[bool], values: &[[i16; 64]]) -> bool
    ensures { result ≡ true → IsWithin 580 flags.now values.now }
{
    if flags.len() != values.len() {
        return false;
    }
    'places: for place in 0..flags.len() {
        if flags[place] && values[place][0].unsigned_abs() > 580 {
            return false;
        }
    }
    true
}

// Calls one of the three calls on a frame.
fn change(rt: &impl Abort, geom: &Geom, frame: &mut Frame, change: Change) {
    let blocks = geom.blocks() as usize;
    assert!(rt; frame.flags.len() == blocks);
    assert!(rt; frame.kinds.len() == blocks);
    assert!(rt; frame.coeffs.values.len() == blocks);
    match change {
        Change::Undo => undo_dc(geom, &frame.flags, &frame.kinds, &mut frame.coeffs),
        Change::Apply => apply_dc(geom, &frame.flags, &frame.kinds, &mut frame.coeffs),
        Change::Limit => {
            assert!(rt; is_within_limit(&frame.flags, &frame.coeffs.values));
            limit_dc(geom, &frame.flags, &frame.kinds, &mut frame.coeffs);
        }
    }
}

/// A block: whether it is coded, its kind, its difference and its DC value.
type Worked = (bool, u8, i16, i16);

/// Frames of two by one macro blocks in 4:2:0: rows of blocks from the bottom, of the planes Y, Cb and Cr.
const UNDONE: [&[&[Worked]]; 3] = [
    &[
        &[
            (true, 0, 100, 100),
            (true, 1, -20, -20),
            (false, 0, 999, 999),
            (true, 0, 30, 130),
        ],
        &[
            (true, 0, 5, 105),
            (true, 0, -3, 102),
            (true, 1, 4, -16),
            (true, 0, 0, 130),
        ],
    ],
    &[&[(true, 2, 10, 10), (true, 2, 5, 15)]],
    &[&[(true, 2, i16::MAX, i16::MAX), (true, 2, 1, i16::MIN)]],
];

const LIMITED: [&[&[Worked]]; 3] = [
    &[
        &[
            (true, 0, 580, 580),
            (true, 0, -580, 0),
            (true, 0, 580, 580),
            (true, 0, 100, 100),
        ],
        &[
            (false, 0, -580, -580),
            (true, 2, -580, -580),
            (true, 0, -580, -199),
            (true, 2, 30, 0),
        ],
    ],
    &[&[(true, 1, 580, 580), (true, 1, -1, 0)]],
    &[&[(true, 1, -580, -580), (true, 1, 1, 0)]],
];

// The worked block of these planes.
fn worked(planes: [&[&[Worked]]; 3], block: Block) -> Option<Worked> {
    let rows = planes.get(block.pli as usize)?;
    let row = rows.get(block.row as usize)?;
    row.get(block.col as usize).copied()
}

// The frame of these planes before the call.
fn worked_frame(
    rt: &impl Abort,
    alloc: Global,
    geom: &Geom,
    planes: [&[&[Worked]]; 3],
) -> Result<Frame, AllocError> {
    let mut frame = uncoded_frame(alloc, geom, 3)?;
    for place in 0..geom.blocks() {
        let (coded, kind, before, _) = worked(planes, geom.at(place)).expect(rt, "no block");
        let at = place as usize;
        assert!(rt; at < frame.flags.len());
        assert!(rt; at < frame.kinds.len());
        assert!(rt; at < frame.coeffs.values.len());
        frame.flags[at] = coded;
        frame.kinds[at] = kind;
        frame.coeffs.values[at][0] = before;
    }
    Ok(frame)
}

// Whether the coefficients are those before or after the call.
fn has_values(
    rt: &impl Abort,
    geom: &Geom,
    frame: &Frame,
    planes: [&[&[Worked]]; 3],
    after: bool,
) -> bool {
    for place in 0..geom.blocks() {
        let (_, _, before, value) = worked(planes, geom.at(place)).expect(rt, "no block");
        let mut values = [3i16; 64];
        values[0] = if after { value } else { before };
        if frame.coeffs.values.get(place as usize) != Some(&values) {
            return false;
        }
        if frame.coeffs.counts.get(place as usize) != Some(&9) {
            return false;
        }
    }
    true
}

#[test]
fn a_worked_frame_of_mixed_kinds_is_undone_and_applied(rt: HostRuntime) -> Result<(), Fail> {
    let geom = layout(&rt, rt.alloc(), 2, 1, 0);
    assert_eq!(rt; geom.blocks(), 12);
    let mut frame = worked_frame(&rt, rt.alloc(), &geom, UNDONE)?;
    change(&rt, &geom, &mut frame, Change::Undo);
    assert!(rt; has_values(&rt, &geom, &frame, UNDONE, true));
    change(&rt, &geom, &mut frame, Change::Apply);
    assert!(rt; has_values(&rt, &geom, &frame, UNDONE, false));
    Ok(())
}

#[test]
fn a_worked_frame_is_limited_by_its_own_new_values(rt: HostRuntime) -> Result<(), Fail> {
    let geom = layout(&rt, rt.alloc(), 2, 1, 0);
    let mut frame = worked_frame(&rt, rt.alloc(), &geom, LIMITED)?;
    change(&rt, &geom, &mut frame, Change::Limit);
    assert!(rt; has_values(&rt, &geom, &frame, LIMITED, true));
    Ok(())
}

// A frame whose flags, kinds and DC values are drawn; the values are from -580 to 580.
fn drawn_frame(alloc: Global, geom: &Geom, seed: u32) -> Result<Frame, AllocError> {
    let mut frame = uncoded_frame(alloc, geom, -1)?;
    let mut state = seed;
    for flag in frame.flags.iter_mut() {
        state = state.wrapping_mul(1_664_525).wrapping_add(1_013_904_223);
        *flag = (state >> 16) % 4 > 0;
    }
    for kind in frame.kinds.iter_mut() {
        state = state.wrapping_mul(1_664_525).wrapping_add(1_013_904_223);
        *kind = ((state >> 16) % 3) as u8;
    }
    for values in frame.coeffs.values.iter_mut() {
        state = state.wrapping_mul(1_664_525).wrapping_add(1_013_904_223);
        values[0] = ((state >> 16) % 1_161) as i16 - 580;
    }
    Ok(frame)
}

// Limits the values of a frame, turns them into differences and back.
fn pass_through_differences(
    rt: &impl Abort,
    geom: &Geom,
    frame: &mut Frame,
) -> Result<(), AllocError> {
    change(rt, geom, frame, Change::Limit);
    let limited = frame.coeffs.values.clone()?;
    assert!(rt; is_within_limit(&frame.flags, &limited));
    change(rt, geom, frame, Change::Apply);
    assert!(rt; is_within_limit(&frame.flags, &frame.coeffs.values));
    change(rt, geom, frame, Change::Undo);
    assert!(rt; frame.coeffs.values == limited, "{} blocks", geom.blocks());
    Ok(())
}

#[test]
fn drawn_frames_of_three_formats_are_limited_applied_and_undone(
    rt: HostRuntime,
) -> Result<(), Fail> {
    for (columns, rows) in [(1, 1), (2, 3), (5, 3)] {
        for format in [0, 2, 3] {
            let geom = layout(&rt, rt.alloc(), columns, rows, format);
            for seed in 0..4u32 {
                let mut frame = drawn_frame(rt.alloc(), &geom, seed)?;
                pass_through_differences(&rt, &geom, &mut frame)?;
            }
        }
    }
    Ok(())
}

#[test]
fn one_difference_is_the_value_of_a_whole_plane_of_the_greatest_frame(
    rt: HostRuntime,
) -> Result<(), Fail> {
    let geom = layout(&rt, rt.alloc(), 512, 256, 3);
    let mut frame = uncoded_frame(rt.alloc(), &geom, 0)?;
    for flag in frame.flags.iter_mut() {
        *flag = true;
    }
    if let Some(values) = frame.coeffs.values.first_mut() {
        values[0] = 7;
    }
    change(&rt, &geom, &mut frame, Change::Undo);
    for (place, values) in frame.coeffs.values.iter().enumerate() {
        let value = if place < 524_288 { 7 } else { 0 };
        assert!(rt; values[0] == value, "{place}");
    }
    Ok(())
}
