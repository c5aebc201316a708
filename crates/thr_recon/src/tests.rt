mod tables;

use crate::*;
use std::alloc::Global;
use std::process::Abort;
use std::test::Fail;
use tables::{EDGES, LED, PRODUCTS};
use vid_base::{Shape, Vector};
use vid_plane::{Frame, Plane};

fn frame(rt: &impl Abort, alloc: Global, macro_blocks: u16) -> Frame {
    let shape = Shape::new(macro_blocks, macro_blocks, 0).expect(rt, "no shape");
    Frame::new(alloc, shape).expect(rt, "no memory")
}

// Fills a plane of at most 64 by 64 samples: a step to the right adds 1, and one upwards adds `up`.
fn slope(plane: &mut Plane, up: u8) {
    for y in 0..64u8 {
        for x in 0..64u8 {
            if u32::from(x) < plane.width() && u32::from(y) < plane.height() {
                plane.set(
                    u32::from(x),
                    u32::from(y),
                    y.wrapping_mul(up).wrapping_add(x),
                );
            }
        }
    }
    plane.seal();
}

fn has_block(plane: &Plane, x: u32, y: u32) -> bool {
    plane.sealed() && x < 64 && y < 64 && x + 8 <= plane.width() && y + 8 <= plane.height()
}

fn led<'a>(
    rt: &impl Abort,
    plane: &'a Plane,
    at: (u32, u32),
    x: i8,
    y: i8,
    half_x: bool,
    half_y: bool,
) -> Predictor<'a> {
    let (column, row) = at;
    assert!(rt; x >= -31 && x <= 31 && y >= -31 && y <= 31);
    let vector = Vector { x, y };
    assert!(rt; plane.sealed() && column < 64 && row < 64);
    assert!(rt; column + 8 <= plane.width());
    assert!(rt; row + 8 <= plane.height());
    predict(plane, column, row, vector, half_x, half_y)
}

fn corners(p: &Predictor<'_>) -> [u8; 4] {
    [p.at(0, 0), p.at(7, 0), p.at(0, 7), p.at(7, 7)]
}

#[test]
fn coefficients_leave_the_zigzag_order(rt: HostRuntime) {
    let mut c = [0i16; 64];
    let mut ac = [0u16; 64];
    for k in 0..64u16 {
        c[usize::from(k)] = (577 * k).wrapping_sub(20_000).cast_signed();
        ac[usize::from(k)] = 3 * k + 1;
    }
    assert_eq!(rt; dequantise(&c, 7, &ac), PRODUCTS);
    let mut few = [0i16; 64];
    let mut products = [0i16; 64];
    few[31] = -2;
    products[28] = -170;
    assert_eq!(rt; dequantise(&few, 7, &ac), products);
    few[32] = 3;
    products[35] = 318;
    assert_eq!(rt; dequantise(&few, 7, &ac), products);
}

#[test]
fn a_first_coefficient_alone_is_not_cut(rt: HostRuntime) {
    let mut c = [0i16; 64];
    c[0] = 580;
    assert_eq!(rt; residual(&c, 0, 64, &[64; 64]), [1160; 64]);
    assert_eq!(rt; residual(&c, 1, 64, &[64; 64]), [1160; 64]);
    assert_eq!(rt; residual(&c, 2, 64, &[64; 64]), [-888; 64]);
    c[0] = -32_768;
    assert_eq!(rt; residual(&c, 1, 65_535, &[64; 64]), [1024; 64]);
    c[0] = -1;
    assert_eq!(rt; residual(&c, 1, 16, &[64; 64]), [-1; 64]);
    c[5] = 3;
    assert_eq!(rt; residual(&c, 1, 15, &[64; 64]), [0; 64]);
}

#[test]
fn vectors_lead_to_their_samples(rt: HostRuntime) {
    let mut wide = frame(&rt, rt.alloc(), 4);
    slope(&mut wide.y, 3);
    for (x, y, samples) in LED {
        let at = (24, 24);
        let got = [
            led(&rt, &wide.y, at, x, y, false, false).at(0, 0),
            led(&rt, &wide.y, at, x, y, true, false).at(0, 0),
            led(&rt, &wide.y, at, x, y, false, true).at(0, 0),
            led(&rt, &wide.y, at, x, y, true, true).at(0, 0),
        ];
        assert_eq!(rt; (x, y, got), (x, y, samples));
    }
}

#[test]
fn vectors_lead_over_the_edges_of_a_plane(rt: HostRuntime) {
    let mut small = frame(&rt, rt.alloc(), 1);
    slope(&mut small.y, 3);
    for (column, row, x, y, halved, samples) in EDGES {
        let p = led(&rt, &small.y, (column, row), x, y, halved, halved);
        assert_eq!(rt;
            (column, row, x, y, corners(&p)),
            (column, row, x, y, samples)
        );
    }
}

#[test]
fn a_vector_leads_out_of_both_luma_and_chroma(rt: HostRuntime) {
    let mut both = frame(&rt, rt.alloc(), 2);
    slope(&mut both.y, 4);
    slope(&mut both.cb, 4);
    let luma = corners(&led(&rt, &both.y, (0, 0), -31, 31, false, false));
    let chroma = corners(&led(&rt, &both.cb, (0, 0), -31, 31, true, true));
    assert_eq!(rt; (luma[0], luma[3]), (62, 90));
    assert_eq!(rt; (chroma[0], chroma[3]), (30, 58));
}

// Rebuilds the block at (8, 0) of a plane of 16 by 16 samples, and gives the samples around its corners.
fn around(rt: &impl Abort, plane: &mut Plane, p: &Predictor<'_>, r: &[i16; 64]) -> [u8; 8] {
    assert!(rt; has_block(plane, 8, 0));
    assert!(rt; plane.width() == 16);
    assert!(rt; plane.height() == 16);
    rebuild_block(plane, 8, 0, p, r);
    [
        plane.sample(7, 0),
        plane.sample(8, 0),
        plane.sample(15, 0),
        plane.sample(7, 7),
        plane.sample(8, 7),
        plane.sample(15, 7),
        plane.sample(8, 8),
        plane.sample(15, 8),
    ]
}

#[test]
fn blocks_are_the_clamped_sums_of_predictors_and_residuals(rt: HostRuntime) {
    let mut earlier = frame(&rt, rt.alloc(), 1);
    let mut now = frame(&rt, rt.alloc(), 1);
    slope(&mut earlier.y, 10);
    let mut r = [0i16; 64];
    r[0] = 32_767;
    r[7] = -32_768;
    r[56] = -50;
    r[63] = 5;
    assert_eq!(rt;
        around(&rt, &mut now.y, &Predictor::Flat, &r),
        [0, 255, 0, 0, 78, 133, 0, 0]
    );
    now.y.seal();
    let one = led(&rt, &earlier.y, (8, 0), 0, 2, false, false);
    assert_eq!(rt;
        around(&rt, &mut now.y, &one, &r),
        [0, 255, 0, 0, 38, 100, 0, 0]
    );
    now.y.seal();
    let two = led(&rt, &earlier.y, (8, 0), 1, 0, true, true);
    assert_eq!(rt;
        around(&rt, &mut now.y, &two, &[0; 64]),
        [0, 8, 15, 0, 78, 85, 0, 0]
    );
}
