mod digests;
mod forward_digests;

ghost use Rattle.std.specs.Prelude.{All};
ghost use Rattle.thr_dct.specs.Line.{Within};

use crate::{forward, inverse};
use digests::DIGESTS;
use forward_digests::FORWARD_DIGESTS;
use std::process::Abort;

// Draws a block: all numbers of 16 bits or few of them that are not 0, large ones, small ones or the ends of the range, as
// its number says.
fn drawn(block: u32) -> [i16; 64] {
    let mut state: u32 = block;
    let mut numbers = [0; 64];
    for number in numbers.iter_mut() {
        state = state.wrapping_mul(1_664_525).wrapping_add(1_013_904_223);
        let v = ((state >> 16) as u16).cast_signed();
        let thin = match block % 3 {
            0 => false,
            1 => state & 0x700 != 0,
            _ => state & 0x1f00 != 0,
        };
        let sized = match block % 4 {
            0 => v,
            1 => v >> 4,
            2 => v >> 7,
            _ => (v >> 15) ^ 32_767,
        };
        *number = if thin { 0 } else { sized };
    }
    numbers
}

// The numbers of a block, with those that no residual can be brought to the nearest one.
fn bounded(block: &[i16; 64]) -> [i16; 64]
    ensures { All (Within 255) result }
{
    let mut residuals = [0; 64];
    for k in 0..64usize {
        residuals[k] = block[k].clamp(-255, 255);
    }
    residuals
}

fn digest(numbers: &[i16; 64]) -> u32 {
    let mut sum: u32 = 0;
    for number in numbers {
        sum = sum.wrapping_mul(16_777_619) ^ u32::from((*number).cast_unsigned());
    }
    sum
}

fn wide_digest(numbers: &[i32; 64]) -> u32 {
    let mut sum: u32 = 0;
    for number in numbers {
        sum = sum.wrapping_mul(16_777_619) ^ (*number).cast_unsigned();
    }
    sum
}

#[test]
fn libtheora_gives_the_same_blocks(rt: HostRuntime) {
    for (block, wanted) in DIGESTS.iter().enumerate() {
        assert_eq!(rt;
            (block, digest(&inverse(&drawn(block as u32)))),
            (block, *wanted)
        );
    }
}

#[test]
fn double_sums_in_c_give_the_same_coefficients(rt: HostRuntime) {
    for (block, wanted) in FORWARD_DIGESTS.iter().enumerate() {
        let residuals = bounded(&drawn(block as u32));
        assert_eq!(rt;
            (block, wide_digest(&forward(&residuals))),
            (block, *wanted)
        );
    }
}

fn first_alone<T: Copy>(first: T, others: T) -> [T; 64] {
    let mut block = [others; 64];
    block[0] = first;
    block
}

#[test]
fn a_first_coefficient_alone_is_spread_evenly(rt: HostRuntime) {
    for (dc, sample) in [(0, 0), (32, 1), (-32, -1)] {
        assert_eq!(rt; inverse(&first_alone(dc, 0)), [sample; 64]);
    }
}

#[test]
fn equal_residuals_are_a_first_coefficient_alone(rt: HostRuntime) {
    for (residual, dc) in [(1, 32), (-1, -32), (255, 8160), (-255, -8160)] {
        assert_eq!(rt; forward(&bounded(&[residual; 64])), first_alone(dc, 0));
    }
}
