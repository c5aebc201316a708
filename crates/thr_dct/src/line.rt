// The inverse transform of one line of eight numbers (Theora I, 7.9.3.1). All of it keeps 16 bits: the standard cuts each
// sum that goes on, and a cut of a sum does not depend on what was cut of its parts.
#![tactic(auto, using(crate::proofs::Cuts::cuts))]

ghost use Rattle.std.specs.Prelude.{◌≡◌, pos, negsuc, ◌+ℤ◌, ◌-ℤ◌, ◌*ℤ◌, ◌≤ℤ◌};
ghost use Rattle.std.specs.Int.{int_shr};
ghost use Rattle.thr_dct.specs.Line.{m, cut, c1, c2, c3, c4, c5, c6, c7, line};

use crate::tables::{C1, C2, C3, C4, C5, C6, C7};

#[tactic(auto, using(std::proofs::lemmas::Int::wraps), unfolding(crate::specs::Line::cut))]
fn sum(u: i16, v: i16) -> i16
    ensures { result ≡ cut (u +ℤ v) }
{
    u.wrapping_add(v)
}

#[tactic(auto, using(std::proofs::lemmas::Int::wraps), unfolding(crate::specs::Line::cut))]
fn difference(u: i16, v: i16) -> i16
    ensures { result ≡ cut (u -ℤ v) }
{
    u.wrapping_sub(v)
}

/// The high half of a product, with bounds that let it be cast to 16 bits.
fn wide_high(c: i16, v: i16) -> i32
    ensures value { result ≡ int_shr (c *ℤ v) 16 }
    ensures low { negsuc 32767 ≤ℤ result }
    ensures high { result ≤ℤ pos 32767 }
{
    (i32::from(c) * i32::from(v)) >> 16
}

/// The same in 16 bits.
fn high(c: i16, v: i16) -> i16
    ensures { result ≡ int_shr (c *ℤ v) 16 }
{
    wide_high(c, v) as i16
}

/// The product by a constant, 65536 of which are one. As a signed number a constant from a half on is less by one.
fn scaled(c: u16, v: i16) -> i16
    ensures { result ≡ m (pos c) v }
{
    let part = high(c.cast_signed(), v);
    if c < 32_768 {
        part
    } else {
        part.wrapping_add(v)
    }
}

fn scaled_sum(u: i16, v: i16) -> i16
    ensures { result ≡ m c4 (cut (u +ℤ v)) }
{
    scaled(C4, sum(u, v))
}

fn scaled_difference(u: i16, v: i16) -> i16
    ensures { result ≡ m c4 (cut (u -ℤ v)) }
{
    scaled(C4, difference(u, v))
}

fn sum_of_scaled(c: u16, u: i16, d: u16, v: i16) -> i16
    ensures { result ≡ cut (m (pos c) u +ℤ m (pos d) v) }
{
    sum(scaled(c, u), scaled(d, v))
}

fn difference_of_scaled(c: u16, u: i16, d: u16, v: i16) -> i16
    ensures { result ≡ cut (m (pos c) u -ℤ m (pos d) v) }
{
    difference(scaled(c, u), scaled(d, v))
}

/// What the even entries of a line give.
#[derive(Clone, Copy)]
struct Even {
    e0: i16,
    e1: i16,
    e2: i16,
    e3: i16,
}

/// What its odd entries give.
#[derive(Clone, Copy)]
struct Odd {
    o0: i16,
    o1: i16,
    o2: i16,
    o3: i16,
}

fn even_part(y0: i16, y2: i16, y4: i16, y6: i16) -> Even
    ensures e0 { result.e0 ≡ cut (m c4 (cut (y0 +ℤ y4)) +ℤ (m c2 y2 +ℤ m c6 y6)) }
    ensures e1 { result.e1 ≡ cut (m c4 (cut (y0 -ℤ y4)) +ℤ (m c6 y2 -ℤ m c2 y6)) }
    ensures e2 { result.e2 ≡ cut (m c4 (cut (y0 -ℤ y4)) -ℤ (m c6 y2 -ℤ m c2 y6)) }
    ensures e3 { result.e3 ≡ cut (m c4 (cut (y0 +ℤ y4)) -ℤ (m c2 y2 +ℤ m c6 y6)) }
{
    let t0 = scaled_sum(y0, y4);
    let t1 = scaled_difference(y0, y4);
    let t2 = difference_of_scaled(C6, y2, C2, y6);
    let t3 = sum_of_scaled(C2, y2, C6, y6);
    Even {
        e0: sum(t0, t3),
        e1: sum(t1, t2),
        e2: difference(t1, t2),
        e3: difference(t0, t3),
    }
}

fn odd_part(y1: i16, y3: i16, y5: i16, y7: i16) -> Odd
    ensures o0 { result.o0 ≡ cut ((m c1 y1 +ℤ m c7 y7) +ℤ (m c5 y5 +ℤ m c3 y3)) }
    ensures o1 { result.o1 ≡ cut (m c4 (cut ((m c1 y1 +ℤ m c7 y7) -ℤ (m c5 y5 +ℤ m c3 y3))) +ℤ m c4 (cut ((m c7 y1 -ℤ m c1 y7) -ℤ (m c3 y5 -ℤ m c5 y3)))) }
    ensures o2 { result.o2 ≡ cut (m c4 (cut ((m c1 y1 +ℤ m c7 y7) -ℤ (m c5 y5 +ℤ m c3 y3))) -ℤ m c4 (cut ((m c7 y1 -ℤ m c1 y7) -ℤ (m c3 y5 -ℤ m c5 y3)))) }
    ensures o3 { result.o3 ≡ cut ((m c7 y1 -ℤ m c1 y7) +ℤ (m c3 y5 -ℤ m c5 y3)) }
{
    let t4 = difference_of_scaled(C7, y1, C1, y7);
    let t5 = difference_of_scaled(C3, y5, C5, y3);
    let t6 = sum_of_scaled(C5, y5, C3, y3);
    let t7 = sum_of_scaled(C1, y1, C7, y7);
    let a5 = scaled_difference(t4, t5);
    let a6 = scaled_difference(t7, t6);
    Odd {
        o0: sum(t7, t6),
        o1: sum(a6, a5),
        o2: difference(a6, a5),
        o3: sum(t4, t5),
    }
}

/// Eight numbers of a line after the transform.
pub fn line(y: [i16; 8]) -> [i16; 8]
    ensures { result ≡ line y }
{
    let [y0, y1, y2, y3, y4, y5, y6, y7] = y;
    let e = even_part(y0, y2, y4, y6);
    let o = odd_part(y1, y3, y5, y7);
    [
        sum(e.e0, o.o0),
        sum(e.e1, o.o1),
        sum(e.e2, o.o2),
        sum(e.e3, o.o3),
        difference(e.e3, o.o3),
        difference(e.e2, o.o2),
        difference(e.e1, o.o1),
        difference(e.e0, o.o0),
    ]
}
