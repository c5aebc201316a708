// The sums of one line of eight numbers by the rows of the table B, from the sums and differences of its ends (own).
ghost use Rattle.std.specs.Prelude.{◌≡◌, pos, ◌+ℤ◌, ◌-ℤ◌, ◌*ℤ◌, ◌+◌, ◌-◌, ◌*◌, ◌<◌, ◌^◌, All};
ghost use Rattle.thr_dct.specs.Line.{c1, c2, c3, c4, c5, c6, c7, entry, Within};
ghost use Rattle.thr_dct.specs.Passes.{sums};

use crate::tables::{C1, C2, C3, C4, C5, C6, C7};

fn sum(u: i32, v: i32) -> i32
    requires u { Within (2 ^ 29) u }
    requires v { Within (2 ^ 29) v }
    ensures value { result ≡ u +ℤ v }
    ensures bound { Within (2 ^ 30) result }
{
    u + v
}

fn difference(u: i32, v: i32) -> i32
    requires u { Within (2 ^ 29) u }
    requires v { Within (2 ^ 29) v }
    ensures value { result ≡ u -ℤ v }
    ensures bound { Within (2 ^ 30) result }
{
    u - v
}

fn product(c: u16, v: i32) -> i64
    ensures value { result ≡ pos c *ℤ v }
    ensures bound { Within (2 ^ 47) result }
{
    i64::from(c) * i64::from(v)
}

fn sum_of_products(c: u16, u: i32, d: u16, v: i32) -> i64
    ensures value { result ≡ pos c *ℤ u +ℤ pos d *ℤ v }
    ensures bound { Within (2 ^ 48) result }
{
    product(c, u) + product(d, v)
}

fn difference_of_products(c: u16, u: i32, d: u16, v: i32) -> i64
    ensures value { result ≡ pos c *ℤ u -ℤ pos d *ℤ v }
    ensures bound { Within (2 ^ 48) result }
{
    product(c, u) - product(d, v)
}

/// The sums by the even rows.
#[derive(Clone, Copy)]
struct EvenSums {
    f0: i64,
    f2: i64,
    f4: i64,
    f6: i64,
}

/// The sums by the odd rows.
#[derive(Clone, Copy)]
struct OddSums {
    f1: i64,
    f3: i64,
    f5: i64,
    f7: i64,
}

/// From the sums of the ends of a line, the outer ends first.
fn even_sums(s0: i32, s1: i32, s2: i32, s3: i32) -> EvenSums
    requires bounds { Within (2 ^ 28) s0 × Within (2 ^ 28) s1 × Within (2 ^ 28) s2 × Within (2 ^ 28) s3 }
    ensures f0 { result.f0 ≡ c4 *ℤ (s0 +ℤ s3) +ℤ c4 *ℤ (s1 +ℤ s2) }
    ensures f2 { result.f2 ≡ c2 *ℤ (s0 -ℤ s3) +ℤ c6 *ℤ (s1 -ℤ s2) }
    ensures f4 { result.f4 ≡ c4 *ℤ (s0 +ℤ s3) -ℤ c4 *ℤ (s1 +ℤ s2) }
    ensures f6 { result.f6 ≡ c6 *ℤ (s0 -ℤ s3) -ℤ c2 *ℤ (s1 -ℤ s2) }
{
    let outer = sum(s0, s3);
    let inner = sum(s1, s2);
    let outer_slope = difference(s0, s3);
    let inner_slope = difference(s1, s2);
    EvenSums {
        f0: sum_of_products(C4, outer, C4, inner),
        f2: sum_of_products(C2, outer_slope, C6, inner_slope),
        f4: difference_of_products(C4, outer, C4, inner),
        f6: difference_of_products(C6, outer_slope, C2, inner_slope),
    }
}

/// From the differences of the ends, the outer ends first.
fn odd_sums(d0: i32, d1: i32, d2: i32, d3: i32) -> OddSums
    ensures f1 { result.f1 ≡ (c1 *ℤ d0 +ℤ c3 *ℤ d1) +ℤ (c5 *ℤ d2 +ℤ c7 *ℤ d3) }
    ensures f3 { result.f3 ≡ (c3 *ℤ d0 -ℤ c7 *ℤ d1) -ℤ (c1 *ℤ d2 +ℤ c5 *ℤ d3) }
    ensures f5 { result.f5 ≡ (c5 *ℤ d0 -ℤ c1 *ℤ d1) +ℤ (c7 *ℤ d2 +ℤ c3 *ℤ d3) }
    ensures f7 { result.f7 ≡ (c7 *ℤ d0 -ℤ c5 *ℤ d1) +ℤ (c3 *ℤ d2 -ℤ c1 *ℤ d3) }
{
    OddSums {
        f1: sum_of_products(C1, d0, C3, d1) + sum_of_products(C5, d2, C7, d3),
        f3: difference_of_products(C3, d0, C7, d1) - sum_of_products(C1, d2, C5, d3),
        f5: difference_of_products(C5, d0, C1, d1) + sum_of_products(C7, d2, C3, d3),
        f7: difference_of_products(C7, d0, C5, d1) + difference_of_products(C3, d2, C1, d3),
    }
}

/// Of two numbers of a line that stand equally far from its ends.
#[derive(Clone, Copy)]
struct Ends {
    sum: i32,
    difference: i32,
}

fn ends_at(block: &[i32; 64], r: usize, k: usize) -> Ends
    requires row { r < 8 }
    requires place { k < 4 }
    requires numbers { All (Within (2 ^ 27)) block.now }
    ensures sum { result.sum ≡ entry block.now (8 * r + k) +ℤ entry block.now (8 * r + (7 - k)) }
    ensures difference { result.difference ≡ entry block.now (8 * r + k) -ℤ entry block.now (8 * r + (7 - k)) }
    ensures bounds { Within (2 ^ 28) result.sum × Within (2 ^ 28) result.difference }
{
    let near = block[8 * r + k];
    let far = block[8 * r + (7 - k)];
    Ends {
        sum: near + far,
        difference: near - far,
    }
}

/// The sums of that row of a block by the eight rows of the table.
pub fn sums_of_row(block: &[i32; 64], r: usize) -> [i64; 8]
    requires row { r < 8 }
    requires numbers { All (Within (2 ^ 27)) block.now }
    ensures { result ≡ sums (λ x. entry block.now (8 * r + x)) }
{
    let e0 = ends_at(block, r, 0);
    let e1 = ends_at(block, r, 1);
    let e2 = ends_at(block, r, 2);
    let e3 = ends_at(block, r, 3);
    let even = even_sums(e0.sum, e1.sum, e2.sum, e3.sum);
    let odd = odd_sums(e0.difference, e1.difference, e2.difference, e3.difference);
    [
        even.f0, odd.f1, even.f2, odd.f3, even.f4, odd.f5, even.f6, odd.f7,
    ]
}
