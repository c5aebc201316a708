// Means of motion vectors (Theora I, 7.5.2).
ghost use Rattle.std.specs.Prelude.{◌≡◌, ◌∷◌, [], ◌+ℤ◌, ◌≤ℤ◌, pos, negsuc};
ghost use Rattle.vid_base.specs.Arithmetic.{rounded};
ghost use Rattle.thr_modes.specs.Vectors.{offset_of, IsComponent};
ghost use Rattle.thr_modes.specs.Motion.{mean};

use vid_base::{Vector, round_half_out};

/// The sum of two components.
fn sum_of(a: i8, b: i8) -> i32
    requires a { IsComponent a }
    requires b { IsComponent b }
    ensures value { result ≡ a +ℤ b }
    ensures least { negsuc 61 ≤ℤ result }
    ensures most { result ≤ℤ pos 62 }
{
    i32::from(a) + i32::from(b)
}

/// The mean of two components, from their sum.
fn half_of(sum: i32) -> i8
    requires least { negsuc 61 ≤ℤ sum }
    requires most { sum ≤ℤ pos 62 }
    ensures value { result ≡ rounded sum (pos 2) }
    ensures small { IsComponent result }
{
    round_half_out(sum, 2) as i8
}

/// The mean of four components, from their sum.
fn quarter_of(sum: i32) -> i8
    requires least { negsuc 123 ≤ℤ sum }
    requires most { sum ≤ℤ pos 124 }
    ensures value { result ≡ rounded sum (pos 4) }
    ensures small { IsComponent result }
{
    round_half_out(sum, 4) as i8
}

/// The mean of four components.
fn component_of_four(a: i8, b: i8, c: i8, d: i8) -> i8
    requires a { IsComponent a }
    requires b { IsComponent b }
    requires c { IsComponent c }
    requires d { IsComponent d }
    ensures value { result ≡ rounded ((a +ℤ b) +ℤ (c +ℤ d)) (pos 4) }
    ensures small { IsComponent result }
{
    quarter_of(sum_of(a, b) + sum_of(c, d))
}

/// The mean of two vectors.
pub fn mean_of_two(a: Vector, b: Vector) -> Vector
    ensures { offset_of result ≡ mean (offset_of a ∷ offset_of b ∷ []) }
{
    Vector {
        x: half_of(sum_of(a.x, b.x)),
        y: half_of(sum_of(a.y, b.y)),
    }
}

/// The mean of four vectors.
pub fn mean_of_four(a: Vector, b: Vector, c: Vector, d: Vector) -> Vector
    ensures { offset_of result ≡ mean (offset_of a ∷ offset_of b ∷ offset_of c ∷ offset_of d ∷ []) }
{
    Vector {
        x: component_of_four(a.x, b.x, c.x, d.x),
        y: component_of_four(a.y, b.y, c.y, d.y),
    }
}
