// Whole-number arithmetic of the specification (Theora I, Notation and Conventions).
ghost use Rattle.std.specs.Prelude.{◌≡◌, ◌⊎◌, ℕ, ◌+◌, ◌*◌, ◌/◌, ◌<◌, ◌≤◌, ◌^◌, ◌<ℤ◌, ◌≤ℤ◌, pos, negsuc, int_div};
ghost use Rattle.std.specs.Int.{int_wrap, w16};
ghost use Rattle.vid_base.specs.Arithmetic.{bit_length, rounded};

/// The low 16 bits of a number, read as a signed number.
pub fn trunc16(v: i64) -> i16
    ensures { result ≡ int_wrap w16 v }
{
    (v.rem_euclid(65_536) as u16).cast_signed()
}

/// The least k with `v < 2^k`: how many binary digits the number has.
pub fn ilog(v: u32) -> u32
    ensures value { result ≡ bit_length v }
    ensures above { v < 2 ^ result }
    ensures least { (k : ℕ) → v < 2 ^ k → result ≤ k }
{
    32 - v.leading_zeros()
}

/// The quotient without its fraction.
pub fn div_zero(a: i32, b: i32) -> i32
    requires { pos 0 <ℤ b }
    ensures { result ≡ int_div a b }
{
    a / b
}

/// The nearest whole number to sum / n, halves upwards.
fn nearest(sum: u32, n: u32) -> u32
    requires some { 0 < n }
    requires small { (n ≤ 4) × (sum ≤ 124) }
    ensures value { result ≡ (2 * sum + n) / (2 * n) }
    ensures bound { result ≤ 250 }
{
    (2 * sum + n) / (2 * n)
}

/// The mean of n vector components whose sum is given, to the nearest whole number and halves away from zero
/// (Theora I, 7.5.2).
pub fn round_half_out(sum: i32, n: i32) -> i32
    requires count { (n ≡ pos 2) ⊎ (n ≡ pos 4) }
    requires low { negsuc 123 ≤ℤ sum }
    requires high { sum ≤ℤ pos 124 }
    ensures { result ≡ rounded sum n }
{
    let size = nearest(sum.unsigned_abs(), n.unsigned_abs()) as i32;
    if sum < 0 { -size } else { size }
}
