// The DC predictor from the blocks around a block (Theora I, 7.8.1).
ghost use Rattle.std.specs.Prelude.{◌≡◌, ℤ, pos, negsuc, ◌+ℤ◌, ◌-ℤ◌, ◌*ℤ◌, ◌≤◌, ◌≤ℤ◌, IfSome, None, Some};
ghost use Rattle.std.specs.Int.RustNames.{int_div, unsigned_abs};
ghost use Rattle.thr_dc.specs.Predictor.{extended, far, from_neighbours};

/// A weight times a value.
fn scaled(weight: i32, value: i16) -> i32
    requires low { pos 0 ≤ℤ weight }
    requires high { weight ≤ℤ pos 128 }
    ensures value { result ≡ weight *ℤ value }
    ensures low { negsuc 4999999 ≤ℤ result }
    ensures high { result ≤ℤ pos 5000000 }
{
    weight * i32::from(value)
}

fn sum(a: i32, b: i32) -> i32
    requires a_low { negsuc 9999999 ≤ℤ a }
    requires a_high { a ≤ℤ pos 10000000 }
    requires b_low { negsuc 9999999 ≤ℤ b }
    requires b_high { b ≤ℤ pos 10000000 }
    ensures value { result ≡ a +ℤ b }
    ensures small { unsigned_abs result ≤ 20000000 }
{
    a + b
}

fn difference(a: i32, b: i32) -> i32
    requires a_low { negsuc 9999999 ≤ℤ a }
    requires a_high { a ≤ℤ pos 10000000 }
    requires b_low { negsuc 9999999 ≤ℤ b }
    requires b_high { b ≤ℤ pos 10000000 }
    ensures { result ≡ a -ℤ b }
{
    a - b
}

/// The mean of two values.
fn mean(a: i16, b: i16) -> i32
    ensures value { result ≡ int_div (a +ℤ b) (pos 2) }
    ensures within { unsigned_abs result ≤ 32896 }
{
    (i32::from(a) + i32::from(b)) / 2
}

/// The mean of the left and the lower right value, by how near they are.
fn mean_across(left: i16, lower_right: i16) -> i32
    ensures value { result ≡ int_div (pos 75 *ℤ left +ℤ pos 53 *ℤ lower_right) (pos 128) }
    ensures within { unsigned_abs result ≤ 32896 }
{
    sum(scaled(75, left), scaled(53, lower_right)) / 128
}

/// The mean of the three values below, by how near they are.
fn mean_below(lower_left: i16, below: i16, lower_right: i16) -> i32
    ensures value { result ≡ int_div (pos 3 *ℤ lower_left +ℤ pos 10 *ℤ below +ℤ pos 3 *ℤ lower_right) (pos 16) }
    ensures within { unsigned_abs result ≤ 32896 }
{
    sum(
        sum(scaled(3, lower_left), scaled(10, below)),
        scaled(3, lower_right),
    ) / 16
}

/// How the values go on from three of them.
fn slope(left: i16, lower_left: i16, below: i16) -> i32
    ensures value { result ≡ int_div (pos 29 *ℤ left -ℤ pos 26 *ℤ lower_left +ℤ pos 29 *ℤ below) (pos 32) }
    ensures small { unsigned_abs result ≤ 1000000 }
{
    sum(
        difference(scaled(29, left), scaled(26, lower_left)),
        scaled(29, below),
    ) / 32
}

#[tactic(auto, unfolding(crate::specs::Predictor::far))]
fn far(a: i32, b: i16) -> bool
    requires { unsigned_abs a ≤ 1000000 }
    ensures { result ≡ far a b }
{
    (a - i32::from(b)).unsigned_abs() > 128
}

/// The same, or where it leads far off the first of the three that it is far from.
#[tactic(auto, unfolding(crate::specs::Predictor::extended))]
fn extended(left: i16, lower_left: i16, below: i16) -> i32
    ensures value { result ≡ extended left lower_left below }
    ensures within { unsigned_abs result ≤ 32896 }
{
    let p = slope(left, lower_left, below);
    if far(p, below) {
        i32::from(below)
    } else if far(p, left) {
        i32::from(left)
    } else if far(p, lower_left) {
        i32::from(lower_left)
    } else {
        p
    }
}

fn without_left(
    lower_left: Option<i16>,
    below: Option<i16>,
    lower_right: Option<i16>,
) -> Option<i32>
    ensures value { result ≡ from_neighbours None lower_left below lower_right }
    ensures within { IfSome result (λ p. unsigned_abs p ≤ 32896) }
{
    match lower_left {
        None => match below {
            None => match lower_right {
                None => None,
                Some(lower_right) => Some(i32::from(lower_right)),
            },
            Some(below) => Some(i32::from(below)),
        },
        Some(lower_left) => match below {
            None => match lower_right {
                None => Some(i32::from(lower_left)),
                Some(lower_right) => Some(mean(lower_left, lower_right)),
            },
            Some(below) => match lower_right {
                None => Some(i32::from(below)),
                Some(lower_right) => Some(mean_below(lower_left, below, lower_right)),
            },
        },
    }
}

fn with_left(
    left: i16,
    lower_left: Option<i16>,
    below: Option<i16>,
    lower_right: Option<i16>,
) -> Option<i32>
    ensures value { result ≡ from_neighbours (Some left) lower_left below lower_right }
    ensures within { IfSome result (λ p. unsigned_abs p ≤ 32896) }
{
    match below {
        None => match lower_right {
            None => Some(i32::from(left)),
            Some(lower_right) => Some(mean_across(left, lower_right)),
        },
        Some(below) => match lower_left {
            None => match lower_right {
                None => Some(mean(left, below)),
                Some(lower_right) => Some(mean_across(left, lower_right)),
            },
            Some(lower_left) => Some(extended(left, lower_left, below)),
        },
    }
}

/// The predictor from the values around a block, each where it counts. None where none counts.
pub(crate) fn from_neighbours(
    left: Option<i16>,
    lower_left: Option<i16>,
    below: Option<i16>,
    lower_right: Option<i16>,
) -> Option<i32>
    ensures value { result ≡ from_neighbours left lower_left below lower_right }
    ensures within { IfSome result (λ p. unsigned_abs p ≤ 32896) }
{
    match left {
        None => without_left(lower_left, below, lower_right),
        Some(left) => with_left(left, lower_left, below, lower_right),
    }
}
