// The predictor to which a motion vector leads (Theora I, 7.9.1.2, 7.9.1.3 and 7.9.4).
ghost use Rattle.std.specs.Prelude.{◌≡◌, ◌+◌, ◌≤◌, ◌≤ℤ◌, pos, negsuc, true};
ghost use Rattle.thr_recon.specs.Predicted.{shown, signed, near_offset, far_offset, predicted};

use crate::predictor::Predictor;
use vid_base::Vector;
use vid_plane::Plane;

/// That many samples in a component's direction.
#[tactic(auto, unfolding(crate::specs::Predicted::signed))]
fn signed(component: i8, size: u8) -> i32
    requires { size ≤ 16 }
    ensures value { result ≡ signed component size }
    ensures low { negsuc 15 ≤ℤ result }
    ensures high { result ≤ℤ pos 16 }
{
    let samples = i32::from(size);
    if component < 0 { -samples } else { samples }
}

/// The whole samples of a component, which counts halves or quarters of one, rounded towards zero.
fn near_offset(component: i8, quarters: bool) -> i32
    requires low { negsuc 30 ≤ℤ component }
    requires high { component ≤ℤ pos 31 }
    ensures value { result ≡ near_offset quarters component }
    ensures low { negsuc 15 ≤ℤ result }
    ensures high { result ≤ℤ pos 16 }
{
    let size = component.unsigned_abs();
    signed(component, if quarters { size / 4 } else { size / 2 })
}

/// And rounded away from zero.
fn far_offset(component: i8, quarters: bool) -> i32
    requires low { negsuc 30 ≤ℤ component }
    requires high { component ≤ℤ pos 31 }
    ensures value { result ≡ far_offset quarters component }
    ensures low { negsuc 15 ≤ℤ result }
    ensures high { result ≤ℤ pos 16 }
{
    let size = component.unsigned_abs();
    signed(
        component,
        if quarters {
            (size + 3) / 4
        } else {
            (size + 1) / 2
        },
    )
}

/// The predictor of the block whose lower left sample is in column x of row y, by a vector. `half_x` and `half_y` say that the
/// plane is subsampled on that axis: there the vector counts quarters of a sample, and else halves. Samples between two are the
/// mean of the nearest on both sides; coordinates outside the plane mean the nearest within (Theora I, 7.9.1 and 7.9.4).
pub fn predict(
    reference: &Plane,
    x: u32,
    y: u32,
    vector: Vector,
    half_x: bool,
    half_y: bool,
) -> Predictor<'_>
    requires sealed { reference.now.sealed ≡ true }
    requires columns { x + 8 ≤ reference.now.width }
    requires rows { y + 8 ≤ reference.now.height }
    ensures { shown result ≡ predicted reference.now x y vector half_x half_y }
{
    let _width = reference.width();
    let column = x as i32;
    let row = y as i32;
    let near_x = near_offset(vector.x, half_x);
    let near_y = near_offset(vector.y, half_y);
    let far_x = far_offset(vector.x, half_x);
    let far_y = far_offset(vector.y, half_y);
    let near = reference.window(column + near_x, row + near_y);
    if near_x == far_x && near_y == far_y {
        return Predictor::One(near);
    }
    Predictor::Two(near, reference.window(column + far_x, row + far_y))
}
