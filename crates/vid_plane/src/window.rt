// Windows on a sealed plane (Theora I, 7.9.1).
ghost use Rattle.std.specs.Prelude.{◌≡◌, ◌+◌, ◌<◌, ◌≤◌, true, pos, negsuc, ◌≤ℤ◌, ◌+ℤ◌, ◌-ℤ◌};
ghost use Rattle.vid_plane.specs.Windows.{seen, seen_run, seen_block, IsWindow};

use crate::plane::Plane;

/// Eight by eight samples of a sealed plane, whose lower left one may lie up to 16 samples before the plane or 8 past its end.
/// A coordinate outside the plane means the nearest within (Theora I, 7.9.1). No sample is copied to make one.
#[derive(Clone, Copy)]
pub struct Window<'a> {
    plane: &'a Plane,
    /// Of the lower left sample, counted from 16 before the plane's first.
    column: u32,
    row: u32,
    ghost sealed: { plane.now.sealed ≡ true },
    ghost across: { column ≤ plane.now.width + 24 },
    ghost upwards: { row ≤ plane.now.height + 24 },
    ghost narrow: { column ≤ 1048584 },
    ghost short: { row ≤ 1048584 },
}

/// A coordinate, counted from 16 before the plane's first.
fn from_border(at: i32) -> u32
    requires low { negsuc 15 ≤ℤ at }
    requires high { at ≤ℤ pos 2097152 }
    ensures value { pos result -ℤ pos 16 ≡ at }
    ensures most { pos result ≡ at +ℤ pos 16 }
{
    (at + 16) as u32
}

impl Plane {
    ghost use Rattle.vid_plane.specs.Seen.{picture_of, left_of, lower_of};

    /// The window whose lower left sample is in column x of row y.
    pub fn window(&self, x: i32, y: i32) -> Window<'_>
        requires sealed { self.now.sealed ≡ true }
        requires left { negsuc 15 ≤ℤ x }
        requires right { x ≤ℤ pos (self.now.width + 8) }
        requires lower { negsuc 15 ≤ℤ y }
        requires upper { y ≤ℤ pos (self.now.height + 8) }
        ensures plane { picture_of result ≡ self.now }
        ensures left { left_of result ≡ x }
        ensures lower { lower_of result ≡ y }
    {
        let _width = self.width();
        Window {
            plane: self,
            column: from_border(x),
            row: from_border(y),
        }
    }
}

impl Window<'_> {
    ghost use Rattle.vid_plane.specs.Seen.{picture_of, left_of, lower_of};

    /// The sample dx columns to the right of the lower left one, and dy rows above it.
    pub fn at(&self, dx: u8, dy: u8) -> u8
        requires dx { dx < 8 }
        requires dy { dy < 8 }
        ensures { result ≡ seen (picture_of self.now) (left_of self.now +ℤ pos dx) (lower_of self.now +ℤ pos dy) }
    {
        let plane = self.plane;
        plane.near(self.column + u32::from(dx), self.row + u32::from(dy))
    }

    /// The eight samples dy rows above the lowest.
    pub fn row(&self, dy: u8) -> [u8; 8]
        requires { dy < 8 }
        ensures { result ≡ seen_run (picture_of self.now) (left_of self.now) (lower_of self.now +ℤ pos dy) 8 }
    {
        let plane = self.plane;
        plane.near_row(self.column, self.row + u32::from(dy))
    }

    /// All eight rows, the lowest first.
    pub fn block(&self) -> [[u8; 8]; 8]
        ensures { result ≡ seen_block (picture_of self.now) (left_of self.now) (lower_of self.now) }
    {
        [
            self.row(0),
            self.row(1),
            self.row(2),
            self.row(3),
            self.row(4),
            self.row(5),
            self.row(6),
            self.row(7),
        ]
    }
}
