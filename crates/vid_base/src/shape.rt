// Sizes of a coded frame and its planes (Theora I, 2.1 and 4.4).
ghost use Rattle.std.specs.Prelude.{◌≡◌, ◌≢◌, ◌*◌, ◌<◌, ◌≤◌, ◌↔◌, ◌≤ℤ◌, pos, negsuc, IsSome, IfSome};
ghost use Rattle.vid_base.specs.Sizes.{IsShape, most_macro_blocks, plane_width, plane_height};

/// The most macro blocks of a frame (own).
pub const MOST_MACRO_BLOCKS: u32 = 131_072;

/// A motion vector in half samples of a plane of full size, to the right and upwards (Theora I, 7.5.1).
#[derive(Clone, Copy, Debug, PartialEq, Eq)]
pub struct Vector {
    pub x: i8,
    pub y: i8,
    ghost across: { (negsuc 30 ≤ℤ x) × (x ≤ℤ pos 31) },
    ghost upwards: { (negsuc 30 ≤ℤ y) × (y ≤ℤ pos 31) },
}

/// A coded frame's size in macro blocks, and its pixel format: 0 is 4:2:0, 2 is 4:2:2, 3 is 4:4:4.
#[derive(Clone, Copy, Debug, PartialEq, Eq)]
pub struct Shape {
    pub fmbw: u16,
    pub fmbh: u16,
    pub pf: u8,
    ghost wide: { 0 < fmbw },
    ghost high: { 0 < fmbh },
    ghost small: { fmbw * fmbh ≤ most_macro_blocks },
    ghost format: { (pf ≤ 3) × (pf ≢ 1) },
}

impl Shape {
    /// The shape of that many macro blocks; None where a size is 0, their product passes 131,072, or the format is
    /// reserved or unknown.
    pub fn new(fmbw: u16, fmbh: u16, pf: u8) -> Option<Shape>
        ensures some { IsSome result ↔ IsShape fmbw fmbh pf }
        ensures fields { IfSome result (λ s. (s.fmbw ≡ fmbw) × (s.fmbh ≡ fmbh) × (s.pf ≡ pf)) }
    {
        if fmbw == 0 || fmbh == 0 || pf > 3 || pf == 1 {
            return None;
        }
        if u32::from(fmbw) * u32::from(fmbh) > MOST_MACRO_BLOCKS {
            return None;
        }
        Some(Shape { fmbw, fmbh, pf })
    }

    /// Samples in a row of a plane: 0 is Y, 1 is Cb, 2 is Cr.
    pub fn width(self, pli: u8) -> u32
        requires { pli < 3 }
        ensures { result ≡ plane_width self.fmbw self.pf pli }
    {
        let blocks = u32::from(self.fmbw);
        if pli == 0 || self.pf == 3 {
            16 * blocks
        } else {
            8 * blocks
        }
    }

    /// Rows of samples of a plane: 0 is Y, 1 is Cb, 2 is Cr.
    pub fn height(self, pli: u8) -> u32
        requires { pli < 3 }
        ensures { result ≡ plane_height self.fmbh self.pf pli }
    {
        let blocks = u32::from(self.fmbh);
        if pli == 0 || self.pf != 0 {
            16 * blocks
        } else {
            8 * blocks
        }
    }
}
