// A coded frame: a plane of luma and two of chroma (Theora I, 2.1).
ghost use Rattle.std.specs.Prelude.{◌≡◌, ◌<◌, IfOk};
ghost use Rattle.std.specs.Borrow.{sem};
ghost use Rattle.vid_base.specs.Sizes.{plane_width, plane_height};
ghost use Rattle.vid_plane.specs.Picture.{IsLike};
ghost use Rattle.vid_plane.specs.Frames.{IsFrameOf, plane_of, sealed_frame, blank_frame, blank_plane};
ghost use Rattle.vid_plane.specs.Lending.{EndsPlane};

use crate::plane::Plane;
use std::alloc::Global;
use vid_base::{NoMem, Shape};

/// The three planes of a coded frame.
#[derive(Drop)]
pub struct Frame {
    pub y: Plane,
    pub cb: Plane,
    pub cr: Plane,
}

fn new_plane(alloc: Global, shape: Shape, pli: u8) -> Result<Plane, NoMem>
    requires { pli < 3 }
    ensures { IfOk result (λ p. p ≡ blank_plane shape pli) }
{
    Plane::new(alloc, shape.width(pli), shape.height(pli))
}

impl Frame {
    /// A frame of that shape, all samples 0 and sealed.
    pub fn new(alloc: Global, shape: Shape) -> Result<Frame, NoMem>
        ensures value { IfOk result (λ f. f ≡ blank_frame shape) }
        ensures sized { IfOk result (λ f. IsFrameOf shape f) }
    {
        let y = new_plane(alloc, shape, 0)?;
        let cb = new_plane(alloc, shape, 1)?;
        let cr = new_plane(alloc, shape, 2)?;
        Ok(Frame { y, cb, cr })
    }

    /// A plane: 0 is Y, 1 is Cb, 2 is Cr.
    pub fn plane(&self, pli: u8) -> &Plane
        requires { pli < 3 }
        ensures { result.now ≡ plane_of self.now pli }
    {
        if pli == 0 {
            return &self.y;
        }
        if pli == 1 {
            return &self.cb;
        }
        &self.cr
    }

    /// A plane, to be changed.
    pub fn plane_mut(&mut self, pli: u8) -> &mut Plane
        requires { pli < 3 }
        ensures* lends { sem 𝓛 (EndsPlane self.entry pli result) }
        ensures value { result.now ≡ plane_of self.old pli }
    {
        if pli == 0 {
            return &mut self.y;
        }
        if pli == 1 {
            return &mut self.cb;
        }
        &mut self.cr
    }

    /// Seals each plane.
    pub fn seal(&mut self)
        ensures { self.new ≡ sealed_frame self.old }
    {
        self.y.seal();
        self.cb.seal();
        self.cr.seal();
    }

    /// Takes over all that another frame of this shape shows.
    pub fn copy_from(&mut self, other: &Frame)
        requires y { IsLike self.old.y other.now.y }
        requires cb { IsLike self.old.cb other.now.cb }
        requires cr { IsLike self.old.cr other.now.cr }
        ensures { self.new ≡ other.now }
    {
        self.y.copy_from(&other.y);
        self.cb.copy_from(&other.cb);
        self.cr.copy_from(&other.cr);
    }
}
