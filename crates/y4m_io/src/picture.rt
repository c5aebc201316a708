// Pictures of three planes (own).
ghost use Rattle.std.specs.Prelude.{◌≡◌, ◌<◌, IfOk};
ghost use Rattle.y4m_io.specs.Pictures.{blank_samples, chroma_columns, chroma_rows, samples_of, IsPicture, IsPictureOf, IsSize};

use std::alloc::Global;
use vid_base::NoMem;

/// A picture: samples in rows from the top, each row from the left. Chroma has half the columns in 4:2:0 and 4:2:2 and half
/// the rows in 4:2:0, rounded upwards.
#[derive(Debug, Drop, PartialEq, Eq)]
pub struct Picture {
    /// Columns of luma.
    pub w: u32,
    /// Rows of luma.
    pub h: u32,
    /// The pixel format: 0 is 4:2:0, 2 is 4:2:2, 3 is 4:4:4.
    pub pf: u8,
    pub y: Vec<u8>,
    pub cb: Vec<u8>,
    pub cr: Vec<u8>,
}

/// Columns of chroma.
pub(crate) fn columns_of(w: u32, pf: u8) -> u32
    requires { w < 4294967295 }
    ensures { result ≡ chroma_columns w pf }
{
    if pf == 3 { w } else { (w + 1) / 2 }
}

/// Rows of chroma.
pub(crate) fn rows_of(h: u32, pf: u8) -> u32
    requires { h < 4294967295 }
    ensures { result ≡ chroma_rows h pf }
{
    if pf == 0 { (h + 1) / 2 } else { h }
}

impl Picture {
    /// A picture of w columns and h rows, all samples 0.
    pub fn new(alloc: Global, w: u32, h: u32, pf: u8) -> Result<Picture, NoMem>
        requires { IsSize w h pf }
        ensures value { IfOk result (λ p. samples_of p ≡ blank_samples w h pf) }
        ensures sized { IfOk result (λ p. IsPictureOf w h pf (samples_of p)) }
        ensures whole { IfOk result (λ p. IsPicture (samples_of p)) }
    {
        let luma = w as usize * h as usize;
        let chroma = columns_of(w, pf) as usize * rows_of(h, pf) as usize;
        let y = vec![in alloc; 0u8; luma]?;
        let cb = vec![in alloc; 0u8; chroma]?;
        let cr = vec![in alloc; 0u8; chroma]?;
        Ok(Picture {
            w,
            h,
            pf,
            y,
            cb,
            cr,
        })
    }
}
