// The picture of a decoded frame (Theora I, 2.2).
ghost use Rattle.std.specs.Prelude.{◌≡◌, ◌+◌, ◌*◌, ◌<◌, ◌≤◌, ◌++◌, take, drop, length};
ghost use Rattle.vid_plane.specs.Picture.{run_of};
ghost use Rattle.vid_plane.specs.Frames.{IsFrameOf};
ghost use Rattle.y4m_io.specs.Pictures.{samples_of, IsPicture, IsPictureOf};
ghost use Rattle.y4m_io.specs.Crop.{chroma_left, chroma_lower, crop_of, rows_down, shape_of};

use crate::picture::{Picture, columns_of, rows_of};
use thr_ident::Ident;
use vid_plane::{Frame, Plane};

// Writes samples from that place on.
fn put(samples: &mut [u8], at: usize, row: &[u8])
    requires { at + length row.now ≤ length samples.old }
    ensures { samples.new ≡ take at samples.old ++ (row.now ++ drop (at + length row.now) samples.old) }
{
    samples[at..at + row.len()].copy_from_slice(row);
}

// n samples of row y of a plane, from column x on.
fn run(plane: &Plane, x: u32, y: u32, n: u32) -> &[u8]
    requires columns { x + n ≤ plane.now.width }
    requires row { y < plane.now.height }
    ensures { result.now ≡ run_of plane.now x y n }
{
    &plane.row(y)[x as usize..x as usize + n as usize]
}

// Fills a picture's plane with so many columns and rows of a frame's, from column x to the right and row y upwards.
fn crop_plane(into: &mut [u8], plane: &Plane, x: u32, y: u32, columns: u32, rows: u32)
    requires size { length into.old ≡ rows * columns }
    requires columns { x + columns ≤ plane.now.width }
    requires rows { y + rows ≤ plane.now.height }
    requires short { plane.now.height < 2097152 }
    ensures { into.new ≡ rows_down plane.now x y columns rows }
{
    for k in 0..rows {
        let row = run(plane, x, y + (rows - 1 - k), columns);
        put(into, k as usize * columns as usize, row);
    }
}

// The column of a frame's chroma where the picture begins.
fn left_of(x: u8, pf: u8) -> u32
    ensures { result ≡ chroma_left x pf }
{
    u32::from(if pf == 3 { x } else { x / 2 })
}

// The row of a frame's chroma where the picture begins.
fn lower_of(y: u8, pf: u8) -> u32
    ensures { result ≡ chroma_lower y pf }
{
    u32::from(if pf == 0 { y / 2 } else { y })
}

impl Picture {
    /// Takes over the picture that lies in a decoded frame (Theora I, 2.2). Rows of a frame count from the lowest, those
    /// of a picture from the top. Where chroma is subsampled, its start is halved downwards and its size upwards.
    pub fn crop(&mut self, frame: &Frame, ident: &Ident)
        requires picture { IsPictureOf ident.now.picw ident.now.pich ident.now.pf (samples_of self.old) }
        requires frame { IsFrameOf (shape_of ident.now) frame.now }
        ensures value { samples_of self.new ≡ crop_of ident.now frame.now }
        ensures sized { IsPictureOf ident.now.picw ident.now.pich ident.now.pf (samples_of self.new) }
        ensures whole { IsPicture (samples_of self.new) }
    {
        let x = left_of(ident.picx, ident.pf);
        let y = lower_of(ident.picy, ident.pf);
        let columns = columns_of(ident.picw, ident.pf);
        let rows = rows_of(ident.pich, ident.pf);
        crop_plane(
            &mut self.y,
            &frame.y,
            ident.picx.into(),
            ident.picy.into(),
            ident.picw,
            ident.pich,
        );
        crop_plane(&mut self.cb, &frame.cb, x, y, columns, rows);
        crop_plane(&mut self.cr, &frame.cr, x, y, columns, rows);
    }
}
