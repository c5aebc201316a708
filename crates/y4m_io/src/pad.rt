// A picture in a coded frame (own).
ghost use Rattle.std.specs.Prelude.{◌≡◌, ◌+◌, ◌-◌, ◌*◌, ◌<◌, ◌≤◌, get_or, length, map, min};
ghost use Rattle.std.specs.List.{range_with_len};
ghost use Rattle.vid_plane.specs.Paints.{Paints};
ghost use Rattle.y4m_io.specs.Pictures.{samples_of, IsPicture};
ghost use Rattle.y4m_io.specs.Pad.{pad_of, padded_plane};

use crate::picture::{Picture, columns_of, rows_of};
use vid_plane::{Frame, Plane};

// Eight samples of a row from place x on, of which those behind its end are the last.
fn eight(row: &[u8], x: usize) -> [u8; 8]
    requires some { 0 < length row.now }
    requires x { x ≤ 4294967296 }
    ensures { result ≡ map (λ k. get_or row.now (min (x + k) (length row.now - 1)) 0) (range_with_len 0 8) }
{
    let last = row.len() - 1;
    [
        row[x.min(last)],
        row[(x + 1).min(last)],
        row[(x + 2).min(last)],
        row[(x + 3).min(last)],
        row[(x + 4).min(last)],
        row[(x + 5).min(last)],
        row[(x + 6).min(last)],
        row[(x + 7).min(last)],
    ]
}

// Fills row y of a plane with a row of a picture.
fn pad_row(row: &[u8], into: &mut Plane, y: u32)
    requires some { 0 < length row.now }
    requires y { y < into.old.height }
    ensures { Paints into.old into.new 0 y into.old.width 1 (λ u _. get_or row.now (min u (length row.now - 1)) 0) }
{
    for block in 0..into.width() / 8 {
        into.put_row8(8 * block, y, eight(row, 8 * block as usize));
    }
}

// Fills a plane with a picture's of so many columns and rows.
fn pad_plane(samples: &[u8], columns: u32, rows: u32, into: &mut Plane)
    requires wide { 0 < columns }
    requires high { 0 < rows }
    requires size { length samples.now ≡ rows * columns }
    ensures { into.new ≡ padded_plane into.old.width into.old.height columns rows samples.now }
{
    let n = columns as usize;
    for y in 0..into.height() {
        let at = (rows - 1 - y.min(rows - 1)) as usize * n;
        pad_row(&samples[at..at + n], into, y);
    }
    into.seal();
}

impl Picture {
    /// Puts the picture into a frame, at the lower left: its last column is repeated to the right, and then its top row
    /// upwards. Where the frame is smaller, it takes the lower left part. The frame is sealed.
    pub fn pad(&self, into: &mut Frame)
        requires { IsPicture (samples_of self.now) }
        ensures { into.new ≡ pad_of (samples_of self.now) into.old }
    {
        let columns = columns_of(self.w, self.pf);
        let rows = rows_of(self.h, self.pf);
        pad_plane(&self.y, self.w, self.h, &mut into.y);
        pad_plane(&self.cb, columns, rows, &mut into.cb);
        pad_plane(&self.cr, columns, rows, &mut into.cr);
    }
}
