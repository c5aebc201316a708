// A plane of samples, and what is read and written in it (Theora I, 2.1 and 7.9.1).
ghost use Rattle.std.specs.Prelude.{◌≡◌, ◌+◌, ◌*◌, ◌%◌, ◌<◌, ◌≤◌, ◌↔◌, ℕ, IfOk, IsTrue, false, true, [], pos, negsuc, ◌≤ℤ◌, length, map, slice_index, slice_index_or};
ghost use Rattle.std.specs.List.{range_with_len};
ghost use Rattle.vid_plane.specs.Picture.{Picture, pixel, run_of, row_of, with_pixel, with_row, with_rows, sealed_picture, blank, IsPicture, IsLike};
ghost use Rattle.vid_plane.specs.Paints.{Paints};
ghost use Rattle.vid_plane.specs.Border.{nearest};

use crate::border::{eight, fill, four, place, place_from_corner, put, put_eight, stride, zeros};
use std::alloc::Global;
use std::marker::Model;
use vid_base::NoMem;

/// A plane of a coded frame: samples in columns from the left and rows from the lowest, which is row 0 (Theora I, 2.1).
///
/// In its buffer the samples have a border of 16 on each side, which sealing fills with the nearest sample of the plane. So
/// that a window reads past an edge without a test.
#[derive(Drop)]
pub struct Plane {
    width: u32,
    height: u32,
    buffer: Vec<u8>,
    sealed: bool,
}

impl Model for Plane {
    ghost use Rattle.vid_plane.specs.Picture.{Picture};
    ghost use Rattle.vid_plane.specs.Border.{shown, IsPlane};

    ghost Value = { Picture };

    ghost view = { λ p. shown p.width p.height p.buffer.items p.sealed };

    ghost invariant = { λ p. IsPlane p.width p.height p.buffer.items p.sealed };
}

impl Plane {
    /// A plane of samples 0, sealed.
    pub(crate) fn new(alloc: Global, width: u32, height: u32) -> Result<Plane, NoMem>
        requires wide { 0 < width }
        requires high { 0 < height }
        requires columns { width % 8 ≡ 0 }
        requires rows { height % 8 ≡ 0 }
        requires narrow { width ≤ 1048560 }
        requires short { height ≤ 1048560 }
        requires small { width * height ≤ 33554432 }
        ensures { IfOk result (λ p. p ≡ blank width height) }
    {
        let rows = height as usize + 32;
        let buffer = zeros(alloc, stride(width) * rows)?;
        Ok(Plane {
            width,
            height,
            buffer,
            sealed: true,
        })
    }

    /// Samples in a row. Like `height` it also says what is true of every plane: its sizes, and a sample for each place.
    pub fn width(&self) -> u32
        ensures value { result ≡ self.now.width }
        ensures sized { IsPicture self.now }
    {
        self.width
    }

    /// Rows of samples.
    pub fn height(&self) -> u32
        ensures value { result ≡ self.now.height }
        ensures sized { IsPicture self.now }
    {
        self.height
    }

    /// Whether the border shows the samples as they are now.
    pub fn sealed(&self) -> bool
        ensures { result ≡ self.now.sealed }
    {
        self.sealed
    }

    /// The sample in column x of row y.
    pub fn sample(&self, x: u32, y: u32) -> u8
        requires column { x < self.now.width }
        requires row { y < self.now.height }
        ensures { result ≡ pixel self.now x y }
    {
        self.buffer[place(self.width, x, y)]
    }

    /// Changes the sample in column x of row y, and unseals.
    pub fn set(&mut self, x: u32, y: u32, v: u8)
        requires column { x < self.old.width }
        requires row { y < self.old.height }
        ensures value { self.new ≡ with_pixel self.old x y v }
        ensures paints { Paints self.old self.new x y 1 1 (λ _ _. v) }
    {
        let at = place(self.width, x, y);
        self.buffer[at] = v;
        self.sealed = false;
    }

    /// The samples of row y, from the left.
    pub fn row(&self, y: u32) -> &[u8]
        requires { y < self.now.height }
        ensures value { result.now ≡ row_of self.now y }
        ensures sized { length result.now ≡ self.now.width }
    {
        let at = place(self.width, 0, y);
        &self.buffer[at..at + self.width as usize]
    }

    /// Changes the samples of row y, and unseals.
    pub fn set_row(&mut self, y: u32, row: &[u8])
        requires row { y < self.old.height }
        requires size { length row.now ≡ self.old.width }
        ensures value { self.new ≡ with_row self.old 0 y row.now }
        ensures paints { Paints self.old self.new 0 y self.old.width 1 (λ u _. slice_index row.now u) }
    {
        let at = place(self.width, 0, y);
        put(self.buffer.as_mut_slice(), at, row);
        self.sealed = false;
    }

    /// Eight samples of row y, from column x on.
    pub fn row8(&self, x: u32, y: u32) -> [u8; 8]
        requires columns { x + 8 ≤ self.now.width }
        requires row { y < self.now.height }
        ensures value { result ≡ run_of self.now x y 8 }
    {
        eight(self.buffer.as_slice(), place(self.width, x, y))
    }

    /// Changes eight samples of row y, from column x on, and unseals.
    pub fn put_row8(&mut self, x: u32, y: u32, row: [u8; 8])
        requires columns { x + 8 ≤ self.old.width }
        requires row { y < self.old.height }
        ensures value { self.new ≡ with_row self.old x y row }
        ensures paints { Paints self.old self.new x y 8 1 (λ u _. slice_index row u) }
    {
        let at = place(self.width, x, y);
        put_eight(self.buffer.as_mut_slice(), at, &row);
        self.sealed = false;
    }

    /// Four samples of row y, from column x on.
    pub fn four(&self, x: u32, y: u32) -> [u8; 4]
        requires columns { x + 4 ≤ self.now.width }
        requires row { y < self.now.height }
        ensures value { result ≡ run_of self.now x y 4 }
    {
        four(self.buffer.as_slice(), place(self.width, x, y))
    }

    /// Changes two samples of row y, in column x and the one to its right, and unseals.
    pub fn put_two(&mut self, x: u32, y: u32, pair: [u8; 2])
        requires columns { x + 2 ≤ self.old.width }
        requires row { y < self.old.height }
        ensures value { self.new ≡ with_pixel (with_pixel self.old x y (slice_index pair 0)) (x + 1) y (slice_index pair 1) }
        ensures paints { Paints self.old self.new x y 2 1 (λ u _. slice_index pair u) }
    {
        let at = place(self.width, x, y);
        self.buffer[at] = pair[0];
        self.buffer[at + 1] = pair[1];
        self.sealed = false;
    }

    /// Changes eight rows of eight samples, from column x and row y on, and unseals.
    pub fn set_block(&mut self, x: u32, y: u32, rows: &[[u8; 8]; 8])
        requires columns { x + 8 ≤ self.old.width }
        requires rows { y + 8 ≤ self.old.height }
        ensures value { self.new ≡ with_rows self.old x y rows.now }
        ensures paints { Paints self.old self.new x y 8 8 (λ u v. slice_index (slice_index_or rows.now v []) u) }
    {
        let at = place(self.width, x, y);
        let stride = stride(self.width);
        let buffer = self.buffer.as_mut_slice();
        let [a, b, c, d, e, f, g, h] = rows;
        put_eight(buffer, at, a);
        put_eight(buffer, at + stride, b);
        put_eight(buffer, at + 2 * stride, c);
        put_eight(buffer, at + 3 * stride, d);
        put_eight(buffer, at + 4 * stride, e);
        put_eight(buffer, at + 5 * stride, f);
        put_eight(buffer, at + 6 * stride, g);
        put_eight(buffer, at + 7 * stride, h);
        self.sealed = false;
    }

    /// Takes over all that another plane of this size shows.
    pub fn copy_from(&mut self, other: &Plane)
        requires { IsLike self.old other.now }
        ensures { self.new ≡ other.now }
    {
        self.buffer.copy_from_slice(other.buffer.as_slice());
        self.sealed = other.sealed;
    }

    /// Fills the border.
    pub fn seal(&mut self)
        ensures { self.new ≡ sealed_picture self.old }
    {
        fill(self.buffer.as_mut_slice(), self.width, self.height);
        self.sealed = true;
    }

    /// The sample in a column and a row that are counted from 16 before the first.
    pub(crate) fn near(&self, column: u32, row: u32) -> u8
        requires sealed { self.now.sealed ≡ true }
        requires column { column < self.now.width + 32 }
        requires row { row < self.now.height + 32 }
        ensures { result ≡ pixel self.now (nearest column self.now.width) (nearest row self.now.height) }
    {
        self.buffer[place_from_corner(self.width, column, row)]
    }

    /// Eight such samples of a row.
    pub(crate) fn near_row(&self, column: u32, row: u32) -> [u8; 8]
        requires sealed { self.now.sealed ≡ true }
        requires columns { column + 8 ≤ self.now.width + 32 }
        requires row { row < self.now.height + 32 }
        ensures { result ≡ map (λ k. pixel self.now (nearest (column + k) self.now.width) (nearest row self.now.height)) (range_with_len 0 8) }
    {
        eight(
            self.buffer.as_slice(),
            place_from_corner(self.width, column, row),
        )
    }
}
