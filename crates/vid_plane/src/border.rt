// The buffer of a plane: its samples in the middle, and a border of 16 samples on each side (Theora I, 7.9.1).
ghost use Rattle.std.specs.Prelude.{◌≡◌, ℕ, ◌+◌, ◌*◌, ◌<◌, ◌≤◌, ◌≢◌, length, get_or, map, slice_index, replicate, IfOk};
ghost use Rattle.std.specs.List.{range_with_len};
ghost use Rattle.vid_plane.specs.Border.{cell, nearest, inner, IsWidened, IsStretched, IsFramed, written};

use std::alloc::Global;
use vid_base::NoMem;

/// Samples of the border beyond each edge. A vector leads at most 16 samples out of a plane.
const BORDER: usize = 16;

/// Samples from a row of the buffer to the next.
pub(crate) fn stride(width: u32) -> usize
    ensures { result ≡ width + 32 }
{
    width as usize + 2 * BORDER
}

/// The place in the buffer of a plane's sample.
pub(crate) fn place(width: u32, x: u32, y: u32) -> usize
    requires narrow { width ≤ 1048560 }
    requires column { x ≤ 1048560 }
    requires row { y ≤ 1048560 }
    ensures { result ≡ cell width (x + 16) (y + 16) }
{
    (y as usize + BORDER) * stride(width) + (x as usize + BORDER)
}

/// The place in the buffer of a column and a row that are counted from its corner.
pub(crate) fn place_from_corner(width: u32, column: u32, row: u32) -> usize
    requires narrow { width ≤ 1048560 }
    requires column { column ≤ 2097152 }
    requires row { row ≤ 2097152 }
    ensures { result ≡ cell width column row }
{
    row as usize * stride(width) + column as usize
}

/// Eight samples from that place on.
pub(crate) fn eight(buffer: &[u8], at: usize) -> [u8; 8]
    requires { at + 8 ≤ length buffer.now }
    ensures { result ≡ map (λ k. slice_index buffer.now (at + k)) (range_with_len 0 8) }
{
    [
        buffer[at],
        buffer[at + 1],
        buffer[at + 2],
        buffer[at + 3],
        buffer[at + 4],
        buffer[at + 5],
        buffer[at + 6],
        buffer[at + 7],
    ]
}

/// Four samples from that place on.
pub(crate) fn four(buffer: &[u8], at: usize) -> [u8; 4]
    requires { at + 4 ≤ length buffer.now }
    ensures { result ≡ map (λ k. slice_index buffer.now (at + k)) (range_with_len 0 4) }
{
    [buffer[at], buffer[at + 1], buffer[at + 2], buffer[at + 3]]
}

/// A buffer of that many samples 0.
pub(crate) fn zeros(alloc: Global, n: usize) -> Result<Vec<u8>, NoMem>
    ensures { IfOk result (λ v. v.items ≡ replicate n 0) }
{
    Ok(vec![in alloc; 0u8; n]?)
}

/// Writes samples from that place on.
pub(crate) fn put(buffer: &mut [u8], at: usize, samples: &[u8])
    requires { at + length samples.now ≤ length buffer.old }
    ensures { buffer.new ≡ written buffer.old at samples.now }
{
    buffer[at..at + samples.len()].copy_from_slice(samples);
}

/// Writes eight samples from that place on.
pub(crate) fn put_eight(buffer: &mut [u8], at: usize, row: &[u8; 8])
    requires { at + 8 ≤ length buffer.old }
    ensures value { buffer.new ≡ written buffer.old at row.now }
    ensures eight { length row.now ≡ 8 }
{
    buffer[at..at + 8].copy_from_slice(row);
}

/// Writes one sample into one side of a row's border.
fn spread(samples: &mut [u8], v: u8)
    requires { length samples.old ≡ 16 }
    ensures { samples.new ≡ replicate 16 v }
{
    samples.fill(v);
}

/// Extends a row of the buffer to both sides.
fn widen(buffer: &mut [u8], width: u32, row: usize)
    requires wide { 0 < width }
    requires narrow { width ≤ 1048560 }
    requires row { row ≤ 2097152 }
    requires size { row * (width + 32) + (width + 32) ≤ length buffer.old }
    ensures own { (X : ℕ) → X < width + 32 → slice_index buffer.new (cell width X row) ≡ slice_index buffer.old (cell width (nearest X width + 16) row) }
    ensures others { (X Y : ℕ) → X < width + 32 → Y ≢ row → slice_index buffer.new (cell width X Y) ≡ slice_index buffer.old (cell width X Y) }
{
    let at = row * stride(width);
    let past = at + BORDER + width as usize;
    let first = buffer[at + BORDER];
    let last = buffer[past - 1];
    spread(&mut buffer[at..at + BORDER], first);
    spread(&mut buffer[past..past + BORDER], last);
}

fn widen_rows(buffer: &mut [u8], width: u32, height: u32)
    requires size { length buffer.old ≡ (width + 32) * (height + 32) }
    requires wide { 0 < width }
    requires narrow { width ≤ 1048560 }
    requires short { height ≤ 1048560 }
    ensures { IsWidened width height buffer.old buffer.new }
{
    for y in 0..height {
        widen(buffer, width, y as usize + BORDER);
    }
}

/// Copies a row of the buffer to another.
fn copy_row(buffer: &mut [u8], width: u32, from: usize, to: usize)
    requires narrow { width ≤ 1048560 }
    requires from { from ≤ 2097152 }
    requires to { to ≤ 2097152 }
    requires has_from { from * (width + 32) + (width + 32) ≤ length buffer.old }
    requires has_to { to * (width + 32) + (width + 32) ≤ length buffer.old }
    requires apart { from ≢ to }
    ensures own { (X : ℕ) → X < width + 32 → slice_index buffer.new (cell width X to) ≡ slice_index buffer.old (cell width X from) }
    ensures others { (X Y : ℕ) → X < width + 32 → Y ≢ to → slice_index buffer.new (cell width X Y) ≡ slice_index buffer.old (cell width X Y) }
{
    let stride = stride(width);
    if to < from {
        let (low, high) = buffer.split_at_mut(from * stride);
        low[to * stride..to * stride + stride].copy_from_slice(&high[..stride]);
    } else {
        let (low, high) = buffer.split_at_mut(to * stride);
        high[..stride].copy_from_slice(&low[from * stride..from * stride + stride]);
    }
}

/// Copies the lowest row of the middle below, and the highest above.
fn stretch(buffer: &mut [u8], width: u32, height: u32)
    requires size { length buffer.old ≡ (width + 32) * (height + 32) }
    requires high { 0 < height }
    requires narrow { width ≤ 1048560 }
    requires short { height ≤ 1048560 }
    ensures { IsStretched width height buffer.old buffer.new }
{
    let past = height as usize + BORDER;
    for k in 0..BORDER {
        copy_row(buffer, width, BORDER, k);
        copy_row(buffer, width, past - 1, past + k);
    }
}

/// Fills the border, each sample with the nearest of the middle.
pub(crate) fn fill(buffer: &mut [u8], width: u32, height: u32)
    requires size { length buffer.old ≡ (width + 32) * (height + 32) }
    requires wide { 0 < width }
    requires high { 0 < height }
    requires narrow { width ≤ 1048560 }
    requires short { height ≤ 1048560 }
    ensures framed { IsFramed width height buffer.new }
    ensures same { inner width height buffer.new ≡ inner width height buffer.old }
    ensures size { length buffer.new ≡ length buffer.old }
{
    widen_rows(buffer, width, height);
    stretch(buffer, width, height);
}
