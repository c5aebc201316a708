// Quantiser matrices (Theora I, 6.4.3).
ghost use Rattle.std.specs.Prelude.{◌≡◌, ℕ, ◌<◌, ◌≤◌, IsTrue, Contains, find, length, slice_index};
ghost use Rattle.std.specs.List.{All};
ghost use Rattle.thr_quant.specs.Ranges.{NameMatrices};
ghost use Rattle.thr_quant.specs.Matrix.{between, holds, least, matrix_at, matrix_on, ranges_at, scale_at, scaled, seen, stretches_of, Stretch as StretchSeen};

use crate::{Ramps, Ranges};

/// The greatest entry of a matrix.
const GREATEST: u32 = 4096;

/// A range where it stands: the quantiser indices at its ends, and the base matrices there.
#[derive(Clone, Copy)]
struct Stretch {
    first: u8,
    last: u8,
    from: u16,
    to: u16,
}

/// The first range that holds a quantiser index.
fn stretch_at(ranges: &Ranges, qi: u8) -> Stretch
    requires { qi < 64 }
    ensures value { find (holds qi) (stretches_of ranges.now) ≡ Some (seen result) }
    ensures holds { (result.first ≤ qi) × (qi ≤ result.last) }
    ensures size { (result.first < result.last) × (result.last ≤ 63) }
    ensures named { (n : ℕ) → NameMatrices n ranges.now → (result.from < n) × (result.to < n) }
    ensures sizes { All (λ range. 0 < range.size) ranges.now.list }
{
    let mut first = 0;
    let mut from = ranges.start;
    for range in ranges.list.iter() {
        let last = first + range.size;
        if qi <= last {
            return Stretch {
                first,
                last,
                from,
                to: range.next,
            };
        }
        first = last;
        from = range.next;
    }
    // The last range ends at index 63.
    unreachable!()
}

/// The value at a quantiser index of a range that has a at its first index and b at its last.
#[tactic(auto, unfolding(crate::specs::Matrix::between))]
fn value_between(stretch: Stretch, qi: u8, a: u8, b: u8) -> u32
    requires holds { (stretch.first ≤ qi) × (qi ≤ stretch.last) }
    requires size { (stretch.first < stretch.last) × (stretch.last ≤ 63) }
    ensures value { result ≡ between (seen stretch) qi a b }
    ensures small { result ≤ 32161 }
{
    let to_last = u32::from(stretch.last - qi);
    let from_first = u32::from(qi - stretch.first);
    let size = u32::from(stretch.last - stretch.first);
    (2 * to_last * u32::from(a) + 2 * from_first * u32::from(b) + size) / (2 * size)
}

/// The least entry at a place.
fn least_entry(qti: u8, k: usize) -> u32
    ensures { result ≡ least qti k }
{
    match (qti, k) {
        (0, 0) => 16,
        (0, _) => 8,
        (_, 0) => 32,
        _ => 16,
    }
}

/// The entry of a base value.
#[tactic(auto, unfolding(crate::specs::Matrix::scaled))]
fn scaled_entry(scale: u16, base: u32, least: u32) -> u16
    requires base { base ≤ 32161 }
    requires least { least ≤ 4096 }
    ensures value { result ≡ scaled scale base least }
    ensures bounds { (least ≤ result) × (result ≤ 4096) }
{
    (u32::from(scale) * base / 100 * 4).min(GREATEST).max(least) as u16
}

impl Ramps {
    /// The ranges of a kind of block in a plane.
    #[tactic(auto, unfolding(crate::specs::Matrix::ranges_at))]
    fn ranges_at(&self, qti: u8, pli: u8) -> &Ranges
        requires { pli < 3 }
        ensures value { result.now ≡ ranges_at self.now qti pli }
        ensures named { NameMatrices (length self.now.matrices) result.now }
    {
        if qti == 0 {
            &self.intra[usize::from(pli)]
        } else {
            &self.inter[usize::from(pli)]
        }
    }

    /// The scale at a place.
    #[tactic(auto, unfolding(crate::specs::Matrix::scale_at))]
    fn scale_at(&self, qi: u8, k: usize) -> u16
        requires { qi < 64 }
        ensures { result ≡ scale_at self.now qi k }
    {
        if k == 0 {
            self.dc[usize::from(qi)]
        } else {
            self.ac[usize::from(qi)]
        }
    }

    /// The matrix at a quantiser index that a range holds.
    fn matrix_on(&self, qti: u8, qi: u8, stretch: Stretch) -> [u16; 64]
        requires index { qi < 64 }
        requires holds { (stretch.first ≤ qi) × (qi ≤ stretch.last) }
        requires size { (stretch.first < stretch.last) × (stretch.last ≤ 63) }
        requires named { (stretch.from < length self.now.matrices) × (stretch.to < length self.now.matrices) }
        ensures value { result ≡ matrix_on self.now qti qi (seen stretch) }
    {
        let from = &self.matrices[usize::from(stretch.from)];
        let to = &self.matrices[usize::from(stretch.to)];
        let mut matrix = [0; 64];
        for (k, entry) in matrix.iter_mut().enumerate() {
            let value = value_between(stretch, qi, from[k], to[k]);
            *entry = scaled_entry(self.scale_at(qi, k), value, least_entry(qti, k));
        }
        matrix
    }

    /// The quantiser matrix of intra (0) or inter (1) blocks in the plane Y, Cb or Cr (0, 1, 2) at a quantiser index below
    /// 64: 64 entries in natural order (Theora I, 6.4.3). Takes no memory.
    #[tactic(auto, unfolding(crate::specs::Matrix::matrix_at, crate::specs::Matrix::ranges_at))]
    pub fn matrix(&self, qti: u8, pli: u8, qi: u8) -> [u16; 64]
        requires kind { qti < 2 }
        requires plane { pli < 3 }
        requires index { qi < 64 }
        ensures value { result ≡ matrix_at self.now qti pli qi }
        // Where two ranges meet both give the same.
        ensures every_range { (stretch : StretchSeen) → Contains (stretches_of (ranges_at self.now qti pli)) stretch
            → IsTrue (holds qi stretch) → result ≡ matrix_on self.now qti qi stretch }
        ensures entries { All (λ v. (8 ≤ v) × (v ≤ 4096)) result }
        ensures first { 16 ≤ slice_index result 0 }
    {
        let stretch = stretch_at(self.ranges_at(qti, pli), qi);
        self.matrix_on(qti, qi, stretch)
    }
}
