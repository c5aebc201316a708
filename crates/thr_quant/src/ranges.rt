// Ranges of quantiser indices (Theora I, 6.4.2).
ghost use Rattle.std.specs.Prelude.{◌≡◌, ⊤, ◌<◌, ◌≤◌, IfOk};
ghost use Rattle.vid_base.specs.Reading.{Gives, SameEnd};

use arrayvec::ArrayVec;
use std::alloc::AllocError;
use std::marker::Model;
use vid_base::{BitReader, PacketFault, ilog};

/// The last quantiser index.
pub const LAST: u8 = 63;

/// A range of quantiser indices: how many steps it takes from the index where the one before ends, at least 1, and the
/// base matrix at its end.
#[derive(Clone, Copy, Debug, PartialEq, Eq, Default)]
pub struct Range {
    pub size: u8,
    pub next: u16,
}

/// The ranges of one kind of block in one plane: the base matrix at quantiser index 0, and ranges that together lead to
/// index 63.
#[derive(Debug, PartialEq, Eq, Drop)]
pub struct Ranges {
    pub start: u16,
    pub list: ArrayVec<Range, 63>,
}

impl Model for Ranges {
    ghost use Rattle.thr_quant.specs.Ranges.{Ranges as Seen, AreWhole};

    ghost Value = { Seen };

    ghost view = { λ r. record { start = r.start; list = r.list.items } };

    ghost invariant = { λ r. AreWhole r.list.items };

    ghost inverse = { λ seen. record { start = seen.start; list = record { items = seen.list } } };
}

impl Ranges {
    /// The same ranges. They fit, since the capacity is the same.
    pub(crate) fn copy(&self) -> Ranges
        ensures { result ≡ self.now }
    {
        let mut list = ArrayVec::new();
        let _ = list.try_extend_from_slice(&self.list);
        Ranges {
            start: self.start,
            list,
        }
    }
}

/// A copy is equal, and takes no memory.
impl Clone for Ranges {
    ghost is_clone = { λ v w. w ≡ v };

    ghost is_infallible = { λ _. ⊤ };

    fn clone(&self) -> Result<Self, AllocError> {
        Ok(self.copy())
    }
}

ghost use Rattle.std.specs.List.{All};
ghost use Rattle.thr_quant.specs.Ranges.{AreWhole, IsMatrixCount, NameMatrices, list_of, matrix_index_of, range_of, ranges_of};

/// The index of one of so many base matrices.
#[tactic(auto, unfolding(crate::specs::Ranges::matrix_index_of))]
fn read_matrix_index(r: &mut BitReader, count: u32) -> Result<u16, PacketFault>
    requires count { IsMatrixCount count }
    ensures value { Gives (λ index. index) result r.new.left (matrix_index_of count r.old.left) }
    ensures named { IfOk result (λ index. index < count) }
    ensures end { SameEnd r.old r.new }
{
    let index = r.take(ilog(count - 1))?;
    if index >= count {
        return Err(PacketFault::MatrixIndex);
    }
    Ok(index as u16)
}

/// A range among so many steps that are left.
#[tactic(auto, unfolding(crate::specs::Ranges::range_of))]
fn read_range(r: &mut BitReader, count: u32, left: u8) -> Result<Range, PacketFault>
    requires count { IsMatrixCount count }
    requires left { (0 < left) × (left ≤ 63) }
    ensures value { Gives (λ range. range) result r.new.left (range_of count left r.old.left) }
    ensures size { IfOk result (λ range. (0 < range.size) × (range.size ≤ left)) }
    ensures named { IfOk result (λ range. range.next < count) }
    ensures end { SameEnd r.old r.new }
{
    let size = r.take(ilog(u32::from(left) - 1))? as u8 + 1;
    let next = read_matrix_index(r, count)?;
    if size > left {
        return Err(PacketFault::Ramp);
    }
    Ok(Range { size, next })
}

/// Ranges until no step is left.
fn read_list(r: &mut BitReader, count: u32) -> Result<ArrayVec<Range, 63>, PacketFault>
    requires count { IsMatrixCount count }
    ensures value { Gives (λ list. list.items) result r.new.left (list_of 63 count 63 r.old.left) }
    ensures whole { IfOk result (λ list. AreWhole list.items) }
    ensures named { IfOk result (λ list. All (λ range. range.next < count) list.items) }
    ensures end { SameEnd r.old r.new }
{
    let mut list = ArrayVec::new();
    let mut left = LAST;
    'steps: while left > 0 {
        let range = read_range(r, count, left)?;
        list.push(range);
        left -= range.size;
    }
    Ok(list)
}

/// Reads ranges whose indices name base matrices out of so many.
#[tactic(auto, unfolding(crate::specs::Ranges::ranges_of))]
pub fn read_ranges(r: &mut BitReader, count: u32) -> Result<Ranges, PacketFault>
    requires count { IsMatrixCount count }
    ensures value { Gives (λ ranges. ranges) result r.new.left (ranges_of count r.old.left) }
    ensures named { IfOk result (λ ranges. NameMatrices count ranges) }
    ensures end { SameEnd r.old r.new }
{
    let start = read_matrix_index(r, count)?;
    let list = read_list(r, count)?;
    Ok(Ranges { start, list })
}
