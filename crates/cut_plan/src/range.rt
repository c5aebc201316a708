// The range of a list (own).
ghost use Rattle.std.specs.Prelude.{◌≡◌, ◌≤◌, ◌^◌, None, Some, length};
ghost use Rattle.cut_list.specs.Slices.{slice_view, slices_view};
ghost use Rattle.cut_plan.specs.Range.{first_outside, is_inside};

use cut_list::Slice;

/// How many frames a list has at most.
const FRAMES: u32 = 16_777_216;

// Whether a slice is in range, where those before have `listed` frames.
fn is_inside(counts: &[u32], listed: u32, slice: &Slice) -> bool
    requires { listed ≤ 2 ^ 24 }
    ensures { result ≡ is_inside counts.now listed (slice_view slice.now) }
{
    slice.src >= 1
        && slice.src as usize <= counts.len()
        && slice.past <= counts[slice.src as usize - 1]
        && slice.past - slice.first <= FRAMES - listed
}

/// The line of the first slice out of range.
pub(crate) fn first_outside(slices: &[Slice], counts: &[u32]) -> Option<u32>
    ensures { result ≡ first_outside counts.now 0 (slices_view slices.now) }
{
    let mut listed = 0;
    for slice in slices {
        if !is_inside(counts, listed, slice) {
            return Some(slice.line);
        }
        listed += slice.past - slice.first;
    }
    None
}
