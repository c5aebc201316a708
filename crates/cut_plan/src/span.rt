// Joined slices, one by one (own).
ghost use Rattle.std.specs.Prelude.{◌≡◌, ◌<◌, ◌≤◌, ◌&&◌, ◌==◌, IsTrue, length};
ghost use Rattle.std.specs.List.{position, position_or_len};
ghost use Rattle.cut_list.specs.Slices.{slice_view};
ghost use Rattle.cut_plan.specs.Runs.{first_key};
ghost use Rattle.cut_plan.specs.Views.{span_view};
ghost use Rattle.cut_plan.specs.Spans.{span_of};

use cut_list::Slice;

/// Frames `first` to `past` - 1 of a source: a slice, or some that were joined.
#[derive(Clone, Copy)]
pub(crate) struct Span {
    pub(crate) src: u32,
    pub(crate) first: u32,
    pub(crate) past: u32,
}

// The first key frame.
fn first_place(marks: &[bool]) -> Option<usize>
    ensures { result ≡ position (λ key. key) marks.now }
{
    marks.iter().position(|key| *key)
}

// How many frames stand before the first key frame.
fn before_key(marks: &[bool]) -> usize
    ensures value { result ≡ position_or_len (λ key. key) marks.now }
    ensures within { result ≤ length marks.now }
{
    first_place(marks).unwrap_or(marks.len())
}

impl Span {
    /// The frames of a slice.
    pub(crate) fn of(slice: &Slice) -> Span
        ensures value { span_view result ≡ span_of (slice_view slice.now) }
        ensures ordered { result.first < result.past }
    {
        Span {
            src: slice.src,
            first: slice.first,
            past: slice.past,
        }
    }

    /// Whether a slice begins where these frames end, in the same source.
    pub(crate) fn goes_on_in(self, slice: &Slice) -> bool
        ensures { result ≡ (self.src == slice.now.src && self.past == slice.now.first) }
    {
        self.src == slice.src && self.past == slice.first
    }

    /// The first key frame, or the end.
    pub(crate) fn first_key(self, marks: &[bool]) -> u32
        requires { (self.first ≤ self.past) × (self.past ≤ length marks.now) }
        ensures value { result ≡ first_key marks.now (span_view self) }
        ensures within { (self.first ≤ result) × (result ≤ self.past) }
    {
        let frames = &marks[self.first as usize..self.past as usize];
        self.first + before_key(frames) as u32
    }
}
