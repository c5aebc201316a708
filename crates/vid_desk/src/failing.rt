// Which calls of a desk in memory are to fail, and what stands of their piece (own).
ghost use Rattle.std.specs.Prelude.{◌≡◌, ◌+◌, ◌-◌, ◌^◌, min, map};
ghost use Rattle.vid_desk.specs.Entry.{failing_of};
ghost use Rattle.vid_desk.specs.Memory.{part_at};

/// A call that is to fail, by its number, and how many first bytes of its piece stand all the same.
#[derive(Clone, Copy, Debug)]
pub struct Failing {
    pub call: u64,
    pub part: usize,
}

/// Counts a call. Where it is to fail, how many first bytes of its piece are to stand.
pub fn next_call(calls: &mut u64, failing: &[Failing]) -> Option<usize>
    ensures part { result ≡ part_at (map failing_of failing.now) calls.old }
    ensures counted { calls.new ≡ min (calls.old + 1) (2 ^ 64 - 1) }
{
    let call = *calls;
    *calls = call.saturating_add(1);
    for failure in failing {
        if failure.call == call {
            return Some(failure.part);
        }
    }
    None
}
