// Where a byte first stands (own).
ghost use Rattle.std.specs.Prelude.{◌≡◌, ◌≢◌, ◌<◌, ℕ, EachIndex, MatchOption, length, slice_index};
ghost use Rattle.cut_list.specs.Places.{IsFirstPlace};

/// The place of the first byte that is `wanted`.
pub(crate) fn place_of(wanted: u8, bytes: &[u8]) -> Option<usize>
    ensures { MatchOption result (EachIndex bytes.now (λ k. slice_index bytes.now k ≢ wanted)) (IsFirstPlace wanted bytes.now) }
{
    bytes.iter().position(|c| *c == wanted)
}
