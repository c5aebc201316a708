// Laws of the definitions that contracts here cite. The function does nothing: its clauses name lemmas of `proofs/`, which
// the proofs of crates above cite.
ghost use Rattle.std.specs.Prelude.{◌≡◌, ◌+◌, ◌≤◌, ◌^◌, ℕ, Ok, length, map};
ghost use Rattle.cut_list.specs.Slices.{ProgramSlices, slices_view};
ghost use Rattle.cut_plan.specs.Runs.{frames_coded, frames_copied, plan_of, planned_by_runs};
ghost use Rattle.cut_plan.specs.Forced.{marks_of, planned};
ghost use Rattle.cut_plan.specs.Sound.{AllMarks, AreShort, AreSound, IsNearKeys, Runs};
ghost use Rattle.cut_plan.specs.Spans.{all_frames, joined, spans_of};

/// The frames of a plan's runs are those of the joined slices, one by one, each coded or copied as it is forced or not. Each run
/// lies in its source; a Code run has no key frame, and a Copy run begins at one. Where each frame of every source stands fewer
/// than `reach` frames behind a key frame, a Code run has at most `reach` frames. All runs have at most 2^24 frames. Joined slices name the frames of the slices.
pub fn plans_of_a_list()
    ensures planned { (marks : AllMarks) (slices : ProgramSlices) (runs : Runs) → plan_of (map (λ m. length m) marks) marks (slices_view slices) ≡ Ok runs
        → planned_by_runs runs ≡ planned marks (joined (slices_view slices)) }
    ensures sound { (marks : AllMarks) (slices : ProgramSlices) (runs : Runs) → plan_of (map (λ m. length m) marks) marks (slices_view slices) ≡ Ok runs
        → AreSound marks runs }
    ensures short { (marks : AllMarks) (slices : ProgramSlices) (runs : Runs) (reach : ℕ) → plan_of (map (λ m. length m) marks) marks (slices_view slices) ≡ Ok runs
        → ((src : ℕ) → IsNearKeys reach (marks_of marks src)) → AreShort reach runs }
    ensures few { (marks : AllMarks) (slices : ProgramSlices) (runs : Runs) → plan_of (map (λ m. length m) marks) marks (slices_view slices) ≡ Ok runs
        → frames_copied runs + frames_coded runs ≤ 2 ^ 24 }
    ensures joined { (slices : ProgramSlices) → all_frames (joined (slices_view slices)) ≡ all_frames (spans_of (slices_view slices)) }
{}
