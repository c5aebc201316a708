// Laws of the definitions that contracts here cite. The function does nothing: its clauses name lemmas of `proofs/`, which
// the proofs of crates above cite.
ghost use Rattle.std.specs.Prelude.{◌≡◌, ◌<◌, Ok, length};
ghost use Rattle.cut_list.specs.EditList.{list_of};
ghost use Rattle.cut_list.specs.Listed.{AreSlices};
ghost use Rattle.cut_list.specs.Slices.{Bytes, Slices};

/// A text that is a list says at least one slice. Their lines rise from line 2 on, each has a frame, and their numbers are in
/// the limits.
pub fn lists_of_a_text()
    ensures some { (text : Bytes) (slices : Slices) → list_of text ≡ Ok slices → 0 < length slices }
    ensures listed { (text : Bytes) (slices : Slices) → list_of text ≡ Ok slices → AreSlices 2 slices }
{}
