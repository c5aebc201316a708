// Laws of the definitions that contracts here cite. These functions do nothing: their clauses name lemmas of `proofs/`,
// which the proofs of crates above cite.
ghost use Rattle.std.specs.Prelude.{◌≡◌, ◌<◌, ◌++◌, ℕ, Bool, List, None, Ok, Some, length};
ghost use Rattle.vid_base.specs.Fronts.{ReadsFront};
ghost use Rattle.thr_huff.specs.CodeTree.{CodeTree};
ghost use Rattle.thr_huff.specs.Codes.{codes_of, front_token, token_read};
ghost use Rattle.thr_huff.specs.Trees.{IsForest, forest_at, forest_bits};

/// Trees that were read are 80 that a setup header can hold, any such are read back as they are written, and of the first
/// bits alone they are read as the same, or with the same fault, or are `Ended`.
pub fn trees_of_a_header()
    ensures sound { (forest : List CodeTree) (bits left : List Bool) → forest_at bits ≡ Ok (forest, left) → IsForest forest }
    ensures reads_back { (forest : List CodeTree) (rest : List Bool) → IsForest forest → forest_at (forest_bits forest ++ rest) ≡ Ok (forest, rest) }
    ensures front { ReadsFront forest_at }
{}

/// A token is read from the front: where more bits follow, a token that was read is read as the same, and one that was not
/// takes some of them.
pub fn tokens_read_from_the_front()
    ensures front { (tree : CodeTree) → ReadsFront (token_read (codes_of tree)) }
    ensures more { (tree : CodeTree) (token : ℕ) (bits left more : List Bool) → front_token (codes_of tree) bits ≡ Some (token, left) → front_token (codes_of tree) (bits ++ more) ≡ Some (token, left ++ more) }
    ensures cut { (tree : CodeTree) (token : ℕ) (bits left more : List Bool) → front_token (codes_of tree) bits ≡ None → front_token (codes_of tree) (bits ++ more) ≡ Some (token, left) → length left < length more }
{}
