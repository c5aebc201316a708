// Laws of the definitions alone.
ghost use Rattle.std.specs.Prelude.{◌≡◌, length};
ghost use Rattle.enc_search.specs.Searched.{candidates};

/// There are 83 candidates.
#[tactic(auto, unfolding(crate::specs::Searched::candidates, crate::specs::Searched::moves))]
pub fn candidates_of_a_macro_block()
    ensures { length candidates ≡ 83 }
{}
