// Laws of what can be written, beside the calls that write.
ghost use Rattle.std.specs.Prelude.{ℕ, List};
ghost use Rattle.thr_huff.specs.CodeTree.{CodeTree};
ghost use Rattle.thr_huff.specs.Rows.{IsFullRow};
ghost use Rattle.thr_token.specs.declared.token.Token.{Token};
ghost use Rattle.thr_token.specs.Tokenised.{IsToken};
ghost use Rattle.thr_token.specs.WrittenTokens.{IsHeld, same_tables};

/// Where the trees of a number hold all tokens in each group, tables of this number hold each token that can be written.
/// There is nothing to run.
pub fn full_rows_hold_all_tokens()
    ensures held_by_row { (forest : List CodeTree) (number : ℕ) (token : Token) → IsFullRow forest number → IsToken token → IsHeld forest (same_tables number) token }
{}
