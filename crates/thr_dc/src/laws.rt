// Laws of DC prediction, beside the calls that change a frame.
ghost use Rattle.std.specs.Prelude.{◌≡◌, ◌<◌, ◌≤◌, ℕ, ℤ, Bool, List, [], All, None, Option, get_or, length, take, unsigned_abs};
ghost use Rattle.thr_token.specs.Tokenised.{AreBlank};
ghost use Rattle.thr_dc.specs.Blocks.{Coded, IsSmall};
ghost use Rattle.thr_dc.specs.Frames.{ChangesDc, IsWithin};
ghost use Rattle.thr_dc.specs.Prediction.{by_new, changed, predicted};

/// Where only DC values of coded blocks change, blank blocks stay blank, and bounds on all values stay where the DC values
/// keep them; a bound on all values is one on the DC values. There is nothing to run.
pub fn only_dc_values_change()
    ensures blank { (flags : List Bool) (old new : List (List ℤ)) → ChangesDc flags old new → AreBlank flags old → AreBlank flags new }
    ensures bounds { (n : ℕ) (flags : List Bool) (old new : List (List ℤ)) → ChangesDc flags old new →
        All (All (λ v. unsigned_abs v ≤ n)) old → IsWithin n flags new → All (All (λ v. unsigned_abs v ≤ n)) new }
    ensures within { (n : ℕ) (flags : List Bool) (values : List (List ℤ)) → All (All (λ v. unsigned_abs v ≤ n)) values → IsWithin n flags values }
{}

/// What becomes of a block is decided by what became of those before it, and a predictor is at most 708 where they are at
/// most 580. There is nothing to run.
pub fn dc_values_are_made_in_order()
    ensures by_new_at { (f : ℤ → ℤ → ℤ) (w : ℕ) (blocks : List (Option Coded)) (place : ℕ) → place < length blocks →
        get_or (by_new f w [] blocks) place None ≡ changed f w (take place (by_new f w [] blocks)) (get_or blocks place None) }
    ensures predictor { (w kind : ℕ) (before : List (Option Coded)) → All (IsSmall 580) before → unsigned_abs (predicted w before kind) ≤ 708 }
{}
