// What becomes of a DC value with its predictor (Theora I, 7.8.2).
ghost use Rattle.std.specs.Prelude.{◌≡◌, ◌≤◌, unsigned_abs};
ghost use Rattle.thr_dc.specs.Changes.{value_by};

use vid_base::trunc16;

/// What is done with the DC values of a frame.
#[derive(Clone, Copy)]
pub(crate) enum Change {
    /// Differences become values.
    Undo,
    /// Values become differences.
    Apply,
    /// Values become such as are near their predictors.
    Limit,
}

/// How far a value may be from its predictor after `Change::Limit`.
const LIMIT: i32 = 580;

impl Change {
    /// What becomes of a value.
    pub(crate) fn value(self, value: i16, predictor: i32) -> i16
        requires { unsigned_abs predictor ≤ 32896 }
        ensures { result ≡ value_by self value predictor }
    {
        match self {
            Change::Undo => trunc16(i64::from(value) + i64::from(predictor)),
            Change::Apply => trunc16(i64::from(value) - i64::from(predictor)),
            Change::Limit => { i32::from(value).clamp(predictor - LIMIT, predictor + LIMIT) as i16 }
        }
    }
}
