// The vectors that are remembered from macro block to macro block (Theora I, 7.5.2).
ghost use Rattle.std.specs.Prelude.{◌≡◌, ◌<◌, Bool, List, replicate};
ghost use Rattle.thr_modes.specs.Chosen.{memory_behind};
ghost use Rattle.thr_modes.specs.Motion.{empty};
ghost use Rattle.thr_modes.specs.Vectors.{offset_of};
ghost use Rattle.enc_search.specs.Views.{memory_of};

use crate::search::{INTER_MV, INTER_MV_LAST2};
use vid_base::Vector;

/// No motion.
pub(crate) const STILL: Vector = Vector { x: 0, y: 0 };

/// LAST1 and LAST2.
#[derive(Clone, Copy)]
pub(crate) struct Remembered {
    pub last1: Vector,
    pub last2: Vector,
}

impl Remembered {
    /// Nothing is remembered.
    #[tactic(auto, unfolding(crate::specs::Views::memory_of, thr_modes::specs::Vectors::offset_of))]
    pub(crate) fn empty() -> Remembered
        ensures { memory_of result ≡ empty }
    {
        Remembered {
            last1: STILL,
            last2: STILL,
        }
    }

    /// What is remembered behind a macro block of one vector.
    #[tactic(auto, unfolding(crate::specs::Views::memory_of, thr_modes::specs::Chosen::memory_behind, thr_modes::specs::Motion::after, thr_modes::specs::Motion::exchanged))]
    pub(crate) fn behind(self, mode: u8, vector: Vector) -> Remembered
        requires { mode < 6 }
        ensures { (luma : List Bool) → memory_of result ≡ memory_behind mode luma (memory_of self) (replicate 4 (offset_of vector)) }
    {
        if mode == INTER_MV {
            return Remembered {
                last1: vector,
                last2: self.last1,
            };
        }
        if mode == INTER_MV_LAST2 {
            return Remembered {
                last1: self.last2,
                last2: self.last1,
            };
        }
        self
    }
}
