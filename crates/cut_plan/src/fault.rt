// Why there is no plan (own).
ghost use Rattle.std.specs.Prelude.{◌≡◌};
ghost use Rattle.cut_plan.specs.declared.fault.PlanFault.TheVariants.{NoMem};

use std::alloc::AllocFailed;

/// Why a list has no plan: its first line out of range, or want of memory. Lines count from 1.
#[derive(Clone, Copy, Debug, PartialEq, Eq)]
pub enum PlanFault {
    Range { line: u32 },
    NoMem,
}

impl<T: Drop> From<AllocFailed<T>> for PlanFault {
    ghost from_gives = { λ _ fault. fault ≡ NoMem };

    fn from(_: AllocFailed<T>) -> Self {
        PlanFault::NoMem
    }
}
