// Why a call on a desk is refused (own).
ghost use Rattle.std.specs.Prelude.{◌≡◌};
ghost use Rattle.vid_desk.specs.declared.fault.DeskFault.TheVariants.{Failed as FailedCall, NoMem as NoMemory};

use std::alloc::{AllocError, AllocFailed};
use thiserror::Error;
use vid_base::NoMem;

/// A read of an input failed.
#[derive(Clone, Copy, Debug, PartialEq, Eq, Error)]
#[error("a read failed")]
pub struct Failed;

/// Why a call on a desk was refused.
#[derive(Clone, Copy, Debug, PartialEq, Eq, Error)]
pub enum DeskFault {
    /// A read or a write outside the program failed.
    #[error("a read or a write failed")]
    Failed,
    /// No memory was found.
    #[error("no memory was found")]
    NoMem,
}

impl From<Failed> for DeskFault {
    ghost from_gives = { λ _ fault. fault ≡ FailedCall };

    fn from(_: Failed) -> Self {
        DeskFault::Failed
    }
}

impl From<NoMem> for DeskFault {
    ghost from_gives = { λ _ fault. fault ≡ NoMemory };

    fn from(_: NoMem) -> Self {
        DeskFault::NoMem
    }
}

impl From<AllocError> for DeskFault {
    ghost from_gives = { λ _ fault. fault ≡ NoMemory };

    fn from(_: AllocError) -> Self {
        DeskFault::NoMem
    }
}

impl<T: Drop> From<AllocFailed<T>> for DeskFault {
    ghost from_gives = { λ _ fault. fault ≡ NoMemory };

    fn from(_: AllocFailed<T>) -> Self {
        DeskFault::NoMem
    }
}
