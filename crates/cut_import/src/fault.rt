// Faults of an input as statuses (own).
ghost use Rattle.std.specs.Prelude.{◌≡◌};
ghost use Rattle.cut_import.specs.Statuses.{departure_status};

use cut_report::Status;
use y4m_io::Y4mFault;

/// The status of an input that was not read on.
pub(crate) fn departure(fault: Y4mFault) -> Status
    ensures { result ≡ departure_status fault }
{
    match fault {
        Y4mFault::Bad { frame, why } => Status::BadY4m { frame, why },
        Y4mFault::ReadFault => Status::ReadFault,
        Y4mFault::NoMem => Status::NoMem,
    }
}
