// Faults of a desk as statuses (own).
ghost use Rattle.std.specs.Prelude.{◌≡◌};
ghost use Rattle.cut_desk.specs.Statuses.{reading_status, writing_status};

use cut_report::Status;
use vid_desk::DeskFault;

/// The status of a fault of a desk that reads.
pub fn reading(fault: DeskFault) -> Status
    ensures { result ≡ reading_status fault }
{
    match fault {
        DeskFault::Failed => Status::ReadFault,
        DeskFault::NoMem => Status::NoMem,
    }
}

/// The status of a fault of a desk that writes.
pub fn writing(fault: DeskFault) -> Status
    ensures { result ≡ writing_status fault }
{
    match fault {
        DeskFault::Failed => Status::WriteFault,
        DeskFault::NoMem => Status::NoMem,
    }
}
