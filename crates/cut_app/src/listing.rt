// The list of a command, read (own).
ghost use Rattle.std.specs.Prelude.{◌≡◌, ◌≤◌, ◌<◌, Ok, length, IfErr, IfOk, IsErrOf};
ghost use Rattle.vid_desk.specs.Meaning.{HasCause, Rose, Told, with_reads};
ghost use Rattle.cut_list.specs.EditList.{list_of};
ghost use Rattle.cut_list.specs.Slices.{slices_view};
ghost use Rattle.cut_app.specs.Steps.{IsReading, RefusesList};

use cut_desk::{Input, read_input, reading};
use cut_list::{List, ListFault, read_list};
use cut_report::Status;
use std::alloc::Global;
use vid_desk::{Desk, DeskFault};

// The bytes of an input.
fn bytes_of<D: Desk>(alloc: Global, desk: &mut D, input: Input) -> Result<Vec<u8>, DeskFault>
    requires id { input.id < (D.sees desk.old).found }
    requires size { Told (D.sees desk.old) input.id (λ bytes. input.size ≡ length bytes) }
    ensures bytes { IfOk result (λ read. Told (D.sees desk.old) input.id (λ bytes. read.items ≡ bytes)) }
    ensures kept { with_reads (D.sees desk.old) (D.sees desk.new) }
    ensures cause { HasCause (D.sees desk.old).read_faults (D.sees desk.new).read_faults result }
{
    if input.size == 0 {
        return Ok(Vec::new(alloc));
    }
    read_input(alloc, desk, input)
}

/// The list that an input says.
pub(crate) fn list_of<D: Desk>(alloc: Global, desk: &mut D, input: Input) -> Result<List, Status>
    requires id { input.id < (D.sees desk.old).found }
    requires size { Told (D.sees desk.old) input.id (λ bytes. input.size ≡ length bytes) }
    ensures listed { IfOk result (λ list. Told (D.sees desk.old) input.id (λ text. list_of text ≡ Ok (slices_view list.slices.items))) }
    ensures refused { IfErr result (λ status. Told (D.sees desk.old) input.id (λ text. RefusesList text status)) }
    ensures kept { with_reads (D.sees desk.old) (D.sees desk.new) }
    ensures count { (D.sees desk.old).read_faults ≤ (D.sees desk.new).read_faults }
    ensures read { IsErrOf result Status.ReadFault → Rose (D.sees desk.old).read_faults (D.sees desk.new).read_faults }
    ensures only { IfErr result IsReading }
{
    let text = match bytes_of(alloc, desk, input) {
        Ok(text) => text,
        Err(fault) => return Err(reading(fault)),
    };
    match read_list(alloc, &text) {
        Ok(list) => Ok(list),
        Err(ListFault::Bad { line, why }) => Err(Status::BadList { line, why }),
        Err(ListFault::NoMem) => Err(Status::NoMem),
    }
}
