// The inputs of a command that has a list and a source (own).
ghost use Rattle.std.specs.Prelude.{◌≡◌, ◌<◌, ◌≤◌, ◌∷◌, [], length, Some, IfOk, IfErr, IsErrOf, vec_len};
ghost use Rattle.vid_desk.specs.Meaning.{Told, ToldFiles, HasCause, Rose, place_of, bytes_at, with_reads};
ghost use Rattle.cut_desk.specs.Looking.{IsLooking, Missing};
ghost use Rattle.cut_desk.specs.Outputs.{Looks, Seeks};

use crate::fault::reading;
use cut_report::Status;
use std::alloc::{AllocError, Global};
use vid_desk::{Desk, DeskFault};

/// An input: its id, and how many bytes it has.
#[derive(Clone, Copy)]
pub struct Input {
    pub id: u32,
    pub size: u64,
}

/// The edit list and the source.
#[derive(Clone, Copy)]
pub struct Inputs {
    pub list: Input,
    pub source: Input,
}

/// Looks for a list and a source, the first and the second input of a command, and then for their sizes. The first of them that
/// is not there is `NoFile`. None is read.
pub fn find_inputs<D: Desk>(desk: &mut D, list: &str, source: &str) -> Result<Inputs, Status>
    ensures found { IfOk result (λ inputs. (inputs.list.id < (D.sees desk.new).found) × (inputs.source.id < (D.sees desk.new).found)) }
    ensures places { IfOk result (λ inputs. ToldFiles (D.sees desk.old) (λ files. (place_of files list.now ≡ Some inputs.list.id) × (place_of files source.now ≡ Some inputs.source.id))) }
    ensures sizes { IfOk result (λ inputs. ToldFiles (D.sees desk.old) (λ files. (inputs.list.size ≡ length (bytes_at files inputs.list.id)) × (inputs.source.size ≡ length (bytes_at files inputs.source.id)))) }
    ensures missing { IfErr result (λ status. ToldFiles (D.sees desk.old) (λ files. Missing files list.now source.now status)) }
    ensures names { Seeks (D.sees desk.old).sought (D.sees desk.new).sought (list.now ∷ source.now ∷ []) }
    ensures kept { Looks (D.sees desk.old) (D.sees desk.new) }
    ensures unread { (D.sees desk.new).asked ≡ (D.sees desk.old).asked }
    ensures count { (D.sees desk.old).read_faults ≤ (D.sees desk.new).read_faults }
    ensures read { IsErrOf result Status.ReadFault → Rose (D.sees desk.old).read_faults (D.sees desk.new).read_faults }
    ensures only { IfErr result IsLooking }
{
    let list = match desk.find(list) {
        Ok(Some(id)) => id,
        Ok(None) => return Err(Status::NoFile { input: 1 }),
        Err(fault) => return Err(reading(fault)),
    };
    let source = match desk.find(source) {
        Ok(Some(id)) => id,
        Ok(None) => return Err(Status::NoFile { input: 2 }),
        Err(fault) => return Err(reading(fault)),
    };
    let (Ok(list_size), Ok(source_size)) = (desk.size(list), desk.size(source)) else {
        return Err(Status::ReadFault);
    };
    Ok(Inputs {
        list: Input {
            id: list,
            size: list_size,
        },
        source: Input {
            id: source,
            size: source_size,
        },
    })
}

// So many zeros.
fn zeros(alloc: Global, count: usize) -> Result<Vec<u8>, AllocError>
    ensures { IfOk result (λ zeros. vec_len zeros ≡ count) }
{
    Vec::from_elem(alloc, 0u8, count)
}

/// All bytes of an input that has some.
pub fn read_input<D: Desk>(alloc: Global, desk: &mut D, input: Input) -> Result<Vec<u8>, DeskFault>
    requires id { input.id < (D.sees desk.old).found }
    requires some { 0 < input.size }
    requires size { Told (D.sees desk.old) input.id (λ bytes. input.size ≡ length bytes) }
    ensures bytes { IfOk result (λ read. Told (D.sees desk.old) input.id (λ bytes. read.items ≡ bytes)) }
    ensures size { IfOk result (λ read. vec_len read ≡ input.size) }
    ensures kept { with_reads (D.sees desk.old) (D.sees desk.new) }
    ensures cause { HasCause (D.sees desk.old).read_faults (D.sees desk.new).read_faults result }
{
    let Ok(mut bytes) = zeros(alloc, input.size as usize) else {
        return Err(DeskFault::NoMem);
    };
    match desk.read_at(input.id, 0, &mut bytes) {
        Ok(()) => Ok(bytes),
        Err(_) => Err(DeskFault::Failed),
    }
}
