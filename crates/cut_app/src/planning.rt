// The command `plan LIST SRC`: it says the runs of a list (own).
ghost use Rattle.std.specs.Prelude.{◌≡◌, ◌^◌, ◌≤◌, ◌<◌, ◌∷◌, [], List, ℕ, Some, length, IfErr, IfOk, OnOk, IsErrOf};
ghost use Rattle.vid_desk.specs.Meaning.{Rose, ToldFiles, bytes_at, place_of};
ghost use Rattle.cut_desk.specs.Outputs.{Looks, Seeks};
ghost use Rattle.cut_desk.specs.Statuses.{status_in};
ghost use Rattle.cut_app.specs.Forms.Form.{Planning};
ghost use Rattle.cut_app.specs.Plans.{IsPlanText};
ghost use Rattle.cut_app.specs.Texts.{HasSaid, StopsAt};
ghost use Rattle.cut_app.specs.Causes.{PlanCaused};
ghost use Rattle.cut_app.specs.Commands.{ReadsAndSays};
ghost use Rattle.cut_app.specs.Steps.{IsReading, RefusesInputs};

use crate::judging::judge;
use crate::listing::list_of;
use crate::runs::{runs_of, text_of};
use cut_desk::{Inputs, find_inputs, writing};
use cut_report::Status;
use std::alloc::Global;
use vid_desk::Desk;

/// The list is the first input.
const LIST: u32 = 1;

/// The source is the second.
const SOURCE: u32 = 2;

/// The most bytes of a list.
const LONGEST_LIST: u64 = 1 << 20;

/// The most bytes of a source.
const LONGEST_SOURCE: u64 = 1 << 40;

// Looks for both inputs, and for one that is too long.
fn find_within<D: Desk>(desk: &mut D, list: &str, source: &str) -> Result<Inputs, Status>
    ensures found { IfOk result (λ inputs. (inputs.list.id < (D.sees desk.new).found) × (inputs.source.id < (D.sees desk.new).found)) }
    ensures places { IfOk result (λ inputs. ToldFiles (D.sees desk.old) (λ files. (place_of files list.now ≡ Some inputs.list.id) × (place_of files source.now ≡ Some inputs.source.id))) }
    ensures sizes { IfOk result (λ inputs. ToldFiles (D.sees desk.old) (λ files. (inputs.list.size ≡ length (bytes_at files inputs.list.id)) × (inputs.source.size ≡ length (bytes_at files inputs.source.id)))) }
    ensures within { IfOk result (λ inputs. inputs.list.size ≤ 2 ^ 20) }
    ensures refused { IfErr result (λ status. ToldFiles (D.sees desk.old) (λ files. RefusesInputs files (record { list = list.now; source = source.now }) status)) }
    ensures names { Seeks (D.sees desk.old).sought (D.sees desk.new).sought (list.now ∷ source.now ∷ []) }
    ensures kept { Looks (D.sees desk.old) (D.sees desk.new) }
    ensures count { (D.sees desk.old).read_faults ≤ (D.sees desk.new).read_faults }
    ensures read { IsErrOf result Status.ReadFault → Rose (D.sees desk.old).read_faults (D.sees desk.new).read_faults }
    ensures only { IfErr result IsReading }
{
    let inputs = match find_inputs(desk, list, source) {
        Ok(inputs) => inputs,
        Err(status) => return Err(status),
    };
    if inputs.list.size > LONGEST_LIST {
        return Err(Status::TooLong {
            input: LIST,
            bytes: inputs.list.size,
        });
    }
    if inputs.source.size > LONGEST_SOURCE {
        return Err(Status::TooLong {
            input: SOURCE,
            bytes: inputs.source.size,
        });
    }
    Ok(inputs)
}

// The text of a plan: the source is judged, and then the list is read and its range looked at.
fn make_text<D: Desk>(
    alloc: Global,
    desk: &mut D,
    list: &str,
    source: &str,
) -> Result<Vec<u8>, Status>
    ensures text { IfOk result (λ text. ToldFiles (D.sees desk.old) (λ files. IsPlanText files (record { list = list.now; source = source.now }) text.items)) }
    ensures caused { IfErr result (λ status. ToldFiles (D.sees desk.old) (λ files. PlanCaused (record { list = list.now; source = source.now }) files status)) }
    ensures names { Seeks (D.sees desk.old).sought (D.sees desk.new).sought (list.now ∷ source.now ∷ []) }
    ensures kept { Looks (D.sees desk.old) (D.sees desk.new) }
    ensures count { (D.sees desk.old).read_faults ≤ (D.sees desk.new).read_faults }
    ensures read { IsErrOf result Status.ReadFault → Rose (D.sees desk.old).read_faults (D.sees desk.new).read_faults }
    ensures only { IfErr result IsReading }
{
    let inputs = match find_within(desk, list, source) {
        Ok(inputs) => inputs,
        Err(status) => return Err(status),
    };
    let judged = match judge(alloc, desk, inputs.source.id, SOURCE) {
        Ok(judged) => judged,
        Err(status) => return Err(status),
    };
    let items = match list_of(alloc, desk, inputs.list) {
        Ok(items) => items,
        Err(status) => return Err(status),
    };
    let runs = match runs_of(alloc, &items, &judged) {
        Ok(runs) => runs,
        Err(status) => return Err(status),
    };
    match text_of(alloc, &runs) {
        Ok(text) => Ok(text),
        Err(_) => Err(Status::NoMem),
    }
}

/// Does `plan LIST SRC`: it says the runs of the list over the source, and how many frames are copied and coded.
pub(crate) fn say_plan<D: Desk>(
    alloc: Global,
    desk: &mut D,
    list: &str,
    source: &str,
) -> Result<(), Status>
    ensures caused { ToldFiles (D.sees desk.old) (λ files. PlanCaused (record { list = list.now; source = source.now }) files (status_in result)) }
    ensures said { OnOk result (ToldFiles (D.sees desk.old) (λ files. (text : List ℕ) × IsPlanText files (record { list = list.now; source = source.now }) text × HasSaid (D.sees desk.old) (D.sees desk.new) text)) }
    ensures stops { IfErr result (StopsAt (Planning (record { list = list.now; source = source.now })) (D.sees desk.old) (D.sees desk.new)) }
    ensures names { Seeks (D.sees desk.old).sought (D.sees desk.new).sought (list.now ∷ source.now ∷ []) }
    ensures kept { ReadsAndSays (D.sees desk.old) (D.sees desk.new) }
    ensures count { (D.sees desk.old).write_faults ≤ (D.sees desk.new).write_faults }
    ensures read { IsErrOf result Status.ReadFault → Rose (D.sees desk.old).read_faults (D.sees desk.new).read_faults }
    ensures write { IsErrOf result Status.WriteFault → Rose (D.sees desk.old).write_faults (D.sees desk.new).write_faults }
    ensures usage { ¬ IsErrOf result Status.Usage }
    ensures done { ¬ IsErrOf result Status.Done }
{
    let text = match make_text(alloc, desk, list, source) {
        Ok(text) => text,
        Err(status) => return Err(status),
    };
    match desk.say(&text) {
        Ok(()) => Ok(()),
        Err(fault) => Err(writing(fault)),
    }
}
