// The source of a command, judged (own).
ghost use Rattle.std.specs.Prelude.{◌≡◌, ◌≤◌, ◌<◌, length, IfOk, IfErr, IsErrOf};
ghost use Rattle.vid_desk.specs.Meaning.{Rose, Told, with_reads};
ghost use Rattle.src_index.specs.Loading.{IsIndexed, IsLoadedFrom, longest};
ghost use Rattle.cut_app.specs.Index.{refusal_status};
ghost use Rattle.cut_app.specs.Steps.{IsReading, RefusesSource};

use cut_report::{SourceWhat, Status};
use src_index::{Source, SourceFault};
use std::alloc::Global;
use vid_desk::Desk;

/// The one source of a command.
const SOURCE: u32 = 1;

// The status of a file in which a check fails.
fn bad(what: SourceWhat) -> Status
    ensures { result ≡ Status.BadSource 1 what }
{
    Status::BadSource {
        source: SOURCE,
        what,
    }
}

// The status of an input that gives no source.
fn refused(input: u32, fault: SourceFault) -> Status
    ensures { result ≡ refusal_status input fault }
{
    match fault {
        SourceFault::Bad {
            link,
            packet,
            fault,
        } => bad(SourceWhat::Packet {
            link,
            packet,
            fault,
        }),
        SourceFault::Page { at, fault } => bad(SourceWhat::Page { at, fault }),
        SourceFault::Link { at, fault } => bad(SourceWhat::Link { at, fault }),
        SourceFault::TooLong { bytes } => Status::TooLong { input, bytes },
        SourceFault::NoMem => Status::NoMem,
        SourceFault::ReadFault => Status::ReadFault,
        SourceFault::Changed => Status::Changed,
    }
}

/// Judges an input that was found, counted from 1 in the order of the words.
pub(crate) fn judge<D: Desk>(
    alloc: Global,
    desk: &mut D,
    id: u32,
    input: u32,
) -> Result<Source, Status>
    requires id { id < (D.sees desk.old).found }
    ensures judged { IfOk result (λ source. Told (D.sees desk.old) id (λ bytes. (length bytes ≤ longest) × IsIndexed bytes source)) }
    ensures loaded { IfOk result (λ source. IsLoadedFrom (D.sees desk.old) id source) }
    ensures refused { IfErr result (λ status. Told (D.sees desk.old) id (λ bytes. RefusesSource input bytes status)) }
    ensures kept { with_reads (D.sees desk.old) (D.sees desk.new) }
    ensures count { (D.sees desk.old).read_faults ≤ (D.sees desk.new).read_faults }
    ensures read { IsErrOf result Status.ReadFault → Rose (D.sees desk.old).read_faults (D.sees desk.new).read_faults }
    ensures only { IfErr result IsReading }
{
    match Source::load(alloc, desk, id) {
        Ok(source) => Ok(source),
        Err(fault) => Err(refused(input, fault)),
    }
}
