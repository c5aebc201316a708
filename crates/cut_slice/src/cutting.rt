// The command `cut LIST OUT SRC`: it copies one slice of a plain source that begins at a key frame (own).
ghost use Rattle.std.specs.Prelude.{◌≡◌, ◌⊎◌, ◌<◌, ◌≤◌, ◌↔◌, ◌∷◌, [], ℕ, List, length, map, Some, None, IfOk, IfErr, IfSome, IfNone, OnOk, IsErrOf, vec_len};
ghost use Rattle.std.specs.Option.{option_map};
ghost use Rattle.vid_desk.specs.Meaning.{File, Told, ToldFiles, HasCause, Rose, with_reads};
ghost use Rattle.cut_slice.specs.SliceList.{slice_of};
ghost use Rattle.cut_slice.specs.Slices.{slice_view};
ghost use Rattle.cut_slice.specs.Plain.{NotPlain};
ghost use Rattle.cut_desk.specs.Outputs.{Makes, MakesAtMost, Makings, LeavesOutputs, Looks, Seeks};
ghost use Rattle.cut_desk.specs.Statuses.{LeavesOutputsAt, status_in};
ghost use Rattle.cut_slice.specs.Cause.{CanBeCut, Caused, CreatesWhenGiven, Cuts, GivesBoth, IsCutting, IsReading, RefusesBoth, RefusesSource, SparesLong, Written};

use crate::copy::copy;
use crate::list::{Slice, read_slice};
use crate::source::{SourceRefusal, is_key, read_source};
use cut_desk::{Input, find_inputs, read_input, reading, writing};
use cut_report::Status;
use std::alloc::Global;
use vid_desk::{Desk, DeskFault};

/// The most bytes of a list.
const LONGEST_LIST: u64 = 1_048_576;

/// The most bytes of a source.
const LONGEST_SOURCE: u64 = 268_435_456;

// The slice of an edit list, if it has the form of one.
fn read_list<D: Desk>(alloc: Global, desk: &mut D, input: Input) -> Result<Option<Slice>, DeskFault>
    requires id { input.id < (D.sees desk.old).found }
    requires size { Told (D.sees desk.old) input.id (λ bytes. input.size ≡ length bytes) }
    ensures slice { IfOk result (λ slice. Told (D.sees desk.old) input.id (λ bytes. option_map slice_view slice ≡ slice_of bytes)) }
    ensures bounds { IfOk result (λ found. IfSome found (λ slice. (slice.first < slice.past) × (slice.past ≤ 2147483647))) }
    ensures kept { with_reads (D.sees desk.old) (D.sees desk.new) }
    ensures cause { HasCause (D.sees desk.old).read_faults (D.sees desk.new).read_faults result }
{
    if input.size == 0 {
        return Ok(None);
    }
    match read_input(alloc, desk, input) {
        Ok(text) => Ok(read_slice(&text)),
        Err(fault) => Err(fault),
    }
}

// The bytes of a source that may be plain by its size.
fn read_bytes<D: Desk>(
    alloc: Global,
    desk: &mut D,
    input: Input,
) -> Result<Option<Vec<u8>>, DeskFault>
    requires id { input.id < (D.sees desk.old).found }
    requires size { Told (D.sees desk.old) input.id (λ bytes. input.size ≡ length bytes) }
    ensures bytes { IfOk result (λ found. IfSome found (λ read. Told (D.sees desk.old) input.id (λ bytes. read.items ≡ bytes))) }
    ensures not_plain { IfOk result (λ found. IfNone found (Told (D.sees desk.old) input.id NotPlain)) }
    ensures size { IfOk result (λ found. IfSome found (λ read. vec_len read ≤ 268435456)) }
    ensures kept { with_reads (D.sees desk.old) (D.sees desk.new) }
    ensures cause { HasCause (D.sees desk.old).read_faults (D.sees desk.new).read_faults result }
{
    if input.size == 0 {
        return Ok(None);
    }
    if input.size > LONGEST_SOURCE {
        return Ok(None);
    }
    match read_input(alloc, desk, input) {
        Ok(bytes) => Ok(Some(bytes)),
        Err(fault) => Err(fault),
    }
}

/// The slice of the list, and the bytes of the source.
#[derive(Drop)]
struct Read {
    slice: Slice,
    bytes: Vec<u8>,
}

// Reads the list, and then the source. A list of too many bytes is of no form, and is not read.
fn read_both<D: Desk>(alloc: Global, desk: &mut D, list: &str, source: &str) -> Result<Read, Status>
    ensures read { IfOk result (λ read. ToldFiles (D.sees desk.old) (λ files. GivesBoth files list.now source.now (slice_view read.slice) read.bytes.items)) }
    ensures bounds { IfOk result (λ read. (read.slice.first < read.slice.past) × (read.slice.past ≤ 2147483647) × (vec_len read.bytes ≤ 268435456)) }
    ensures refused { IfErr result (λ status. ToldFiles (D.sees desk.old) (λ files. RefusesBoth files list.now source.now status)) }
    ensures names { Seeks (D.sees desk.old).sought (D.sees desk.new).sought (list.now ∷ source.now ∷ []) }
    ensures kept { Looks (D.sees desk.old) (D.sees desk.new) }
    ensures unread { ToldFiles (D.sees desk.old) (λ files. SparesLong (D.sees desk.old) (D.sees desk.new) files list.now) }
    ensures count { (D.sees desk.old).read_faults ≤ (D.sees desk.new).read_faults }
    ensures fault { IsErrOf result Status.ReadFault → Rose (D.sees desk.old).read_faults (D.sees desk.new).read_faults }
    ensures only { IfErr result IsReading }
{
    let inputs = match find_inputs(desk, list, source) {
        Ok(inputs) => inputs,
        Err(status) => return Err(status),
    };
    if inputs.list.size > LONGEST_LIST {
        return Err(Status::NotYet);
    }
    let slice = match read_list(alloc, desk, inputs.list) {
        Ok(Some(slice)) => slice,
        Ok(None) => return Err(Status::NotYet),
        Err(fault) => return Err(reading(fault)),
    };
    match read_bytes(alloc, desk, inputs.source) {
        Ok(Some(bytes)) => Ok(Read { slice, bytes }),
        Ok(None) => Err(Status::NotYet),
        Err(fault) => Err(reading(fault)),
    }
}

// Cuts the slice out of the source's bytes.
fn cut_source<D: Desk>(
    alloc: Global,
    desk: &mut D,
    out: &str,
    slice: Slice,
    bytes: &[u8],
) -> Result<(), Status>
    requires some { slice.first < slice.past }
    requires bound { slice.past ≤ 2147483647 }
    requires size { length bytes.now ≤ 268435456 }
    ensures cut { OnOk result (Cuts (D.sees desk.old) (D.sees desk.new) out.now (slice_view slice) bytes.now) }
    ensures refused { IfErr result (RefusesSource (slice_view slice) bytes.now) }
    ensures outputs { MakesAtMost (D.sees desk.old) (D.sees desk.new) out.now }
    ensures created { LeavesOutputs (D.sees desk.old) (D.sees desk.new) ⊎ CanBeCut (slice_view slice) bytes.now }
    ensures before { LeavesOutputsAt (status_in result) (D.sees desk.old) (D.sees desk.new) }
    ensures kept { Makings (D.sees desk.old) (D.sees desk.new) }
    ensures count { (D.sees desk.old).write_faults ≤ (D.sees desk.new).write_faults }
    ensures fault { IsErrOf result Status.WriteFault → Rose (D.sees desk.old).write_faults (D.sees desk.new).write_faults }
    ensures only { IfErr result IsCutting }
{
    let source = match read_source(alloc, bytes) {
        Ok(source) => source,
        Err(SourceRefusal::NotPlain) => return Err(Status::NotYet),
        Err(SourceRefusal::NoMem) => return Err(Status::NoMem),
    };
    if slice.past as usize > source.frames.len() {
        return Err(Status::NotYet);
    }
    if !is_key(source.frames[slice.first as usize]) {
        return Err(Status::InPointNotKey);
    }
    match copy(alloc, desk, out, &source, slice) {
        Ok(()) => Ok(()),
        Err(fault) => Err(writing(fault)),
    }
}

/// Does `cut LIST OUT SRC`: it copies the slice of the list LIST out of the plain source SRC into the new output OUT. The
/// order of refusals is: names that are the same; inputs that are not there, in the order of the words; the form of the
/// list; the source; the slice past its frames; the in-point. No output is created before all of these were looked at.
/// A list of more than 1,048,576 bytes is of no form, and is not read. Nothing is said.
pub fn cut<D: Desk>(
    alloc: Global,
    desk: &mut D,
    list: &str,
    out: &str,
    source: &str,
) -> Result<(), Status>
    ensures caused { ToldFiles (D.sees desk.old) (λ files. Caused (record { list = list.now; out = out.now; source = source.now }) files (status_in result)) }
    ensures written { OnOk result (ToldFiles (D.sees desk.old) (λ files. Written (D.sees desk.old) (D.sees desk.new) (record { list = list.now; out = out.now; source = source.now }) files)) }
    ensures outputs { MakesAtMost (D.sees desk.old) (D.sees desk.new) out.now }
    // Nothing is asked of the outputs before all else was read and looked at, whatever the status.
    ensures created { ToldFiles (D.sees desk.old) (λ files. CreatesWhenGiven (D.sees desk.old) (D.sees desk.new) (record { list = list.now; out = out.now; source = source.now }) files) }
    ensures before { LeavesOutputsAt (status_in result) (D.sees desk.old) (D.sees desk.new) }
    ensures unread { ToldFiles (D.sees desk.old) (λ files. SparesLong (D.sees desk.old) (D.sees desk.new) files list.now) }
    ensures names { Seeks (D.sees desk.old).sought (D.sees desk.new).sought (list.now ∷ source.now ∷ []) }
    ensures inputs { (D.sees desk.new).inputs ≡ (D.sees desk.old).inputs }
    ensures said { (D.sees desk.new).said ≡ (D.sees desk.old).said }
    ensures count { (D.sees desk.old).write_faults ≤ (D.sees desk.new).write_faults }
    ensures read { IsErrOf result Status.ReadFault → Rose (D.sees desk.old).read_faults (D.sees desk.new).read_faults }
    ensures write { IsErrOf result Status.WriteFault → Rose (D.sees desk.old).write_faults (D.sees desk.new).write_faults }
    ensures usage { ¬ IsErrOf result Status.Usage }
    ensures done { ¬ IsErrOf result Status.Done }
{
    if out == list || out == source {
        return Err(Status::NotYet);
    }
    match read_both(alloc, desk, list, source) {
        Ok(read) => match cut_source(alloc, desk, out, read.slice, &read.bytes) {
            Ok(()) => Ok(()),
            Err(status) => Err(status),
        },
        Err(status) => Err(status),
    }
}
