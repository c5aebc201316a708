// Pictures of an input, coded to a new output (own).
ghost use Rattle.std.specs.Prelude.{◌≡◌, ◌<◌, ◌≤◌, ◌+◌, List, ℕ, Some, IfErr, IfOk, IsErrOf, OnErr};
ghost use Rattle.vid_desk.specs.Meaning.{Rose, Told};
ghost use Rattle.cut_desk.specs.Growing.{ReadsAndMakes};
ghost use Rattle.cut_desk.specs.Outputs.{LeavesOutputs, Makes, MakesAtMost};
ghost use Rattle.y4m_io.specs.declared.fault.Y4mWhy.{Y4mWhy as Why};
ghost use Rattle.y4m_io.specs.Pictures.{IsPictureOf, IsSize, Samples, samples_of};
ghost use Rattle.y4m_io.specs.Progress.{Follow, IsOfInput, progress_of};
ghost use Rattle.y4m_io.specs.Reading.{HasBadHead};
ghost use Rattle.cut_import.specs.Imported.{Departs, IsImport, LeavesPart};
ghost use Rattle.cut_import.specs.Importers.{AddsFilm, AddsFirst, IsAt, IsImporter, LeavesFirst, WritesFilm};
ghost use Rattle.cut_import.specs.Statuses.{IsImporting};

use crate::fault::departure;
use crate::importer::Importer;
use cut_desk::writing;
use cut_report::Status;
use std::alloc::Global;
use vid_desk::Desk;
use y4m_io::{Picture, Y4m};

// Codes the pictures that follow, appends their pages, and gives their number.
fn add_pictures<D: Desk>(
    desk: &mut D,
    id: u32,
    y4m: &mut Y4m,
    picture: &mut Picture,
    importer: &mut Importer,
) -> Result<u32, Status>
    requires id { id < (D.sees desk.old).made }
    requires input { (progress_of y4m.old).input < (D.sees desk.old).found }
    requires of { IsOfInput (D.sees desk.old) (progress_of y4m.old) }
    requires start { (progress_of y4m.old).frames ≡ 0 }
    requires sound { (progress_of y4m.old).bad ≡ None }
    requires size { IsSize (progress_of y4m.old).head.w (progress_of y4m.old).head.h (progress_of y4m.old).head.pf }
    requires picture { IsPictureOf (progress_of y4m.old).head.w (progress_of y4m.old).head.h (progress_of y4m.old).head.pf (samples_of picture.old) }
    requires importer { IsImporter importer.old }
    requires at { IsAt 0 importer.old }
    ensures added { IfOk result (AddsFilm (D.sees desk.old) (D.sees desk.new) id importer.old (progress_of y4m.old)) }
    ensures part { OnErr result (AddsFirst (D.sees desk.old) (D.sees desk.new) id importer.old (progress_of y4m.old)) }
    ensures departs { (frame : ℕ) (why : Why) → IsErrOf result (Status.BadY4m frame why)
        → Told (D.sees desk.old) (progress_of y4m.old).input (λ bytes. (pictures : List Samples) × Follow (progress_of y4m.old) bytes pictures (Some (record { frame = frame; why = why }))) }
    ensures read { IsErrOf result Status.ReadFault → Rose (D.sees desk.old).read_faults (D.sees desk.new).read_faults }
    ensures write { IsErrOf result Status.WriteFault → Rose (D.sees desk.old).write_faults (D.sees desk.new).write_faults }
    ensures only { IfErr result IsImporting }
{
    let mut frames = 0u32;
    'pictures: loop {
        match y4m.next(desk, picture) {
            Ok(true) => {}
            Ok(false) => break,
            Err(fault) => return Err(departure(fault)),
        }
        match importer.add_frame(desk, id, picture, frames) {
            Ok(()) => {}
            Err(status) => return Err(status),
        }
        frames += 1;
    }
    match importer.end(desk, id) {
        Ok(()) => Ok(frames),
        Err(status) => Err(status),
    }
}

// Creates an output, codes the pictures that follow, appends the pages of the stream, and gives the number of pictures.
fn write_film<D: Desk>(
    desk: &mut D,
    out: &str,
    y4m: &mut Y4m,
    picture: &mut Picture,
    importer: &mut Importer,
) -> Result<u32, Status>
    requires input { (progress_of y4m.old).input < (D.sees desk.old).found }
    requires of { IsOfInput (D.sees desk.old) (progress_of y4m.old) }
    requires start { (progress_of y4m.old).frames ≡ 0 }
    requires sound { (progress_of y4m.old).bad ≡ None }
    requires size { IsSize (progress_of y4m.old).head.w (progress_of y4m.old).head.h (progress_of y4m.old).head.pf }
    requires picture { IsPictureOf (progress_of y4m.old).head.w (progress_of y4m.old).head.h (progress_of y4m.old).head.pf (samples_of picture.old) }
    requires importer { IsImporter importer.old }
    requires at { IsAt 0 importer.old }
    ensures written { IfOk result (WritesFilm (D.sees desk.old) (D.sees desk.new) out.now importer.old (progress_of y4m.old)) }
    ensures part { OnErr result (LeavesFirst (D.sees desk.old) (D.sees desk.new) out.now importer.old (progress_of y4m.old)) }
    ensures departs { (frame : ℕ) (why : Why) → IsErrOf result (Status.BadY4m frame why)
        → Told (D.sees desk.old) (progress_of y4m.old).input (λ bytes. (pictures : List Samples) × Follow (progress_of y4m.old) bytes pictures (Some (record { frame = frame; why = why }))) }
    ensures kept { ReadsAndMakes (D.sees desk.old) (D.sees desk.new) }
    ensures reads { (D.sees desk.old).read_faults ≤ (D.sees desk.new).read_faults }
    ensures writes { (D.sees desk.old).write_faults ≤ (D.sees desk.new).write_faults }
    ensures read { IsErrOf result Status.ReadFault → Rose (D.sees desk.old).read_faults (D.sees desk.new).read_faults }
    ensures write { IsErrOf result Status.WriteFault → Rose (D.sees desk.old).write_faults (D.sees desk.new).write_faults }
    ensures only { IfErr result IsImporting }
{
    let id = match desk.create(out) {
        Ok(id) => id,
        Err(fault) => return Err(writing(fault)),
    };
    match importer.append(desk, id) {
        Ok(()) => {}
        Err(status) => return Err(status),
    }
    match add_pictures(desk, id, y4m, picture, importer) {
        Ok(frames) => Ok(frames),
        Err(status) => Err(status),
    }
}

/// Codes all pictures of a YUV4MPEG2 input as a Theora stream in an Ogg file, and gives their number. `qi` is the quantiser
/// index of all frames, and a frame is a key frame where `keys` divides its number. The head is read before the output is
/// created; then pictures are read, padded and coded one after another, and pages are appended as they are ready. `BadY4m` is
/// the first departure of the input. After a refusal an output that was created stays with what came to it, a first part of
/// the pages of the pictures that were read. Nothing is said.
pub fn import<D: Desk>(
    alloc: Global,
    desk: &mut D,
    input: u32,
    out: &str,
    qi: u8,
    keys: u32,
) -> Result<u32, Status>
    requires input { input < (D.sees desk.old).found }
    requires qi { qi < 64 }
    requires keys { (0 < keys) × (keys ≤ 64) }
    ensures written { IfOk result (λ count. Told (D.sees desk.old) input (λ bytes. (written : List ℕ) × IsImport bytes qi keys count written × Makes (D.sees desk.old) (D.sees desk.new) out.now written)) }
    ensures part { OnErr result (Told (D.sees desk.old) input (λ bytes. LeavesPart (D.sees desk.old) (D.sees desk.new) out.now bytes qi keys)) }
    ensures departs { (frame : ℕ) (why : Why) → IsErrOf result (Status.BadY4m frame why) → Told (D.sees desk.old) input (λ bytes. Departs bytes frame why) }
    ensures head { (why : Why) → OnErr result (Told (D.sees desk.old) input (λ bytes. HasBadHead bytes why → LeavesOutputs (D.sees desk.old) (D.sees desk.new))) }
    ensures outputs { MakesAtMost (D.sees desk.old) (D.sees desk.new) out.now }
    ensures kept { ReadsAndMakes (D.sees desk.old) (D.sees desk.new) }
    ensures reads { (D.sees desk.old).read_faults ≤ (D.sees desk.new).read_faults }
    ensures writes { (D.sees desk.old).write_faults ≤ (D.sees desk.new).write_faults }
    ensures read { IsErrOf result Status.ReadFault → Rose (D.sees desk.old).read_faults (D.sees desk.new).read_faults }
    ensures write { IsErrOf result Status.WriteFault → Rose (D.sees desk.old).write_faults (D.sees desk.new).write_faults }
    ensures only { IfErr result IsImporting }
{
    let mut y4m = match Y4m::start(alloc, desk, input) {
        Ok(y4m) => y4m,
        Err(fault) => return Err(departure(fault)),
    };
    let head = *y4m.head();
    let Ok(mut picture) = Picture::new(alloc, head.w, head.h, head.pf) else {
        return Err(Status::NoMem);
    };
    let Ok(mut importer) = Importer::new(alloc, &head, qi, keys) else {
        return Err(Status::NoMem);
    };
    write_film(desk, out, &mut y4m, &mut picture, &mut importer)
}
