// All pictures of a source, written to a new output (own).
ghost use Rattle.std.specs.Prelude.{◌≡◌, ◌<◌, ◌≤◌, List, ℕ, None, IfErr, IsErrOf, OnErr, OnOk};
ghost use Rattle.vid_desk.specs.Meaning.{Rose, ToldFiles};
ghost use Rattle.cut_desk.specs.Growing.{Grows, ReadsAndMakes};
ghost use Rattle.cut_desk.specs.Outputs.{Makes, MakesAtMost};
ghost use Rattle.src_index.specs.Index.{frame_count};
ghost use Rattle.src_index.specs.Loading.{IsLoadedFrom};
ghost use Rattle.cut_export.specs.Exported.{IsExport};
ghost use Rattle.cut_export.specs.Films.{FilmIsFar, IsFilmOf, Stays, ToldTrack};
ghost use Rattle.cut_export.specs.Statuses.{IsExporting};

use crate::film::Film;
use cut_desk::writing;
use cut_report::Status;
use src_index::Source;
use std::alloc::Global;
use vid_desk::Desk;

// Appends the pictures of all frames, from the first on.
fn add_frames<D: Desk>(
    desk: &mut D,
    source: &Source,
    id: u32,
    film: &mut Film,
) -> Result<(), Status>
    requires id { id < (D.sees desk.old).made }
    requires input { source.now.input < (D.sees desk.old).found }
    requires made { IsLoadedFrom (D.sees desk.old) source.now.input source.now }
    requires film { IsFilmOf source.now film.old }
    requires state { film.old.decoder.state ≡ None }
    ensures added { OnOk result ((came : List ℕ) × Grows (D.sees desk.old) (D.sees desk.new) id came
        × ToldTrack (D.sees desk.old) source.now.input (λ packets. FilmIsFar film.new packets (frame_count source.now) came)) }
    ensures part { OnErr result ((came : List ℕ) × Grows (D.sees desk.old) (D.sees desk.new) id came) }
    ensures film { IsFilmOf source.now film.new }
    ensures stays { Stays film.old film.new }
    ensures never { ToldFiles (D.sees desk.old) (λ files. ¬ IsErrOf result Status.Changed) }
    ensures read { IsErrOf result Status.ReadFault → Rose (D.sees desk.old).read_faults (D.sees desk.new).read_faults }
    ensures write { IsErrOf result Status.WriteFault → Rose (D.sees desk.old).write_faults (D.sees desk.new).write_faults }
    ensures only { IfErr result IsExporting }
{
    'frames: for n in 0..source.frames() {
        match film.add_frame(desk, source, id, n) {
            Ok(()) => {}
            Err(status) => return Err(status),
        }
    }
    Ok(())
}

/// Writes all frames of a judged source as YUV4MPEG2: it creates the output, and appends the head and then picture after
/// picture, each packet read again and decoded behind those before it. Lists are made before the output is created, and
/// used for each frame. `Changed` says that a page or a packet read now is not the one that was judged; over a desk that
/// tells its inputs it never comes. After a refusal an output that was created stays with what came to it. Nothing is said.
pub fn export<D: Desk>(
    alloc: Global,
    desk: &mut D,
    source: &Source,
    out: &str,
) -> Result<(), Status>
    requires id { source.now.input < (D.sees desk.old).found }
    requires made { IsLoadedFrom (D.sees desk.old) source.now.input source.now }
    ensures written { OnOk result (ToldTrack (D.sees desk.old) source.now.input (λ packets. (text : List ℕ) × IsExport packets text × Makes (D.sees desk.old) (D.sees desk.new) out.now text)) }
    ensures outputs { MakesAtMost (D.sees desk.old) (D.sees desk.new) out.now }
    ensures kept { ReadsAndMakes (D.sees desk.old) (D.sees desk.new) }
    ensures never { ToldFiles (D.sees desk.old) (λ files. ¬ IsErrOf result Status.Changed) }
    ensures reads { (D.sees desk.old).read_faults ≤ (D.sees desk.new).read_faults }
    ensures writes { (D.sees desk.old).write_faults ≤ (D.sees desk.new).write_faults }
    ensures read { IsErrOf result Status.ReadFault → Rose (D.sees desk.old).read_faults (D.sees desk.new).read_faults }
    ensures write { IsErrOf result Status.WriteFault → Rose (D.sees desk.old).write_faults (D.sees desk.new).write_faults }
    ensures only { IfErr result IsExporting }
{
    let Ok(mut film) = Film::new(alloc, source) else {
        return Err(Status::NoMem);
    };
    let id = match desk.create(out) {
        Ok(id) => id,
        Err(fault) => return Err(writing(fault)),
    };
    match film.add_head(alloc, desk, source, id) {
        Ok(()) => {}
        Err(status) => return Err(status),
    }
    match add_frames(desk, source, id, &mut film) {
        Ok(()) => Ok(()),
        Err(status) => Err(status),
    }
}
