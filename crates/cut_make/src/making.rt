// A film, written to a new output (own).
ghost use Rattle.std.specs.Prelude.{◌≡◌, ◌+◌, ◌*◌, ◌^◌, ◌<◌, ◌≤◌, length, IfErr, IfOk, IsErrOf, OnErr, OnOk};
ghost use Rattle.vid_desk.specs.Meaning.{Rose};
ghost use Rattle.cut_desk.specs.Making.{Adds};
ghost use Rattle.cut_desk.specs.Outputs.{Makes, Makings};
ghost use Rattle.cut_make.specs.Films.{IsFilm, MakesPart, film_text};
ghost use Rattle.cut_make.specs.Makers.{AddsPart, IsMaker, frames_text};
ghost use Rattle.cut_make.specs.Statuses.{IsWriting};

use crate::film::Film;
use crate::maker::Maker;
use cut_desk::writing;
use cut_report::Status;
use std::alloc::Global;
use vid_desk::Desk;

// Appends all pictures, from the first on, and gives the number of their bytes.
fn add_frames<D: Desk>(desk: &mut D, id: u32, maker: &mut Maker) -> Result<u64, Status>
    requires id { id < (D.sees desk.old).made }
    requires maker { IsMaker maker.old }
    ensures added { OnOk result (Adds (D.sees desk.old) (D.sees desk.new) id (frames_text maker.old.film maker.old.film.frames)) }
    ensures bytes { IfOk result (λ bytes. bytes ≡ length (frames_text maker.old.film maker.old.film.frames)) }
    ensures few { IfOk result (λ bytes. bytes ≤ 10000 * 2 ^ 27) }
    ensures part { OnErr result (AddsPart (D.sees desk.old) (D.sees desk.new) id (frames_text maker.old.film maker.old.film.frames)) }
    ensures cause { IsErrOf result Status.WriteFault → Rose (D.sees desk.old).write_faults (D.sees desk.new).write_faults }
    ensures only { IfErr result IsWriting }
{
    let mut bytes = 0u64;
    let frames = maker.film.frames;
    'frames: for n in 0..frames {
        match maker.add_frame(desk, id, n) {
            Ok(count) => bytes += count,
            Err(status) => return Err(status),
        }
    }
    Ok(bytes)
}

/// Writes a film as YUV4MPEG2, and gives the number of its bytes: it creates the output, and appends the head and then picture
/// after picture. The picture and the list are made before the output is created, and used for each picture. After a refusal
/// an output that was created stays with what came to it, a first part of the film. Nothing is read, and nothing is said.
pub fn make<D: Desk>(alloc: Global, desk: &mut D, film: &Film, out: &str) -> Result<u64, Status>
    requires { IsFilm film.now }
    ensures written { OnOk result (Makes (D.sees desk.old) (D.sees desk.new) out.now (film_text film.now)) }
    ensures bytes { IfOk result (λ bytes. bytes ≡ length (film_text film.now)) }
    ensures part { OnErr result (MakesPart (D.sees desk.old) (D.sees desk.new) out.now (film_text film.now)) }
    ensures kept { Makings (D.sees desk.old) (D.sees desk.new) }
    ensures writes { (D.sees desk.old).write_faults ≤ (D.sees desk.new).write_faults }
    ensures write { IsErrOf result Status.WriteFault → Rose (D.sees desk.old).write_faults (D.sees desk.new).write_faults }
    ensures only { IfErr result IsWriting }
{
    let Ok(mut maker) = Maker::new(alloc, film) else {
        return Err(Status::NoMem);
    };
    let id = match desk.create(out) {
        Ok(id) => id,
        Err(fault) => return Err(writing(fault)),
    };
    let head = match maker.add_head(desk, id) {
        Ok(bytes) => bytes,
        Err(status) => return Err(status),
    };
    match add_frames(desk, id, &mut maker) {
        Ok(bytes) => Ok(head + bytes),
        Err(status) => Err(status),
    }
}
