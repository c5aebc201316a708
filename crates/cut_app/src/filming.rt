// The command `make START FRAMES W H OUT`: it writes a film of generated pictures as YUV4MPEG2 (own).
ghost use Rattle.std.specs.Prelude.{◌≡◌, ◌≤◌, List, ℕ, IfErr, IfOk, OnOk, IsErrOf};
ghost use Rattle.vid_desk.specs.Meaning.{Rose};
ghost use Rattle.cut_desk.specs.Outputs.{Makes};
ghost use Rattle.cut_desk.specs.Statuses.{status_in, LeavesOutputsAt};
ghost use Rattle.cut_report.specs.Lines.{made_text};
ghost use Rattle.cut_make.specs.Films.{IsFilm, MakesPart, film_text};
ghost use Rattle.cut_app.specs.Forms.Form.{Making};
ghost use Rattle.cut_app.specs.Makes.{IsMakeText, MakeCaused};
ghost use Rattle.cut_app.specs.Texts.{HasSaid, StopsAt};

use cut_desk::writing;
use cut_make::{Film, make};
use cut_report::{Status, made_line};
use std::alloc::Global;
use vid_base::NoMem;
use vid_desk::Desk;

// The line of so many pictures, of so many bytes.
fn film_line(alloc: Global, frames: u32, bytes: u64) -> Result<Vec<u8>, NoMem>
    ensures { IfOk result (λ text. text.items ≡ made_text frames bytes) }
{
    let mut text = Vec::new(alloc);
    made_line(&mut text, frames, bytes)?;
    Ok(text)
}

/// Does `make START FRAMES W H OUT`: it writes the film to a new output, and says how many pictures and how many bytes it has.
pub(crate) fn make_film<D: Desk>(
    alloc: Global,
    desk: &mut D,
    film: &Film,
    out: &str,
) -> Result<(), Status>
    requires { IsFilm film.now }
    ensures caused { MakeCaused (status_in result) }
    ensures written { OnOk result (Makes (D.sees desk.old) (D.sees desk.new) out.now (film_text film.now)) }
    ensures outputs { MakesPart (D.sees desk.old) (D.sees desk.new) out.now (film_text film.now) }
    ensures said { OnOk result ((text : List ℕ) × IsMakeText (record { film = film.now; out = out.now }) (D.sees desk.old).outputs (D.sees desk.new).outputs text × HasSaid (D.sees desk.old) (D.sees desk.new) text) }
    ensures before { LeavesOutputsAt (status_in result) (D.sees desk.old) (D.sees desk.new) }
    ensures stops { IfErr result (StopsAt (Making (record { film = film.now; out = out.now })) (D.sees desk.old) (D.sees desk.new)) }
    ensures names { (D.sees desk.new).sought ≡ (D.sees desk.old).sought }
    ensures inputs { (D.sees desk.new).inputs ≡ (D.sees desk.old).inputs }
    ensures count { (D.sees desk.old).write_faults ≤ (D.sees desk.new).write_faults }
    ensures read { IsErrOf result Status.ReadFault → Rose (D.sees desk.old).read_faults (D.sees desk.new).read_faults }
    ensures write { IsErrOf result Status.WriteFault → Rose (D.sees desk.old).write_faults (D.sees desk.new).write_faults }
    ensures usage { ¬ IsErrOf result Status.Usage }
    ensures done { ¬ IsErrOf result Status.Done }
{
    let bytes = match make(alloc, desk, film, out) {
        Ok(bytes) => bytes,
        Err(status) => return Err(status),
    };
    let Ok(text) = film_line(alloc, film.frames, bytes) else {
        return Err(Status::NoMem);
    };
    match desk.say(&text) {
        Ok(()) => Ok(()),
        Err(fault) => Err(writing(fault)),
    }
}
