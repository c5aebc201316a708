// The top call: a command line over a desk (own).
ghost use Rattle.std.specs.Prelude.{◌≡◌, ◌≤◌, ◌⊎◌, List, ℕ, Some, None, map, IfErr, OnOk, IsErrOf};
ghost use Rattle.vid_desk.specs.Meaning.{ToldFiles, Rose};
ghost use Rattle.cut_desk.specs.Outputs.{Seeks};
ghost use Rattle.cut_desk.specs.Statuses.{status_in};
ghost use Rattle.cut_app.specs.Forms.{form_of, inputs_in, inputs_of};
ghost use Rattle.cut_app.specs.Views.{form_view, IsWithinLimits};
ghost use Rattle.cut_app.specs.Texts.{HasSaid, IsTextOf, StopsAt};
ghost use Rattle.cut_app.specs.Causes.{CausedBy, FormCaused, IsOnly};
ghost use Rattle.cut_app.specs.Commands.{Completes, CreatesWhenGiven, LeavesBy, MakesOnly, SaysBy, Tells, WrittenBy};

use crate::checking::check;
use crate::exporting::export_file;
use crate::filming::make_film;
use crate::importing::import_film;
use crate::planning::say_plan;
use crate::words::{Command, command_of};
use cut_report::{Status, fault_line};
use cut_slice::cut;
use std::alloc::Global;
use vid_desk::{Desk, DeskFault};

// Says the line of a refusal in one piece.
fn tell<D: Desk>(desk: &mut D, status: Status) -> Status
    ensures told { Tells (D.sees desk.old) (D.sees desk.new) status result }
    ensures kept { D.sees desk.new ≡ record (D.sees desk.old) { said = (D.sees desk.new).said; write_faults = (D.sees desk.new).write_faults } }
    ensures count { (D.sees desk.old).write_faults ≤ (D.sees desk.new).write_faults }
{
    match desk.say(&fault_line(&status)) {
        Ok(()) => status,
        Err(DeskFault::Failed) => status,
        Err(DeskFault::NoMem) => Status::NoMem,
    }
}

// Does a command.
fn run<D: Desk>(alloc: Global, desk: &mut D, command: Command) -> Result<(), Status>
    requires { IsWithinLimits (form_view command) }
    ensures caused { ToldFiles (D.sees desk.old) (λ files. FormCaused (form_view command.entry) files (status_in result)) }
    ensures written { OnOk result (ToldFiles (D.sees desk.old) (λ files. WrittenBy (D.sees desk.old) (D.sees desk.new) (Some (form_view command.entry)) files)) }
    ensures outputs { MakesOnly (D.sees desk.old) (D.sees desk.new) (Some (form_view command.entry)) }
    ensures created { ToldFiles (D.sees desk.old) (λ files. CreatesWhenGiven (D.sees desk.old) (D.sees desk.new) (Some (form_view command.entry)) files) }
    ensures before { LeavesBy (Some (form_view command.entry)) (status_in result) (D.sees desk.old) (D.sees desk.new) }
    ensures names { Seeks (D.sees desk.old).sought (D.sees desk.new).sought (inputs_in (form_view command.entry)) }
    ensures inputs { (D.sees desk.new).inputs ≡ (D.sees desk.old).inputs }
    ensures said { OnOk result (ToldFiles (D.sees desk.old) (λ files. (text : List ℕ) × IsTextOf (form_view command.entry) files (D.sees desk.old).outputs (D.sees desk.new).outputs text × HasSaid (D.sees desk.old) (D.sees desk.new) text)) }
    ensures stops { IfErr result (StopsAt (form_view command.entry) (D.sees desk.old) (D.sees desk.new)) }
    ensures count { (D.sees desk.old).write_faults ≤ (D.sees desk.new).write_faults }
    ensures read { IsErrOf result Status.ReadFault → Rose (D.sees desk.old).read_faults (D.sees desk.new).read_faults }
    ensures write { IsErrOf result Status.WriteFault → Rose (D.sees desk.old).write_faults (D.sees desk.new).write_faults }
    ensures usage { ¬ IsErrOf result Status.Usage }
    ensures done { ¬ IsErrOf result Status.Done }
{
    match command {
        Command::Check { file } => check(alloc, desk, file),
        Command::Export { file, out } => export_file(alloc, desk, file, out),
        Command::Import { y4m, out, coding } => import_film(alloc, desk, y4m, out, &coding),
        Command::Make { film, out } => make_film(alloc, desk, &film, out),
        Command::Plan { list, source } => say_plan(alloc, desk, list, source),
        Command::Cut { list, out, source } => cut(alloc, desk, list, out, source),
    }
}

/// Does what the words say, over the desk's inputs, outputs and text, and tells how it ended.
///
/// `check FILE` judges a file and parses its frames whole. The order of refusals is: the words; the file that is not there;
/// a file of more than 2^40 bytes; the first check that fails. It says a line for the file's link, and whether the file is
/// seekable.
///
/// `export FILE OUT` writes all frames of a file as YUV4MPEG2 to the new output OUT, and says how many there are. The order of
/// refusals is: the words; names that are the same; the file that is not there; a file of more than 2^40 bytes; the first check
/// that fails. No output is created before all of these were looked at. Packets are read again then, so that `ReadFault` and
/// `Changed` may leave an output with what came to it.
///
/// `import Y4M OUT QI KEYS` codes the pictures of a YUV4MPEG2 text as a Theora stream in the new output OUT, and says how many
/// there are. QI, from 0 to 63, is the quantiser index of all frames, and a frame is a key frame where KEYS, from 1 to 64, divides
/// its number. The order of refusals is: the words; names that are the same; the input that is not there; the first departure of
/// its text. The head is read before the output is created, and pictures are read and coded one after another, so that `BadY4m`
/// and `ReadFault` may leave an output with what came to it, a first part of the pages of the pictures that were read.
///
/// `make START FRAMES W H OUT` writes a film of FRAMES generated pictures of W by H samples as YUV4MPEG2 to the new output OUT,
/// and says how many pictures and how many bytes it has. START says where the first picture begins. The numbers are decimal
/// without leading zeros: START at most 2,147,483,647, FRAMES from 1 to 10,000, W and H from 1 to 1,024. After a refusal an
/// output that was created holds a first part of the film.
///
/// `plan LIST SRC` says the runs of the list over the source, a line each, and how many frames are copied and coded. The order
/// of refusals is: the words; inputs that are not there, in the order of the words; a list of more than 2^20 bytes, a source of
/// more than 2^40; the source, as `check` judges it; the first bad line of the list; its first line out of range.
///
/// `cut LIST OUT SRC` copies the slice of the list LIST out of the plain source SRC into the new output OUT. The order
/// of refusals is: the words; names that are the same; inputs that are not there, in the order of the words; the form
/// of the list; the source; the slice past its frames; the in-point. No output is created before all of these were
/// looked at. It says nothing.
///
/// A status other than `Done` says its line, in one piece, behind what was said before it. The status stays where that
/// fails, and becomes `NoMem` where no memory is found for it.
pub fn oggcut<D: Desk>(alloc: Global, words: &[&str], desk: &mut D) -> Status
    // The words alone decide whether they have a form.
    ensures usage { result ≡ Status.Usage → form_of (map (λ word. word.now) words.now) ≡ None }
    ensures formless { form_of (map (λ word. word.now) words.now) ≡ None → (result ≡ Status.Usage) ⊎ (result ≡ Status.NoMem) }
    // Over inputs that are told, each status has its cause, and no other status has one, so that each cause has its status.
    ensures caused { ToldFiles (D.sees desk.old) (λ files. CausedBy (form_of (map (λ word. word.now) words.now)) files result) }
    ensures only { ToldFiles (D.sees desk.old) (λ files. IsOnly (form_of (map (λ word. word.now) words.now)) files result) }
    // The output of an export that was done holds the pictures of all frames of the file, that of an import the pages of its
    // headers and of a packet near each picture, that of a film its pictures, and that of a cut the pages of the source's headers
    // and of the frames of the slice.
    ensures written { result ≡ Status.Done → ToldFiles (D.sees desk.old) (λ files. WrittenBy (D.sees desk.old) (D.sees desk.new) (form_of (map (λ word. word.now) words.now)) files) }
    // Where all is given and no count of faults rises, the command is done.
    ensures complete { ToldFiles (D.sees desk.old) (λ files. Completes (D.sees desk.old) (D.sees desk.new) (form_of (map (λ word. word.now) words.now)) files result) }
    ensures outputs { MakesOnly (D.sees desk.old) (D.sees desk.new) (form_of (map (λ word. word.now) words.now)) }
    // Whatever the status, nothing is asked of the outputs before all that the command needs was found to be given.
    ensures created { ToldFiles (D.sees desk.old) (λ files. CreatesWhenGiven (D.sees desk.old) (D.sees desk.new) (form_of (map (λ word. word.now) words.now)) files) }
    ensures before { LeavesBy (form_of (map (λ word. word.now) words.now)) result (D.sees desk.old) (D.sees desk.new) }
    ensures names { Seeks (D.sees desk.old).sought (D.sees desk.new).sought (inputs_of (form_of (map (λ word. word.now) words.now))) }
    ensures inputs { (D.sees desk.new).inputs ≡ (D.sees desk.old).inputs }
    // The text of a command that was done, or else the line of its status.
    ensures said { SaysBy (form_of (map (λ word. word.now) words.now)) (D.sees desk.old) (D.sees desk.new) result }
    ensures read { result ≡ Status.ReadFault → Rose (D.sees desk.old).read_faults (D.sees desk.new).read_faults }
    ensures write { result ≡ Status.WriteFault → Rose (D.sees desk.old).write_faults (D.sees desk.new).write_faults }
{
    let Some(command) = command_of(words) else {
        return tell(desk, Status::Usage);
    };
    match run(alloc, desk, command) {
        Ok(()) => Status::Done,
        Err(status) => tell(desk, status),
    }
}
