// The command `check FILE`: it judges a file and says what it holds (own).
ghost use Rattle.std.specs.Prelude.{◌≡◌, ◌≢◌, ◌≤◌, ◌<◌, ◌∷◌, [], List, ℕ, Ok, Some, IfOk, IfErr, OnOk, IsErrOf};
ghost use Rattle.vid_desk.specs.Meaning.{ToldFiles, Rose, bytes_at};
ghost use Rattle.cut_desk.specs.Inputs.{contents};
ghost use Rattle.cut_desk.specs.Outputs.{Looks, Seeks};
ghost use Rattle.cut_desk.specs.Statuses.{status_in};
ghost use Rattle.cut_app.specs.Forms.Form.{Checking};
ghost use Rattle.cut_app.specs.Texts.{HasSaid, IsCheckText, StopsAt};
ghost use Rattle.src_index.specs.Index.{keys_of};
ghost use Rattle.src_index.specs.Loading.{IsLoadedFrom};
ghost use Rattle.cut_app.specs.Index.{marked, HasIndex, IsIndexText};
ghost use Rattle.cut_app.specs.Steps.{IsReading};
ghost use Rattle.cut_app.specs.Causes.{CheckCaused};
ghost use Rattle.cut_app.specs.Commands.{ReadsAndSays};

use crate::judging::judge;
use cut_desk::{reading, writing};
use cut_report::{Status, link_line, seekable_line};
use src_index::Source;
use std::alloc::Global;
use vid_base::NoMem;
use vid_desk::Desk;

/// The file of a check is its first input.
const FIRST: u32 = 1;

/// A source has one link, the first.
const LINK: u32 = 1;

// How many frames of a source are key frames.
fn key_count(source: &Source) -> u32
    ensures { result ≡ marked (keys_of source.now) }
{
    let mut keys = 0u32;
    'frames: for n in 0..source.frames() {
        keys += u32::from(source.is_key(n));
    }
    keys
}

// The line of the one link of a source, and the line that says whether its file is seekable.
fn check_text(alloc: Global, source: &Source) -> Result<Vec<u8>, NoMem>
    ensures { IfOk result (λ text. IsIndexText source.now text.items) }
{
    let mut text = Vec::new(alloc);
    link_line(
        &mut text,
        LINK,
        source.ident(LINK),
        source.frames(),
        key_count(source),
    )?;
    seekable_line(&mut text, source.seekable())?;
    Ok(text)
}

/// Looks for the file and judges it.
pub(crate) fn judge_file<D: Desk>(alloc: Global, desk: &mut D, file: &str) -> Result<Source, Status>
    ensures found { IfOk result (λ source. ToldFiles (D.sees desk.old) (λ files. HasIndex files file.now source)) }
    ensures held { IfOk result (λ source. (source.input < (D.sees desk.new).found) × IsLoadedFrom (D.sees desk.new) source.input source) }
    ensures place { IfOk result (λ source. ToldFiles (D.sees desk.old) (λ files. contents files file.now ≡ Some (bytes_at files source.input))) }
    ensures caused { IfErr result (λ status. ToldFiles (D.sees desk.old) (λ files. CheckCaused file.now files status)) }
    ensures names { Seeks (D.sees desk.old).sought (D.sees desk.new).sought (file.now ∷ []) }
    ensures kept { Looks (D.sees desk.old) (D.sees desk.new) }
    ensures count { (D.sees desk.old).read_faults ≤ (D.sees desk.new).read_faults }
    ensures read { IsErrOf result Status.ReadFault → Rose (D.sees desk.old).read_faults (D.sees desk.new).read_faults }
    ensures only { IfErr result IsReading }
{
    let id = match desk.find(file) {
        Ok(Some(id)) => id,
        Ok(None) => return Err(Status::NoFile { input: FIRST }),
        Err(fault) => return Err(reading(fault)),
    };
    match judge(alloc, desk, id, FIRST) {
        Ok(source) => Ok(source),
        Err(status) => Err(status),
    }
}

/// Does `check FILE`: it judges the file, and says the line of its link and whether it is seekable.
pub(crate) fn check<D: Desk>(alloc: Global, desk: &mut D, file: &str) -> Result<(), Status>
    ensures caused { ToldFiles (D.sees desk.old) (λ files. CheckCaused file.now files (status_in result)) }
    ensures said { OnOk result (ToldFiles (D.sees desk.old) (λ files. (text : List ℕ) × IsCheckText files file.now text × HasSaid (D.sees desk.old) (D.sees desk.new) text)) }
    ensures stops { IfErr result (StopsAt (Checking file.now) (D.sees desk.old) (D.sees desk.new)) }
    ensures names { Seeks (D.sees desk.old).sought (D.sees desk.new).sought (file.now ∷ []) }
    ensures kept { ReadsAndSays (D.sees desk.old) (D.sees desk.new) }
    ensures count { (D.sees desk.old).write_faults ≤ (D.sees desk.new).write_faults }
    ensures read { IsErrOf result Status.ReadFault → Rose (D.sees desk.old).read_faults (D.sees desk.new).read_faults }
    ensures write { IsErrOf result Status.WriteFault → Rose (D.sees desk.old).write_faults (D.sees desk.new).write_faults }
    ensures usage { ¬ IsErrOf result Status.Usage }
    ensures done { ¬ IsErrOf result Status.Done }
{
    let source = match judge_file(alloc, desk, file) {
        Ok(source) => source,
        Err(status) => return Err(status),
    };
    let Ok(text) = check_text(alloc, &source) else {
        return Err(Status::NoMem);
    };
    match desk.say(&text) {
        Ok(()) => Ok(()),
        Err(fault) => Err(writing(fault)),
    }
}
