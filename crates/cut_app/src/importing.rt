// The command `import Y4M OUT QI KEYS`: it codes a YUV4MPEG2 text as a Theora stream in an Ogg file (own).
ghost use Rattle.std.specs.Prelude.{◌≡◌, ◌≤◌, ◌⊎◌, ◌∷◌, [], List, ℕ, Some, IfErr, IfOk, OnOk, IsErrOf};
ghost use Rattle.vid_desk.specs.Meaning.{Rose, ToldFiles};
ghost use Rattle.cut_desk.specs.Outputs.{LeavesOutputs, MakesAtMost, Seeks};
ghost use Rattle.cut_desk.specs.Statuses.{status_in};
ghost use Rattle.cut_report.specs.Lines.{imported_text};
ghost use Rattle.cut_app.specs.Forms.Form.{Importing};
ghost use Rattle.cut_app.specs.Imports.{HasHead, Imports, IsCoding, IsImported, IsImportText, LeavesWhileRead};
ghost use Rattle.cut_app.specs.Steps.{IsFilming, RefusesFilm};
ghost use Rattle.cut_app.specs.Texts.{HasSaid, StopsAt};
ghost use Rattle.cut_app.specs.Causes.{ImportCaused};
ghost use Rattle.cut_app.specs.Commands.{CreatesWhenGiven};

use crate::numbers::Coding;
use cut_desk::{reading, writing};
use cut_import::import;
use cut_report::{Status, imported_line};
use std::alloc::Global;
use vid_base::NoMem;
use vid_desk::Desk;

/// The text of an import is its first input.
const FIRST: u32 = 1;

// The line of so many pictures.
fn count_text(alloc: Global, count: u32) -> Result<Vec<u8>, NoMem>
    ensures { IfOk result (λ text. text.items ≡ imported_text count) }
{
    let mut text = Vec::new(alloc);
    imported_line(&mut text, count.into())?;
    Ok(text)
}

// Looks for the text and codes its pictures to a new output, and gives their number.
fn code_film<D: Desk>(
    alloc: Global,
    desk: &mut D,
    y4m: &str,
    out: &str,
    coding: &Coding,
) -> Result<u32, Status>
    requires { IsCoding coding.now }
    ensures written { IfOk result (λ count. ToldFiles (D.sees desk.old) (λ files. Imports (D.sees desk.old) (D.sees desk.new) (record { y4m = y4m.now; out = out.now; coding = coding.now }) files count)) }
    ensures refused { IfErr result (λ status. ToldFiles (D.sees desk.old) (λ files. RefusesFilm files y4m.now status)) }
    ensures outputs { MakesAtMost (D.sees desk.old) (D.sees desk.new) out.now }
    ensures created { ToldFiles (D.sees desk.old) (λ files. LeavesOutputs (D.sees desk.old) (D.sees desk.new) ⊎ HasHead files y4m.now) }
    ensures before { IfErr result (λ status. LeavesWhileRead status (D.sees desk.old) (D.sees desk.new)) }
    ensures names { Seeks (D.sees desk.old).sought (D.sees desk.new).sought (y4m.now ∷ []) }
    ensures inputs { (D.sees desk.new).inputs ≡ (D.sees desk.old).inputs }
    ensures silent { (D.sees desk.new).said ≡ (D.sees desk.old).said }
    ensures count { (D.sees desk.old).write_faults ≤ (D.sees desk.new).write_faults }
    ensures read { IsErrOf result Status.ReadFault → Rose (D.sees desk.old).read_faults (D.sees desk.new).read_faults }
    ensures write { IsErrOf result Status.WriteFault → Rose (D.sees desk.old).write_faults (D.sees desk.new).write_faults }
    ensures only { IfErr result IsFilming }
{
    let id = match desk.find(y4m) {
        Ok(Some(id)) => id,
        Ok(None) => return Err(Status::NoFile { input: FIRST }),
        Err(fault) => return Err(reading(fault)),
    };
    match import(alloc, desk, id, out, coding.qi, coding.keys) {
        Ok(count) => Ok(count),
        Err(status) => Err(status),
    }
}

/// Does `import Y4M OUT QI KEYS`: it codes the pictures of the text to a new output, and says how many there are.
pub(crate) fn import_film<D: Desk>(
    alloc: Global,
    desk: &mut D,
    y4m: &str,
    out: &str,
    coding: &Coding,
) -> Result<(), Status>
    requires { IsCoding coding.now }
    ensures caused { ToldFiles (D.sees desk.old) (λ files. ImportCaused (record { y4m = y4m.now; out = out.now; coding = coding.now }) files (status_in result)) }
    ensures written { OnOk result (ToldFiles (D.sees desk.old) (λ files. IsImported (D.sees desk.old) (D.sees desk.new) (record { y4m = y4m.now; out = out.now; coding = coding.now }) files)) }
    ensures outputs { MakesAtMost (D.sees desk.old) (D.sees desk.new) out.now }
    ensures created { ToldFiles (D.sees desk.old) (λ files. CreatesWhenGiven (D.sees desk.old) (D.sees desk.new) (Some (Importing (record { y4m = y4m.now; out = out.now; coding = coding.now }))) files) }
    ensures before { LeavesWhileRead (status_in result) (D.sees desk.old) (D.sees desk.new) }
    ensures said { OnOk result (ToldFiles (D.sees desk.old) (λ files. (text : List ℕ) × IsImportText files (record { y4m = y4m.now; out = out.now; coding = coding.now }) (D.sees desk.old).outputs (D.sees desk.new).outputs text × HasSaid (D.sees desk.old) (D.sees desk.new) text)) }
    ensures stops { IfErr result (StopsAt (Importing (record { y4m = y4m.now; out = out.now; coding = coding.now })) (D.sees desk.old) (D.sees desk.new)) }
    ensures names { Seeks (D.sees desk.old).sought (D.sees desk.new).sought (y4m.now ∷ []) }
    ensures inputs { (D.sees desk.new).inputs ≡ (D.sees desk.old).inputs }
    ensures count { (D.sees desk.old).write_faults ≤ (D.sees desk.new).write_faults }
    ensures read { IsErrOf result Status.ReadFault → Rose (D.sees desk.old).read_faults (D.sees desk.new).read_faults }
    ensures write { IsErrOf result Status.WriteFault → Rose (D.sees desk.old).write_faults (D.sees desk.new).write_faults }
    ensures usage { ¬ IsErrOf result Status.Usage }
    ensures done { ¬ IsErrOf result Status.Done }
{
    if out == y4m {
        return Err(Status::SameName);
    }
    let count = match code_film(alloc, desk, y4m, out, coding) {
        Ok(count) => count,
        Err(status) => return Err(status),
    };
    let Ok(text) = count_text(alloc, count) else {
        return Err(Status::NoMem);
    };
    match desk.say(&text) {
        Ok(()) => Ok(()),
        Err(fault) => Err(writing(fault)),
    }
}
