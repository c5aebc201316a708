// The command `export FILE OUT`: it writes all frames of a file as YUV4MPEG2 (own).
ghost use Rattle.std.specs.Prelude.{◌≡◌, ◌≤◌, ◌∷◌, [], List, ℕ, IfErr, IfOk, OnOk, IsErrOf};
ghost use Rattle.vid_desk.specs.Meaning.{Rose, ToldFiles};
ghost use Rattle.cut_desk.specs.Outputs.{MakesAtMost, Seeks};
ghost use Rattle.cut_desk.specs.Statuses.{status_in};
ghost use Rattle.cut_report.specs.Lines.{exported_text};
ghost use Rattle.cut_app.specs.Forms.Form.{Exporting};
ghost use Rattle.cut_app.specs.Exports.{IsExported, IsExportText, LeavesUntil};
ghost use Rattle.cut_app.specs.Texts.{HasSaid, StopsAt};
ghost use Rattle.cut_app.specs.Causes.{ExportCaused};
ghost use Rattle.cut_app.specs.Commands.{CreatesWhenGiven};

use crate::checking::judge_file;
use cut_desk::writing;
use cut_export::export;
use cut_report::{Status, exported_line};
use std::alloc::Global;
use vid_base::NoMem;
use vid_desk::Desk;

// The line of so many frames.
fn count_text(alloc: Global, count: u32) -> Result<Vec<u8>, NoMem>
    ensures { IfOk result (λ text. text.items ≡ exported_text count) }
{
    let mut text = Vec::new(alloc);
    exported_line(&mut text, count.into())?;
    Ok(text)
}

/// Does `export FILE OUT`: it judges the file, writes its pictures to a new output, and says how many there are.
pub(crate) fn export_file<D: Desk>(
    alloc: Global,
    desk: &mut D,
    file: &str,
    out: &str,
) -> Result<(), Status>
    ensures caused { ToldFiles (D.sees desk.old) (λ files. ExportCaused (record { file = file.now; out = out.now }) files (status_in result)) }
    ensures written { OnOk result (ToldFiles (D.sees desk.old) (λ files. IsExported (D.sees desk.old) (D.sees desk.new) (record { file = file.now; out = out.now }) files)) }
    ensures outputs { MakesAtMost (D.sees desk.old) (D.sees desk.new) out.now }
    ensures created { ToldFiles (D.sees desk.old) (λ files. CreatesWhenGiven (D.sees desk.old) (D.sees desk.new) (Some (Exporting (record { file = file.now; out = out.now }))) files) }
    ensures before { LeavesUntil (status_in result) (D.sees desk.old) (D.sees desk.new) }
    ensures said { OnOk result (ToldFiles (D.sees desk.old) (λ files. (text : List ℕ) × IsExportText files (record { file = file.now; out = out.now }) (D.sees desk.old).outputs (D.sees desk.new).outputs text × HasSaid (D.sees desk.old) (D.sees desk.new) text)) }
    ensures stops { IfErr result (StopsAt (Exporting (record { file = file.now; out = out.now })) (D.sees desk.old) (D.sees desk.new)) }
    ensures names { Seeks (D.sees desk.old).sought (D.sees desk.new).sought (file.now ∷ []) }
    ensures inputs { (D.sees desk.new).inputs ≡ (D.sees desk.old).inputs }
    ensures count { (D.sees desk.old).write_faults ≤ (D.sees desk.new).write_faults }
    ensures read { IsErrOf result Status.ReadFault → Rose (D.sees desk.old).read_faults (D.sees desk.new).read_faults }
    ensures write { IsErrOf result Status.WriteFault → Rose (D.sees desk.old).write_faults (D.sees desk.new).write_faults }
    ensures usage { ¬ IsErrOf result Status.Usage }
    ensures done { ¬ IsErrOf result Status.Done }
{
    if out == file {
        return Err(Status::SameName);
    }
    let source = match judge_file(alloc, desk, file) {
        Ok(source) => source,
        Err(status) => return Err(status),
    };
    match export(alloc, desk, &source, out) {
        Ok(()) => {}
        Err(status) => return Err(status),
    }
    let Ok(text) = count_text(alloc, source.frames()) else {
        return Err(Status::NoMem);
    };
    match desk.say(&text) {
        Ok(()) => Ok(()),
        Err(fault) => Err(writing(fault)),
    }
}
