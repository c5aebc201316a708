// The lines of frames that were written or read (own).
ghost use Rattle.std.specs.Prelude.{◌≡◌, ◌++◌, OnOk, OnErr};
ghost use Rattle.cut_report.specs.Lines.{exported_text, imported_text, made_text};

use crate::line::Part::{Number, Text};
use crate::line::line;
use arrayvec::ArrayVec;
use vid_base::NoMem;

// The line of so many frames that were exported.
#[tactic(auto, unfolding(crate::specs::Lines::exported_text))]
fn line_of_exported(count: u64) -> ArrayVec<u8, 64>
    ensures { result.items ≡ exported_text count }
{
    line(&[Text("exported "), Number(count)])
}

/// Appends the line that says how many frames were exported. After `NoMem` the bytes are those that were there.
pub fn exported_line(out: &mut Vec<u8>, count: u64) -> Result<(), NoMem>
    ensures text { OnOk result (out.new.items ≡ out.old.items ++ exported_text count) }
    ensures memory { OnErr result (out.new.items ≡ out.old.items) }
{
    let line = line_of_exported(count);
    out.extend_from_slice(line.as_slice())?;
    Ok(())
}

// The line of so many frames that were imported.
#[tactic(auto, unfolding(crate::specs::Lines::imported_text))]
fn line_of_imported(count: u64) -> ArrayVec<u8, 64>
    ensures { result.items ≡ imported_text count }
{
    line(&[Text("imported "), Number(count)])
}

/// Appends the line that says how many frames were imported. After `NoMem` the bytes are those that were there.
pub fn imported_line(out: &mut Vec<u8>, count: u64) -> Result<(), NoMem>
    ensures text { OnOk result (out.new.items ≡ out.old.items ++ imported_text count) }
    ensures memory { OnErr result (out.new.items ≡ out.old.items) }
{
    let line = line_of_imported(count);
    out.extend_from_slice(line.as_slice())?;
    Ok(())
}

// The line of so many frames that were made.
#[tactic(auto, unfolding(crate::specs::Lines::made_text))]
fn line_of_made(count: u32, bytes: u64) -> ArrayVec<u8, 64>
    ensures { result.items ≡ made_text count bytes }
{
    line(&[
        Text("made "),
        Number(count.into()),
        Text(" bytes "),
        Number(bytes),
    ])
}

/// Appends the line that says how many frames were made, and of how many bytes the file is. After `NoMem` the bytes are those
/// that were there.
pub fn made_line(out: &mut Vec<u8>, count: u32, bytes: u64) -> Result<(), NoMem>
    ensures text { OnOk result (out.new.items ≡ out.old.items ++ made_text count bytes) }
    ensures memory { OnErr result (out.new.items ≡ out.old.items) }
{
    let line = line_of_made(count, bytes);
    out.extend_from_slice(line.as_slice())?;
    Ok(())
}
