// The lines of a plan and of the frames that were coded (own).
ghost use Rattle.std.specs.Prelude.{◌≡◌, ◌++◌, OnOk, OnErr, codes, if◌then◌else◌};
ghost use Rattle.cut_report.specs.Lines.{frame_text, run_text, total_text};

use crate::line::Part::{Number, Text};
use crate::line::line;
use arrayvec::ArrayVec;
use vid_base::NoMem;

// How a run is written, and a space.
fn way(copied: bool) -> &'static str
    ensures { result.now ≡ (if copied then codes "copy " else codes "code ") }
{
    if copied { "copy " } else { "code " }
}

// The line of a run.
#[tactic(auto, unfolding(crate::specs::Lines::run_text))]
fn line_of_run(copied: bool, src: u32, first: u32, past: u32) -> ArrayVec<u8, 128>
    ensures { result.items ≡ run_text copied src first past }
{
    line(&[
        Text(way(copied)),
        Number(src.into()),
        Text(" "),
        Number(first.into()),
        Text(" "),
        Number(past.into()),
    ])
}

/// Appends the line of a run, which is copied or coded: frames `first` to `past` - 1 of a source. After `NoMem` the bytes are
/// those that were there.
pub fn run_line(
    out: &mut Vec<u8>,
    copied: bool,
    src: u32,
    first: u32,
    past: u32,
) -> Result<(), NoMem>
    ensures text { OnOk result (out.new.items ≡ out.old.items ++ run_text copied src first past) }
    ensures memory { OnErr result (out.new.items ≡ out.old.items) }
{
    let line = line_of_run(copied, src, first, past);
    out.extend_from_slice(line.as_slice())?;
    Ok(())
}

// The line of how many frames are copied and coded.
#[tactic(auto, unfolding(crate::specs::Lines::total_text))]
fn line_of_total(copied: u64, coded: u64) -> ArrayVec<u8, 64>
    ensures { result.items ≡ total_text copied coded }
{
    line(&[
        Text("copied "),
        Number(copied),
        Text(" coded "),
        Number(coded),
    ])
}

/// Appends the line that says how many frames are copied and how many coded. After `NoMem` the bytes are those that were there.
pub fn total_line(out: &mut Vec<u8>, copied: u64, coded: u64) -> Result<(), NoMem>
    ensures text { OnOk result (out.new.items ≡ out.old.items ++ total_text copied coded) }
    ensures memory { OnErr result (out.new.items ≡ out.old.items) }
{
    let line = line_of_total(copied, coded);
    out.extend_from_slice(line.as_slice())?;
    Ok(())
}

// The line of a frame that was coded.
#[tactic(auto, unfolding(crate::specs::Lines::frame_text))]
fn line_of_frame(i: u64, src: u32, n: u32, max: u8, sum: u64) -> ArrayVec<u8, 256>
    ensures { result.items ≡ frame_text i src n max sum }
{
    line(&[
        Text("coded "),
        Number(i),
        Text(" source "),
        Number(src.into()),
        Text(" frame "),
        Number(n.into()),
        Text(" max "),
        Number(max.into()),
        Text(" sum "),
        Number(sum),
    ])
}

/// Appends the line of frame i of an output, which was coded from frame n of a source: the greatest and the summed difference
/// of its samples from those wanted. After `NoMem` the bytes are those that were there.
pub fn frame_line(
    out: &mut Vec<u8>,
    i: u64,
    src: u32,
    n: u32,
    max: u8,
    sum: u64,
) -> Result<(), NoMem>
    ensures text { OnOk result (out.new.items ≡ out.old.items ++ frame_text i src n max sum) }
    ensures memory { OnErr result (out.new.items ≡ out.old.items) }
{
    let line = line_of_frame(i, src, n, max, sum);
    out.extend_from_slice(line.as_slice())?;
    Ok(())
}
