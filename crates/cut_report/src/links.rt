// The lines of a file that was judged: of a link, and whether it is seekable (own).
ghost use Rattle.std.specs.Prelude.{◌≡◌, ◌++◌, OnOk, OnErr};
ghost use Rattle.cut_report.specs.Lines.{link_text, pixels_of, seekable_text};

use crate::line::Part::{Number, Text};
use crate::line::line;
use arrayvec::ArrayVec;
use thr_ident::Ident;
use vid_base::NoMem;

/// Samples along a side of a macro block (Theora I, 2.4).
const MACRO_BLOCK: u64 = 16;

// The name of a pixel format (Theora I, 4.4).
fn pixels(pf: u8) -> &'static str
    ensures { result.now ≡ pixels_of pf }
{
    match pf {
        0 => "420",
        2 => "422",
        _ => "444",
    }
}

// The line of a link.
#[tactic(auto, unfolding(crate::specs::Lines::link_text))]
fn line_of_link(link: u32, ident: &Ident, frames: u32, keys: u32) -> ArrayVec<u8, 256>
    ensures { result.items ≡ link_text link ident.now frames keys }
{
    line(&[
        Text("link "),
        Number(link.into()),
        Text(" picture "),
        Number(ident.picw.into()),
        Text("x"),
        Number(ident.pich.into()),
        Text(" coded "),
        Number(MACRO_BLOCK * u64::from(ident.fmbw)),
        Text("x"),
        Number(MACRO_BLOCK * u64::from(ident.fmbh)),
        Text(" pixels "),
        Text(pixels(ident.pf)),
        Text(" rate "),
        Number(ident.frn.into()),
        Text(":"),
        Number(ident.frd.into()),
        Text(" frames "),
        Number(frames.into()),
        Text(" keys "),
        Number(keys.into()),
    ])
}

/// Appends the line of a link with this header, so many frames and so many key frames. After `NoMem` the bytes are those
/// that were there.
pub fn link_line(
    out: &mut Vec<u8>,
    link: u32,
    ident: &Ident,
    frames: u32,
    keys: u32,
) -> Result<(), NoMem>
    ensures text { OnOk result (out.new.items ≡ out.old.items ++ link_text link ident.now frames keys) }
    ensures memory { OnErr result (out.new.items ≡ out.old.items) }
{
    let line = line_of_link(link, ident, frames, keys);
    out.extend_from_slice(line.as_slice())?;
    Ok(())
}

// The line of a file that is seekable, or not.
#[tactic(auto, unfolding(crate::specs::Lines::seekable_text))]
fn line_of_seekable(yes: bool) -> ArrayVec<u8, 16>
    ensures { result.items ≡ seekable_text yes }
{
    if yes {
        line(&[Text("seekable yes")])
    } else {
        line(&[Text("seekable no")])
    }
}

/// Appends the line that says whether a file is seekable. After `NoMem` the bytes are those that were there.
pub fn seekable_line(out: &mut Vec<u8>, yes: bool) -> Result<(), NoMem>
    ensures text { OnOk result (out.new.items ≡ out.old.items ++ seekable_text yes) }
    ensures memory { OnErr result (out.new.items ≡ out.old.items) }
{
    let line = line_of_seekable(yes);
    out.extend_from_slice(line.as_slice())?;
    Ok(())
}
