// Writing YUV4MPEG2 (own).
ghost use Rattle.std.specs.Prelude.{◌≡◌, ◌≢◌, ◌<◌, ◌≤◌, ◌+◌, ◌++◌, OnOk, OnErr, length, vec_len, vec_capacity};
ghost use Rattle.y4m_io.specs.Pictures.{samples_of, IsPicture};
ghost use Rattle.y4m_io.specs.Y4m.{colour_of, frame_text, frame_line, head_text};

use crate::head::Head;
use crate::line::Part::{Number, Text};
use crate::line::line;
use crate::picture::Picture;
use arrayvec::ArrayVec;
use vid_base::NoMem;

/// The line before the planes of a frame.
const FRAME: [u8; 6] = *b"FRAME\n";

// The name of a pixel format, with the place of 4:2:0 chroma that JPEG has.
fn colour(pf: u8) -> &'static str
    requires { (pf ≤ 3) × (pf ≢ 1) }
    ensures { result.now ≡ colour_of pf }
{
    match pf {
        0 => "420jpeg",
        2 => "422",
        _ => "444",
    }
}

// The line of a head.
#[tactic(auto, unfolding(crate::specs::Y4m::head_text))]
fn line_of_head(head: &Head) -> ArrayVec<u8, 160>
    requires { (head.now.pf ≤ 3) × (head.now.pf ≢ 1) }
    ensures { result.items ≡ head_text head.now }
{
    line(&[
        Text("YUV4MPEG2 W"),
        Number(head.w),
        Text(" H"),
        Number(head.h),
        Text(" F"),
        Number(head.frn),
        Text(":"),
        Number(head.frd),
        Text(" Ip A"),
        Number(head.parn),
        Text(":"),
        Number(head.pard),
        Text(" C"),
        Text(colour(head.pf)),
    ])
}

/// Appends the head. After `NoMem`, which comes only where there is no room for it, the bytes are those that were there.
pub fn write_head(out: &mut Vec<u8>, head: &Head) -> Result<(), NoMem>
    requires { (head.now.pf ≤ 3) × (head.now.pf ≢ 1) }
    ensures written { OnOk result (out.new.items ≡ out.old.items ++ head_text head.now) }
    ensures memory { OnErr result (out.new.items ≡ out.old.items) }
    ensures full { OnErr result (vec_capacity out.old < vec_len out.old + length (head_text head.now)) }
{
    let line = line_of_head(head);
    out.extend_from_slice(line.as_slice())?;
    Ok(())
}

// More bytes at the end, for which there is room.
fn add(out: &mut Vec<u8>, bytes: &[u8])
    requires { vec_len out.old + length bytes.now ≤ vec_capacity out.old }
    ensures items { out.new.items ≡ out.old.items ++ bytes.now }
    ensures len { vec_len out.new ≡ vec_len out.old + length bytes.now }
    ensures capacity { vec_capacity out.old ≤ vec_capacity out.new }
{
    let _ = out.extend_from_slice(bytes);
}

/// Appends a frame: its line, and its planes. After `NoMem`, which comes only where there is no room for it, the bytes are
/// those that were there.
pub fn write_frame(out: &mut Vec<u8>, p: &Picture) -> Result<(), NoMem>
    requires { IsPicture (samples_of p.now) }
    ensures written { OnOk result (out.new.items ≡ out.old.items ++ frame_text (samples_of p.now)) }
    ensures memory { OnErr result (out.new.items ≡ out.old.items) }
    ensures full { OnErr result (vec_capacity out.old < vec_len out.old + length (frame_text (samples_of p.now))) }
{
    out.try_reserve(FRAME.len() + p.y.len() + p.cb.len() + p.cr.len())?;
    add(out, &FRAME);
    add(out, &p.y);
    add(out, &p.cb);
    add(out, &p.cr);
    Ok(())
}
