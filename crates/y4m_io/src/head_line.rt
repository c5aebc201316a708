// Reading a head (own).
ghost use Rattle.std.specs.Prelude.{◌≡◌, ◌≢◌, ◌≤◌, ◌<◌, ◌+◌, ◌*◌, ◌/◌, ◌^◌, true, IfOk, length};
ghost use Rattle.std.specs.Option.{option_map_or};
ghost use Rattle.y4m_io.specs.Fields.{said_by, seen, Says};
ghost use Rattle.y4m_io.specs.HeadLine.{head_in, head_said, is_small, said_in, with_fields, IsHead};
ghost use Rattle.y4m_io.specs.HeadView.{head_read};
ghost use Rattle.y4m_io.specs.Places.{parts_of};

use crate::fault::Y4mWhy;
use crate::field::Fields;
use crate::head::Head;
use crate::place::{first_part, place_of};

/// The first word of every head.
const MAGIC: [u8; 9] = *b"YUV4MPEG2";

/// The most macro blocks of a coded frame along an axis, and in all (own).
const MOST_ALONG: u64 = 65_535;

const MOST_IN_ALL: u64 = 131_072;

/// A head, and how many bytes it takes with its line feed.
#[derive(Clone, Copy)]
pub(crate) struct HeadRead {
    pub(crate) head: Head,
    pub(crate) size: usize,
}

// Adds all fields of a text.
fn add_fields(fields: &mut Fields, text: &[u8]) -> Result<(), Y4mWhy>
    ensures { Says result (said_by fields.new) (with_fields (said_by fields.old) (parts_of 32 text.now)) }
{
    let mut rest = Some(text);
    'fields: while let Some(behind) = rest {
        let part = first_part(b' ', behind);
        match fields.add(part.bytes) {
            Ok(()) => rest = part.rest,
            Err(why) => return Err(why),
        }
    }
    Ok(())
}

// What a line says.
#[tactic(auto, unfolding(crate::specs::HeadLine::said_in))]
fn said(line: &[u8]) -> Result<Fields, Y4mWhy>
    ensures { seen said_by result ≡ said_in line.now }
{
    if !line.starts_with(&MAGIC) {
        return Err(Y4mWhy::Magic);
    }
    let mut fields = Fields::none();
    match &line[MAGIC.len()..] {
        [] => Ok(fields),
        [b' ', text @ ..] => {
            add_fields(&mut fields, text)?;
            Ok(fields)
        }
        _ => Err(Y4mWhy::Magic),
    }
}

// Whether a coded frame of that size is not too large.
fn is_small(w: u64, h: u64) -> bool
    requires w { w ≤ 4294967296 }
    requires h { h ≤ 4294967296 }
    ensures value { result ≡ is_small w h }
    ensures sound { result ≡ true → ((w + 15) / 16 ≤ 65535) × ((h + 15) / 16 ≤ 65535) × (((w + 15) / 16) * ((h + 15) / 16) ≤ 131072) }
{
    let across = (w + 15) / 16;
    let up = (h + 15) / 16;
    across <= MOST_ALONG && up <= MOST_ALONG && across * up <= MOST_IN_ALL
}

// The aspect of samples; 0:0 where it is not said.
fn aspect_of(fields: &Fields) -> (u32, u32)
    ensures n { result.0 ≡ option_map_or (λ r. r.0) fields.now.aspect 0 }
    ensures d { result.1 ≡ option_map_or (λ r. r.1) fields.now.aspect 0 }
    ensures small { (result.0 < 2 ^ 24) × (result.1 < 2 ^ 24) }
{
    match fields.aspect {
        Some(aspect) => aspect,
        None => (0, 0),
    }
}

// The pixel format; 4:2:0 where it is not said.
fn format_of(fields: &Fields) -> u8
    ensures value { result ≡ option_map_or (λ f. f) fields.now.format 0 }
    ensures known { (result ≤ 3) × (result ≢ 1) }
{
    match fields.format {
        Some(format) => format,
        None => 0,
    }
}

// The head of all fields.
#[tactic(auto, unfolding(crate::specs::HeadLine::head_said))]
fn head_of(fields: &Fields) -> Result<Head, Y4mWhy>
    ensures value { result ≡ head_said (said_by fields.now) }
    ensures sound { IfOk result IsHead }
{
    let w = fields.w.ok_or(Y4mWhy::Size)?;
    let h = fields.h.ok_or(Y4mWhy::Size)?;
    let (frn, frd) = fields.rate.ok_or(Y4mWhy::Rate)?;
    if !is_small(w, h) {
        return Err(Y4mWhy::Size);
    }
    let (parn, pard) = aspect_of(fields);
    Ok(Head {
        w: w as u32,
        h: h as u32,
        frn,
        frd,
        parn,
        pard,
        pf: format_of(fields),
    })
}

/// The head at the front of a text, of which this is as much as a head may take.
#[tactic(auto, unfolding(crate::specs::HeadLine::head_in))]
pub(crate) fn read_head(front: &[u8]) -> Result<HeadRead, Y4mWhy>
    ensures value { seen head_read result ≡ head_in front.now }
    ensures sound { IfOk result (λ read. IsHead read.head × (read.size ≤ length front.now)) }
{
    let end = place_of(b'\n', front);
    let line = match end {
        Some(end) => &front[..end],
        None => front,
    };
    let fields = said(line)?;
    let end = end.ok_or(Y4mWhy::Line)?;
    let head = head_of(&fields)?;
    Ok(HeadRead {
        head,
        size: end + 1,
    })
}
