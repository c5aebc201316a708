// Writing the cut: the pages of the headers and of the frames of a slice (own).
ghost use Rattle.std.specs.Prelude.{◌≡◌, ◌<◌, ◌≤◌, ◌+◌, ◌-◌, ◌*◌, ◌/◌, ◌^◌, ◌++◌, ◌⊎◌, ℕ, List, length, sum, map, take, drop, vec_len, OnOk, OnErr, IfOk, IsErrOf, All, if◌then◌else◌};
ghost use Rattle.vid_desk.specs.Meaning.{HasCause, Meaning, Rose};
ghost use Rattle.ogg_page.specs.Page.{HasShape};
ghost use Rattle.ogg_page.specs.Written.{page_of, written_pages};
ghost use Rattle.ogg_link.specs.Track.{granule_of, is_key};
ghost use Rattle.ogg_mux.specs.OutputPages.{paged};
ghost use Rattle.cut_slice.specs.Copy.{lacing_of, IsShort, frame_pages, header_pages};
ghost use Rattle.cut_desk.specs.Making.{IsMaking, Adds};
ghost use Rattle.cut_desk.specs.Outputs.{Makes, MakesAtMost, Makings};
ghost use Rattle.cut_slice.specs.Cause.{cut_bytes};
ghost use Rattle.cut_slice.specs.Slices.{slice_view};
ghost use Rattle.cut_slice.specs.Plain.{stream_of};
ghost use Rattle.cut_slice.specs.Sources.{packets_view, IsCopyable};

use crate::list::Slice;
use crate::source::{Source, base_of, is_key, shift_of};
use ogg_page::{PageHead, write_page};
use std::alloc::Global;
use vid_base::NoMem;
use vid_desk::{Desk, DeskFault};

/// The serial number of the stream that is written.
const SERIAL: u32 = 1;

// Adds the lacing values of a packet of that size.
fn add_lacing(lacing: &mut Vec<u8>, size: usize) -> Result<(), NoMem>
    requires { size / 255 < 255 }
    ensures added { OnOk result (lacing.new.items ≡ lacing.old.items ++ lacing_of size) }
{
    for _ in 0..size / 255 {
        lacing.push(255)?;
    }
    lacing.push((size % 255) as u8)?;
    Ok(())
}

// Adds a page to the output.
fn add_page<D: Desk>(
    desk: &mut D,
    id: u32,
    page: &mut Vec<u8>,
    head: &PageHead,
    lacing: &[u8],
    body: &[u8],
) -> Result<(), DeskFault>
    requires id { id < (D.sees desk.old).made }
    requires flags { head.now.flags < 8 }
    requires shape { HasShape lacing.now body.now }
    ensures added { OnOk result (Adds (D.sees desk.old) (D.sees desk.new) id (page_of head.now.flags head.now.granule head.now.serial head.now.number lacing.now body.now)) }
    ensures part { OnErr result ((came : List ℕ) × Adds (D.sees desk.old) (D.sees desk.new) id came) }
    ensures cause { HasCause (D.sees desk.old).write_faults (D.sees desk.new).write_faults result }
{
    page.clear();
    if write_page(page, head, lacing, body).is_err() {
        return Err(DeskFault::NoMem);
    }
    match desk.append(id, page) {
        Ok(()) => Ok(()),
        Err(fault) => Err(fault),
    }
}

// Adds a page on which one packet stands whole.
fn add_packet<D: Desk>(
    desk: &mut D,
    id: u32,
    lacing: &mut Vec<u8>,
    page: &mut Vec<u8>,
    head: &PageHead,
    packet: &[u8],
) -> Result<(), DeskFault>
    requires id { id < (D.sees desk.old).made }
    requires flags { head.now.flags < 8 }
    requires short { IsShort packet.now }
    ensures added { OnOk result (Adds (D.sees desk.old) (D.sees desk.new) id (page_of head.now.flags head.now.granule head.now.serial head.now.number (lacing_of (length packet.now)) packet.now)) }
    ensures part { OnErr result ((came : List ℕ) × Adds (D.sees desk.old) (D.sees desk.new) id came) }
    ensures cause { HasCause (D.sees desk.old).write_faults (D.sees desk.new).write_faults result }
{
    lacing.clear();
    if add_lacing(lacing, packet.len()).is_err() {
        return Err(DeskFault::NoMem);
    }
    add_page(desk, id, page, head, lacing, packet)
}

// The page of the identification header, and that of the other two.
fn add_headers<D: Desk>(
    alloc: Global,
    desk: &mut D,
    id: u32,
    lacing: &mut Vec<u8>,
    page: &mut Vec<u8>,
    source: &Source,
) -> Result<(), DeskFault>
    requires id { id < (D.sees desk.old).made }
    requires short { IsCopyable source.now }
    ensures added { OnOk result (Adds (D.sees desk.old) (D.sees desk.new) id (written_pages (header_pages (stream_of (packets_view source.now))))) }
    ensures part { OnErr result ((came : List ℕ) × Adds (D.sees desk.old) (D.sees desk.new) id came) }
    ensures cause { HasCause (D.sees desk.old).write_faults (D.sees desk.new).write_faults result }
{
    let first = PageHead {
        flags: 2,
        granule: 0,
        serial: SERIAL,
        number: 0,
    };
    match add_packet(desk, id, lacing, page, &first, source.ident) {
        Ok(()) => (),
        Err(fault) => return Err(fault),
    }
    let second = PageHead {
        flags: 0,
        granule: 0,
        serial: SERIAL,
        number: 1,
    };
    match add_two(
        alloc,
        desk,
        id,
        lacing,
        page,
        &second,
        source.comment,
        source.setup,
    ) {
        Ok(()) => Ok(()),
        Err(fault) => Err(fault),
    }
}

// Adds a page on which two packets stand whole.
fn add_two<D: Desk>(
    alloc: Global,
    desk: &mut D,
    id: u32,
    lacing: &mut Vec<u8>,
    page: &mut Vec<u8>,
    head: &PageHead,
    comment: &[u8],
    setup: &[u8],
) -> Result<(), DeskFault>
    requires id { id < (D.sees desk.old).made }
    requires flags { head.now.flags < 8 }
    requires short { length comment.now / 255 + length setup.now / 255 + 2 ≤ 255 }
    ensures added { OnOk result (Adds (D.sees desk.old) (D.sees desk.new) id (page_of head.now.flags head.now.granule head.now.serial head.now.number (lacing_of (length comment.now) ++ lacing_of (length setup.now)) (comment.now ++ setup.now))) }
    ensures part { OnErr result ((came : List ℕ) × Adds (D.sees desk.old) (D.sees desk.new) id came) }
    ensures cause { HasCause (D.sees desk.old).write_faults (D.sees desk.new).write_faults result }
{
    lacing.clear();
    if add_lacing(lacing, comment.len()).is_err() || add_lacing(lacing, setup.len()).is_err() {
        return Err(DeskFault::NoMem);
    }
    let mut body = Vec::new(alloc);
    if body.extend_from_slice(comment).is_err() || body.extend_from_slice(setup).is_err() {
        return Err(DeskFault::NoMem);
    }
    add_page(desk, id, page, head, lacing, &body)
}

// The granule position of a frame (Theora I, A.2.3).
fn granule(base: u64, shift: u8, key: usize, frame: usize) -> u64
    requires base { base ≤ 1 }
    requires shift { shift ≤ 31 }
    requires key { key ≤ frame }
    requires frame { frame < 2 ^ 31 }
    ensures { result ≡ granule_of base shift key frame }
{
    (base + key as u64) * (1 << shift) + (frame - key) as u64
}

// The last key frame at a frame, where `key` is the last before it.
fn key_at(packet: &[u8], frame: usize, key: usize) -> usize
    requires { key ≤ frame }
    ensures key { result ≡ (if is_key packet.now then frame else key) }
    ensures bound { result ≤ frame }
{
    if is_key(packet) { frame } else { key }
}

// What stands at the head of the page of a frame.
fn frame_head(base: u64, shift: u8, key: usize, frame: usize, last: bool) -> PageHead
    requires base { base ≤ 1 }
    requires shift { shift ≤ 31 }
    requires key { key ≤ frame }
    requires frame { frame < 2 ^ 31 }
    ensures flags { result.flags ≡ (if last then 4 else 0) }
    ensures granule { result.granule ≡ granule_of base shift key frame }
    ensures serial { result.serial ≡ 1 }
    ensures number { result.number ≡ 2 + frame }
{
    PageHead {
        flags: if last { 4 } else { 0 },
        granule: granule(base, shift, key, frame),
        serial: SERIAL,
        number: 2 + frame as u32,
    }
}

// The pages of frames.
fn add_frames<D: Desk>(
    desk: &mut D,
    id: u32,
    lacing: &mut Vec<u8>,
    page: &mut Vec<u8>,
    source: &Source,
    frames: &[&[u8]],
) -> Result<(), DeskFault>
    requires id { id < (D.sees desk.old).made }
    requires long { 42 ≤ length source.now.ident.now }
    requires short { All IsShort (map (λ p. p.now) frames.now) }
    requires few { length frames.now < 2 ^ 31 }
    ensures added { OnOk result (Adds (D.sees desk.old) (D.sees desk.new) id (written_pages (frame_pages (stream_of (packets_view source.now)) 2 0 0 (map (λ p. p.now) frames.now)))) }
    ensures part { OnErr result ((came : List ℕ) × Adds (D.sees desk.old) (D.sees desk.new) id came) }
    ensures cause { HasCause (D.sees desk.old).write_faults (D.sees desk.new).write_faults result }
{
    let base = base_of(source.ident);
    let shift = shift_of(source.ident);
    let mut key = 0usize;
    for (f, frame) in frames.iter().enumerate() {
        key = key_at(frame, f, key);
        let head = frame_head(base, shift, key, f, f + 1 == frames.len());
        match add_packet(desk, id, lacing, page, &head, frame) {
            Ok(()) => (),
            Err(fault) => return Err(fault),
        }
    }
    Ok(())
}

/// Creates the output and writes the frames of a slice behind the headers of their source.
pub(crate) fn copy<D: Desk>(
    alloc: Global,
    desk: &mut D,
    out: &str,
    source: &Source,
    slice: Slice,
) -> Result<(), DeskFault>
    requires short { IsCopyable source.now }
    requires some { slice.first < slice.past }
    requires range { slice.past ≤ length source.now.frames.items }
    requires few { slice.past < 2 ^ 31 }
    ensures written { OnOk result (Makes (D.sees desk.old) (D.sees desk.new) out.now (cut_bytes (slice_view slice) (packets_view source.now))) }
    ensures made { OnErr result (MakesAtMost (D.sees desk.old) (D.sees desk.new) out.now) }
    ensures kept { Makings (D.sees desk.old) (D.sees desk.new) }
    ensures cause { HasCause (D.sees desk.old).write_faults (D.sees desk.new).write_faults result }
{
    let id = match desk.create(out) {
        Ok(id) => id,
        Err(fault) => return Err(fault),
    };
    let mut lacing = Vec::new(alloc);
    let mut page = Vec::new(alloc);
    match add_headers(alloc, desk, id, &mut lacing, &mut page, source) {
        Ok(()) => (),
        Err(fault) => return Err(fault),
    }
    let frames = &source.frames[slice.first as usize..slice.past as usize];
    match add_frames(desk, id, &mut lacing, &mut page, source, frames) {
        Ok(()) => Ok(()),
        Err(fault) => Err(fault),
    }
}
