// A judged source.
ghost use Rattle.std.specs.Prelude.{◌≡◌, ℕ, List, [], ◌∷◌, ◌^◌, ◌<◌, ◌≤◌, Ok, IfOk, IsOk, IsErrOf, length, map, vec_len};
ghost use Rattle.vid_desk.specs.Meaning.{Rose, Told, with_reads};
ghost use Rattle.thr_ident.specs.Ident.{ident_of, header_of};
ghost use Rattle.thr_setup.specs.Setup.{setup_of, contents};
ghost use Rattle.src_index.specs.Index.{Index, frame_count, key_at, quantiser_at, link_count, HasSpacing};
ghost use Rattle.src_index.specs.Said.{shift_of};
ghost use Rattle.ogg_link.specs.Spacing.{AreSpaced};
ghost use Rattle.src_index.specs.Headers.{said_of};
ghost use Rattle.src_index.specs.Holding.{kept_of};
ghost use Rattle.src_index.specs.Judging.{GoesOn, Follows};
ghost use Rattle.src_index.specs.Loading.{Answers, IsLoadedFrom, longest};
ghost use Rattle.src_index.specs.Finding.{Finds};

use crate::SourceFault;
use crate::fault::{Fault, Refusal};
use crate::headers::AllHeaders;
use crate::heading::all_of;
use crate::judge::Judging;
use crate::load::judge_pages;
use crate::packets::{Frame, Packets};
use crate::pages::Pages;
use ogg_link::LinkFault;
use std::alloc::Global;
use std::marker::Model;
use thr_ident::Ident;
use thr_setup::Setup;
use vid_desk::Desk;

/// The most bytes of a file (own).
const LONGEST: u64 = 1 << 40;

/// A judged source: the track of an Ogg file in which no check failed, as an index of the file.
#[derive(Drop)]
pub struct Source {
    pub(crate) input: u32,
    headers: AllHeaders,
    pub(crate) pages: Pages,
    pub(crate) frames: Vec<Frame>,
    seekable: bool,
    ghost few: { vec_len frames ≤ 2 ^ 24 },
}

impl Model for Source {
    ghost use Rattle.std.specs.Prelude.{map};
    ghost use Rattle.ogg_link.specs.Spacing.{AreSpaced};
    ghost use Rattle.src_index.specs.Index.{Index};
    ghost use Rattle.src_index.specs.Pages.{marks_of};
    ghost use Rattle.src_index.specs.Holding.{frame_of};

    ghost Value = { Index };

    ghost view = { λ source. record {
      input = source.input;
      ident = source.headers.ident.packet.items;
      comment = source.headers.comment.items;
      setup = source.headers.setup.packet.items;
      pages = marks_of source.pages;
      frames = map frame_of source.frames.items;
      seekable = source.seekable;
    } };

    ghost invariant = { λ source. AreSpaced source.headers.ident.header.shift (map (λ frame. frame.key) (map frame_of source.frames.items)) };
}

/// The bytes of the three header packets of a link.
#[derive(Clone, Copy)]
pub struct Headers<'a> {
    pub ident: &'a [u8],
    pub comment: &'a [u8],
    pub setup: &'a [u8],
}

// The source of what judging has kept of a file of so many bytes.
fn source_of(input: u32, packets: Packets, seekable: bool, size: u64) -> Result<Source, Refusal>
    requires three { 3 ≤ length (kept_of packets).headers }
    requires spaced { AreSpaced (shift_of (said_of packets.headers)) (map (λ frame. frame.key) (kept_of packets).frames) }
    ensures whole { IsOk result }
    ensures headers { IfOk result (λ source. (kept_of packets).headers ≡ source.ident ∷ source.comment ∷ source.setup ∷ []) }
    ensures kept { IfOk result (λ source. (source.input ≡ input) × (source.pages ≡ (kept_of packets).marks) × (source.frames ≡ (kept_of packets).frames) × (source.seekable ≡ seekable)) }
{
    let Some(headers) = all_of(packets.headers) else {
        return Err(Refusal::Bad(Fault::InLink {
            at: size,
            fault: LinkFault::UnfinishedPacket,
        }));
    };
    Ok(Source {
        input,
        headers,
        pages: packets.pages,
        frames: packets.frames,
        seekable,
    })
}

// Judges the end of a file of so many bytes, behind all its pages.
fn finish(input: u32, judging: Judging, size: u64) -> Result<Source, Refusal>
    requires { GoesOn judging }
    ensures finds { (bytes : List ℕ) → size ≡ length bytes → Follows bytes judging size → Finds result bytes }
    ensures input { IfOk result (λ source. source.input ≡ input) }
    ensures read { ¬ IsErrOf result Refusal.ReadFault }
{
    let seekable = !judging.has_false;
    match judging.end(size) {
        Ok(packets) => source_of(input, packets, seekable, size),
        Err(refusal) => Err(refusal),
    }
}

// Judges a file of so many bytes.
fn judge<D: Desk>(alloc: Global, desk: &mut D, id: u32, size: u64) -> Result<Source, Refusal>
    requires id { id < (D.sees desk.old).found }
    requires size { Told (D.sees desk.old) id (λ bytes. size ≡ length bytes) }
    ensures judged { Told (D.sees desk.old) id (Finds result) }
    ensures input { IfOk result (λ source. source.input ≡ id) }
    ensures kept { with_reads (D.sees desk.old) (D.sees desk.new) }
    ensures count { (D.sees desk.old).read_faults ≤ (D.sees desk.new).read_faults }
    ensures cause { IsErrOf result Refusal.ReadFault → Rose (D.sees desk.old).read_faults (D.sees desk.new).read_faults }
{
    let mut judging = Judging::new(alloc);
    judge_pages(alloc, desk, id, size, &mut judging)?;
    finish(id, judging, size)
}

impl Source {
    /// Judges a whole file: its pages from byte 0 on, each with its own faults, its place in the link, the packets of the
    /// track that end on it, and its granule position; and then the end. The first check that fails is the answer, and a
    /// packet's limit comes before its other faults. A frame packet is read as the decoder reads it, and no picture is made.
    /// A file of more than 2^40 bytes is `TooLong`, before any of it is read. The file is read once, in pieces of at most
    /// 65,307 bytes, and none of them is kept. `Changed` is never answered.
    pub fn load<D: Desk>(alloc: Global, desk: &mut D, id: u32) -> Result<Source, SourceFault>
        requires id { id < (D.sees desk.old).found }
        ensures judged { Told (D.sees desk.old) id (λ bytes. Answers longest result bytes) }
        ensures loaded { IfOk result (λ source. IsLoadedFrom (D.sees desk.old) id source) }
        // Over every desk, the first frame is a key frame, and each frame is near behind its key frame.
        ensures spaced { IfOk result HasSpacing }
        ensures kept { with_reads (D.sees desk.old) (D.sees desk.new) }
        ensures count { (D.sees desk.old).read_faults ≤ (D.sees desk.new).read_faults }
        ensures cause { IsErrOf result SourceFault.ReadFault → Rose (D.sees desk.old).read_faults (D.sees desk.new).read_faults }
        ensures never { ¬ IsErrOf result SourceFault.Changed }
    {
        let Ok(size) = desk.size(id) else {
            return Err(SourceFault::ReadFault);
        };
        if size > LONGEST {
            return Err(SourceFault::TooLong { bytes: size });
        }
        match judge(alloc, desk, id, size) {
            Ok(source) => Ok(source),
            Err(refusal) => Err(SourceFault::from(refusal)),
        }
    }

    /// How many frames the track has, over all links: at most 2^24.
    pub fn frames(&self) -> u32
        ensures value { result ≡ frame_count self.now }
        ensures most { result ≤ 2 ^ 24 }
        ensures spaced { HasSpacing self.now }
    {
        self.frames.len() as u32
    }

    /// Whether frame n is a key frame: its packet has a byte, of which the first two bits are 0.
    pub fn is_key(&self, n: u32) -> bool
        requires { n < frame_count self.now }
        ensures { result ≡ key_at self.now n }
    {
        self.frames[n as usize].key
    }

    /// The first quantiser index of the latest packet with bytes at or before frame n (Theora I, 7.1).
    pub fn quantiser(&self, n: u32) -> u8
        requires { n < frame_count self.now }
        ensures value { result ≡ quantiser_at self.now n }
        ensures small { result < 64 }
    {
        self.frames[n as usize].quantiser
    }

    /// Whether no whole page with a right checksum stands at a place where no page of the file begins.
    pub fn seekable(&self) -> bool
        ensures { result ≡ self.now.seekable }
    {
        self.seekable
    }

    /// The link that frame n stands in.
    pub fn link_of(&self, n: u32) -> u32
        requires { n < frame_count self.now }
        ensures { result ≡ 1 }
    {
        1
    }

    /// How many links there are. They count from 1.
    pub fn links(&self) -> u32
        ensures { result ≡ link_count self.now }
    {
        1
    }

    /// What the identification header of a link says.
    pub fn ident(&self, link: u32) -> &Ident
        requires { (1 ≤ link) × (link ≤ link_count self.now) }
        ensures { ident_of self.now.ident ≡ Ok (header_of result.now) }
    {
        &self.headers.ident.header
    }

    /// What the setup header of a link says.
    pub fn setup(&self, link: u32) -> &Setup
        requires { (1 ≤ link) × (link ≤ link_count self.now) }
        ensures { setup_of self.now.setup ≡ Ok (contents result.now) }
    {
        &self.headers.setup.header
    }

    /// The header packets of a link, as they stand in the file.
    pub fn headers(&self, link: u32) -> Headers<'_>
        requires { (1 ≤ link) × (link ≤ link_count self.now) }
        ensures ident { result.ident.now ≡ self.now.ident }
        ensures comment { result.comment.now ≡ self.now.comment }
        ensures setup { result.setup.now ≡ self.now.setup }
    {
        Headers {
            ident: &self.headers.ident.packet,
            comment: &self.headers.comment,
            setup: &self.headers.setup.packet,
        }
    }
}
