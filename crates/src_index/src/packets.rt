// The packets of a track, joined from the segments of its pages (RFC 3533, 6), and what is kept of them (own).
ghost use Rattle.std.specs.Prelude.{◌≡◌, ◌≢◌, ℕ, List, ◌<◌, ◌≤◌, ◌+◌, ◌^◌, ◌++◌, ◌∷◌, [], true, false, Ok, IfOk, IfErr, OnOk, OnErr, IsErrOf, length, sum, vec_len};
ghost use Rattle.ogg_page.specs.Page.{HasShape};
ghost use Rattle.ogg_page.specs.Packets.{Piece, segments, packets_from, left_from};
ghost use Rattle.ogg_link.specs.Track.{is_key};
ghost use Rattle.ogg_link.specs.Parts.{lacing_if};
ghost use Rattle.ogg_link.specs.Progress.{after_piece, after_pieces, Holds};
ghost use Rattle.src_index.specs.Headers.{packets_in, said_of};
ghost use Rattle.src_index.specs.Checks.{packet_step, packets_over, page_over, fault_at, said_step, frame_step};
ghost use Rattle.src_index.specs.Refusing.{RefusesAs, RefusesPacket};

use crate::fault::{Fault, Refusal};
use crate::frames::{MOST_BYTES, MOST_PACKETS, quantiser_behind};
use crate::headers::{Headers, Heads, Whole};
use crate::heading::with_header;
use crate::pages::Pages;
use ogg_link::{Counted, Progress};
use ogg_page::PageRef;
use std::alloc::Global;
use vid_base::PacketFault;

/// Where a packet begins: with a segment of a page of the track. Both count from 0.
#[derive(Clone, Copy)]
pub(crate) struct Place {
    pub(crate) page: usize,
    pub(crate) segment: u8,
}

/// What is kept of a frame: 16 bytes.
#[derive(Clone, Copy)]
pub(crate) struct Frame {
    pub(crate) page: usize,
    pub(crate) segment: u8,
    pub(crate) key: bool,
    pub(crate) quantiser: u8,
    ghost small: { quantiser < 64 },
}

/// The packets of a track so far. How many they are, and which is the last key frame, the walk knows.
#[derive(Drop)]
pub(crate) struct Packets {
    alloc: Global,
    /// The bytes of the packet that has not ended.
    pub(crate) begun: Vec<u8>,
    /// Where it begins.
    pub(crate) place: Place,
    pub(crate) headers: Headers,
    pub(crate) pages: Pages,
    pub(crate) frames: Vec<Frame>,
    /// That of the last frame.
    pub(crate) quantiser: u8,
    ghost few: { vec_len frames ≤ 2 ^ 24 },
    ghost quantisers: { quantiser < 64 },
}

// A fault of the packet with a number, which shows on the page at a byte.
fn fault_of(at: u64, number: u64, fault: PacketFault) -> Fault
    requires { number < 2 ^ 32 }
    ensures { result ≡ fault_at at number fault }
{
    Fault::InPacket {
        link: 1,
        packet: number as u32,
        at,
        fault,
    }
}

impl Packets {
    ghost use Rattle.vid_base.specs.Reading.{Refuses};
    ghost use Rattle.ogg_link.specs.declared.state.Counted.{Counted as CountedPacket};
    ghost use Rattle.src_index.specs.Said.{Start};
    ghost use Rattle.src_index.specs.Headers.{packets_before, said_before};
    ghost use Rattle.src_index.specs.Holding.{kept_of, place_of, AreTallied};
    ghost use Rattle.src_index.specs.Kept.{with_end, with_frame as ends_frame, with_piece, with_pieces, with_page, page_kept};

    // Before the first packet.
    pub(crate) fn new(alloc: Global) -> Packets
        ensures said { said_of result.headers ≡ Start }
        ensures begun { result.begun.items ≡ [] }
        ensures headers { (kept_of result).headers ≡ [] }
        ensures marks { (kept_of result).marks ≡ [] }
        ensures frames { (kept_of result).frames ≡ [] }
        ensures quantiser { result.quantiser ≡ 0 }
        ensures place { place_of result.place ≡ record { page = 0; segment = 0 } }
    {
        Packets {
            alloc,
            begun: Vec::new(alloc),
            place: Place {
                page: 0,
                segment: 0,
            },
            headers: Headers::Begun(Heads::Nothing),
            pages: Pages::new(alloc),
            frames: Vec::new(alloc),
            quantiser: 0,
        }
    }

    // The header that was begun has ended, behind these.
    fn end_header(&mut self, heads: Heads) -> Result<(), vid_base::Refusal>
        ensures said { OnOk result ((counted : CountedPacket) → said_step (said_before heads) counted self.old.begun.items ≡ Ok (said_of self.new.headers)) }
        ensures kept { OnOk result (kept_of self.new ≡ record (kept_of self.old) { headers = packets_before heads ++ self.old.begun.items ∷ []; begun = [] }) }
        ensures fault { IfErr result (λ refusal. (counted : CountedPacket) → Refuses refusal (said_step (said_before heads) counted self.old.begun.items)) }
    {
        let packet = std::mem::replace(&mut self.begun, Vec::new(self.alloc));
        self.headers = with_header(self.alloc, heads, packet)?;
        Ok(())
    }

    // The frame that was begun has ended, behind all headers. Its buffer serves the next.
    fn end_frame(&mut self, counted: Counted, whole: Whole) -> Result<(), vid_base::Refusal>
        requires key { counted.key ≡ is_key self.old.begun.items }
        requires few { vec_len self.old.frames < 2 ^ 24 }
        ensures said { OnOk result (said_step (said_of (Headers.All whole)) counted self.old.begun.items ≡ Ok (said_of self.new.headers)) }
        ensures kept { OnOk result (kept_of self.new ≡ ends_frame (record (kept_of self.old) { headers = packets_in (Headers.All whole) })) }
        ensures fault { IfErr result (λ refusal. Refuses refusal (said_step (said_of (Headers.All whole)) counted self.old.begun.items)) }
    {
        let mut whole = whole;
        whole.check(counted, &self.begun)?;
        let quantiser = quantiser_behind(self.quantiser, &self.begun);
        self.frames.push(Frame {
            page: self.place.page,
            segment: self.place.segment,
            key: counted.key,
            quantiser,
        })?;
        self.quantiser = quantiser;
        self.headers = Headers::All(whole);
        self.begun.clear();
        Ok(())
    }

    // The packet that was begun has ended, as a walk's book counts it.
    #[tactic(auto, unfolding(crate::specs::Checks::packet_step))]
    fn end(&mut self, at: u64, counted: Counted) -> Result<(), Refusal>
        requires key { counted.key ≡ is_key self.old.begun.items }
        requires number { counted.number ≡ length (packets_in self.old.headers) + vec_len self.old.frames }
        requires headers_first { 0 < vec_len self.old.frames → length (packets_in self.old.headers) ≡ 3 }
        ensures said { OnOk result (packet_step (said_of self.old.headers) counted self.old.begun.items ≡ Ok (said_of self.new.headers)) }
        ensures kept { OnOk result (kept_of self.new ≡ with_end (kept_of self.old)) }
        ensures fault { IfErr result (λ refusal. RefusesPacket at counted.number refusal (packet_step (said_of self.old.headers) counted self.old.begun.items)) }
    {
        if self.begun.len() > MOST_BYTES || counted.number >= MOST_PACKETS {
            return Err(Refusal::Bad(fault_of(at, counted.number, PacketFault::TooLarge)));
        }
        let headers = std::mem::replace(&mut self.headers, Headers::Begun(Heads::Nothing));
        let ended = match headers {
            Headers::Begun(heads) => self.end_header(heads),
            Headers::All(whole) => self.end_frame(counted, whole),
        };
        match ended {
            Ok(()) => Ok(()),
            Err(vid_base::Refusal::Bad(fault)) => {
                Err(Refusal::Bad(fault_of(at, counted.number, fault)))
            }
            Err(vid_base::Refusal::NoMem) => Err(Refusal::NoMem),
        }
    }

    // A segment more, by a walk's book before it; behind it a packet would begin at the place `next`.
    fn add_segment(
        &mut self,
        at: u64,
        book: Progress,
        next: Place,
        bytes: &[u8],
        ends: bool,
    ) -> Result<Progress, Refusal>
        requires holds { Holds book self.old.begun.items }
        requires tallied { AreTallied book self.old }
        requires some { ends ≡ false → 0 < length bytes.now }
        ensures book { IfOk result (λ behind. behind ≡ after_piece book (record { bytes = bytes.now; ends = ends })) }
        ensures holds { IfOk result (λ behind. Holds behind self.new.begun.items) }
        ensures tallied { IfOk result (λ behind. AreTallied behind self.new) }
        ensures said { IfOk result (λ behind. (more : List Piece) → packets_over at behind.packets behind.last_key (said_of self.new.headers) (packets_from self.new.begun.items more)
            ≡ packets_over at book.packets book.last_key (said_of self.old.headers) (packets_from self.old.begun.items (record { bytes = bytes.now; ends = ends } ∷ more))) }
        ensures kept { OnOk result (kept_of self.new ≡ with_piece (place_of next) (record { bytes = bytes.now; ends = ends }) (kept_of self.old)) }
        ensures begun { OnOk result (self.new.begun.items ≡ left_from self.old.begun.items (record { bytes = bytes.now; ends = ends } ∷ [])) }
        ensures fault { IfErr result (λ refusal. (more : List Piece) → RefusesAs refusal (packets_over at book.packets book.last_key (said_of self.old.headers) (packets_from self.old.begun.items (record { bytes = bytes.now; ends = ends } ∷ more)))) }
    {
        self.begun.extend_from_slice(bytes)?;
        let (behind, counted) = book.with_piece(bytes, ends);
        if let Some(counted) = counted {
            match self.end(at, counted) {
                Ok(()) => self.place = next,
                Err(refusal) => return Err(refusal),
            }
        }
        Ok(behind)
    }

    // The segments of a page's body, which is the page of the track with this number.
    #[tactic(auto, unfolding(crate::specs::Checks::packets_over, crate::specs::Kept::with_pieces, ogg_page::specs::Packets::packets_from, ogg_page::specs::Packets::left_from, ogg_page::specs::Packets::segments, ogg_link::specs::Progress::after_pieces))]
    fn add_segments(
        &mut self,
        at: u64,
        book: Progress,
        page: usize,
        lacing: &[u8],
        body: &[u8],
    ) -> Result<Progress, Refusal>
        requires holds { Holds book self.old.begun.items }
        requires tallied { AreTallied book self.old }
        requires shape { HasShape lacing.now body.now }
        ensures book { IfOk result (λ behind. behind ≡ after_pieces book (segments lacing.now body.now)) }
        ensures holds { IfOk result (λ behind. Holds behind self.new.begun.items) }
        ensures tallied { IfOk result (λ behind. AreTallied behind self.new) }
        ensures said { OnOk result (packets_over at book.packets book.last_key (said_of self.old.headers) (packets_from self.old.begun.items (segments lacing.now body.now)) ≡ Ok (said_of self.new.headers)) }
        ensures kept { OnOk result (kept_of self.new ≡ with_pieces page 0 (kept_of self.old) (segments lacing.now body.now)) }
        ensures begun { OnOk result (self.new.begun.items ≡ left_from self.old.begun.items (segments lacing.now body.now)) }
        ensures fault { IfErr result (λ refusal. RefusesAs refusal (packets_over at book.packets book.last_key (said_of self.old.headers) (packets_from self.old.begun.items (segments lacing.now body.now)))) }
    {
        let mut book = book;
        let mut rest = body;
        'lacing: for (i, size) in lacing.iter().enumerate() {
            let (bytes, others) = rest.split_at(usize::from(*size));
            let next = Place {
                page,
                segment: i as u8 + 1,
            };
            book = self.add_segment(at, book, next, bytes, *size < 255)?;
            rest = others;
        }
        Ok(book)
    }

    // The unfinished packet with this number, behind a page that begins at a byte.
    fn check_begun(&self, at: u64, number: u64) -> Result<(), Refusal>
        requires few { number < 2 ^ 32 }
        ensures short { OnOk result (length self.now.begun.items ≤ 2 ^ 30) }
        ensures fault { IfErr result (λ refusal. (2 ^ 30 < length self.now.begun.items) × (refusal ≡ Refusal.Bad (fault_at at number PacketFault.TooLarge))) }
    {
        if self.begun.len() > MOST_BYTES {
            return Err(Refusal::Bad(fault_of(at, number, PacketFault::TooLarge)));
        }
        Ok(())
    }

    // A page of the track more, which begins at a byte, by a walk's book before it.
    fn add_page(
        &mut self,
        at: u64,
        book: Progress,
        checksum: u32,
        lacing: &[u8],
        body: &[u8],
    ) -> Result<(), Refusal>
        requires holds { Holds book self.old.begun.items }
        requires tallied { AreTallied book self.old }
        requires shape { HasShape lacing.now body.now }
        ensures holds { OnOk result (Holds (after_pieces book (segments lacing.now body.now)) self.new.begun.items) }
        ensures tallied { OnOk result (AreTallied (after_pieces book (segments lacing.now body.now)) self.new) }
        ensures said { OnOk result (page_over at book (said_of self.old.headers) self.old.begun.items (segments lacing.now body.now) ≡ Ok (said_of self.new.headers)) }
        ensures kept { OnOk result (kept_of self.new ≡ with_page (record { at = at; checksum = checksum; lacing = lacing.now }) (segments lacing.now body.now) (kept_of self.old)) }
        ensures begun { OnOk result (self.new.begun.items ≡ left_from self.old.begun.items (segments lacing.now body.now)) }
        ensures fault { IfErr result (λ refusal. RefusesAs refusal (page_over at book (said_of self.old.headers) self.old.begun.items (segments lacing.now body.now))) }
    {
        let page = self.pages.len();
        if self.begun.is_empty() {
            self.place = Place { page, segment: 0 };
        }
        self.pages.push(at, checksum, lacing)?;
        let behind = self.add_segments(at, book, page, lacing, body)?;
        self.check_begun(at, behind.packets)
    }

    // The next page of the file, which is of the track or of another stream, by a walk's book before it.
    #[tactic(auto, unfolding(crate::specs::Checks::packets_over, ogg_page::specs::Packets::packets_from, ogg_page::specs::Packets::left_from, ogg_page::specs::Packets::segments, ogg_link::specs::Progress::after_pieces))]
    pub(crate) fn next_page(
        &mut self,
        book: Progress,
        track: bool,
        at: u64,
        checksum: u32,
        page: &PageRef,
    ) -> Result<(), Refusal>
        requires holds { Holds book self.old.begun.items }
        requires tallied { AreTallied book self.old }
        requires shape { HasShape page.now.lacing.now page.now.body.now }
        ensures holds { OnOk result (Holds (after_pieces book (segments (lacing_if track page.now.lacing.now) page.now.body.now)) self.new.begun.items) }
        ensures tallied { OnOk result (AreTallied (after_pieces book (segments (lacing_if track page.now.lacing.now) page.now.body.now)) self.new) }
        ensures said { OnOk result (page_over at book (said_of self.old.headers) self.old.begun.items (segments (lacing_if track page.now.lacing.now) page.now.body.now) ≡ Ok (said_of self.new.headers)) }
        ensures kept { OnOk result (kept_of self.new ≡ page_kept track (record { at = at; checksum = checksum; lacing = page.now.lacing.now }) page.now.body.now (kept_of self.old)) }
        ensures begun { OnOk result (self.new.begun.items ≡ left_from self.old.begun.items (segments (lacing_if track page.now.lacing.now) page.now.body.now)) }
        ensures fault { IfErr result (λ refusal. RefusesAs refusal (page_over at book (said_of self.old.headers) self.old.begun.items (segments (lacing_if track page.now.lacing.now) page.now.body.now))) }
    {
        if track {
            self.add_page(at, book, checksum, page.lacing, page.body)
        } else {
            self.check_begun(at, book.packets)
        }
    }
}
