// The packet of a frame, read again (own).
ghost use Rattle.std.specs.Prelude.{◌≡◌, ◌≢◌, ℕ, List, [], ◌+◌, ◌*◌, ◌++◌, ◌<◌, ◌≤◌, ◌^◌, true, false, Some, Ok, IfOk, OnOk, OnErr, IsErrOf, length, All, drop, sum, vec_len, if◌then◌else◌, ◌⊎◌, IfErr, Err};
ghost use Rattle.vid_desk.specs.Meaning.{Rose, Told, ToldFiles, with_reads};
ghost use Rattle.ogg_page.specs.Packets.{Piece, segments};
ghost use Rattle.ogg_link.specs.Track.{is_key as is_key_packet};
ghost use Rattle.src_index.specs.Track.{frame_at};
ghost use Rattle.src_index.specs.Index.{frame_count, key_at};
ghost use Rattle.src_index.specs.Judge.{Judged};
ghost use Rattle.src_index.specs.Gather.{IsMarkOf, StandsAt, body_at, first_packet};
ghost use Rattle.src_index.specs.Pages.{kept_mark, marks_of};
ghost use Rattle.src_index.specs.Holding.{place_of};
ghost use Rattle.src_index.specs.Loading.{IsLoadedFrom};
ghost use Rattle.src_index.specs.Reading.{IsReading, IsGathering};
ghost use Rattle.src_index.specs.SamePage.{same_page as same_page_of};

use crate::SourceFault;
use crate::frames::MOST_BYTES;
use crate::packets::Place;
use crate::pages::{HEADER, Kept, Pages, page_size};
use crate::same::same_page;
use crate::source::Source;
use ogg_link::is_key;
use std::alloc::{AllocError, Global};
use vid_desk::Desk;

// So many zeros.
fn zeros(alloc: Global, count: usize) -> Result<Vec<u8>, AllocError>
    ensures { IfOk result (λ zeros. vec_len zeros ≡ count) }
{
    Vec::from_elem(alloc, 0u8, count)
}

// Adds bytes to a packet. A packet of more bytes than judging lets pass is another.
fn add_bytes(bytes: &[u8], into: &mut Vec<u8>) -> Result<(), SourceFault>
    ensures bytes { OnOk result (into.new.items ≡ into.old.items ++ bytes.now) }
    ensures few { OnOk result (length into.new.items ≤ 2 ^ 30) }
    ensures long { result ≡ Err SourceFault.Changed → 2 ^ 30 < length into.old.items + length bytes.now }
    ensures only { IfErr result IsGathering }
{
    if into.len() + bytes.len() > MOST_BYTES {
        return Err(SourceFault::Changed);
    }
    match into.extend_from_slice(bytes) {
        Ok(()) => Ok(()),
        Err(_) => Err(SourceFault::NoMem),
    }
}

// Adds the segments of a page from one on, up to the first that ends a packet, and tells whether one did.
fn add_segments(
    lacing: &[u8],
    body: &[u8],
    first: usize,
    into: &mut Vec<u8>,
) -> Result<bool, SourceFault>
    requires whole { sum lacing.now ≡ length body.now }
    requires few { length into.old.items ≤ 2 ^ 30 }
    ensures packet { IfOk result (λ ended. (more : List Piece) → first_packet into.old.items (drop first (segments lacing.now body.now) ++ more) ≡ (if ended then Some into.new.items else first_packet into.new.items more)) }
    ensures few { OnOk result (length into.new.items ≤ 2 ^ 30) }
    ensures long { result ≡ Err SourceFault.Changed → (more : List Piece) (packet : List ℕ) → first_packet into.old.items (drop first (segments lacing.now body.now) ++ more) ≡ Some packet → 2 ^ 30 < length packet }
    ensures only { IfErr result IsGathering }
{
    let mut rest = body;
    'lacing: for (i, size) in lacing.iter().enumerate() {
        let (bytes, others) = rest.split_at(usize::from(*size));
        rest = others;
        if i < first {
            continue;
        }
        match add_bytes(bytes, into) {
            Ok(()) => {}
            Err(fault) => return Err(fault),
        }
        if *size < 255 {
            return Ok(true);
        }
    }
    Ok(false)
}

// Reads a page again.
fn read_again<D: Desk>(
    alloc: Global,
    desk: &mut D,
    id: u32,
    kept: Kept,
) -> Result<Vec<u8>, SourceFault>
    requires id { id < (D.sees desk.old).found }
    requires few { length kept.lacing.now ≤ 255 }
    requires stands { Told (D.sees desk.old) id (λ bytes. IsMarkOf bytes (kept_mark kept)) }
    ensures same { IfOk result (λ page. same_page_of page.items kept.entry.checksum kept.entry.lacing.now ≡ true) }
    ensures bytes { IfOk result (λ page. Told (D.sees desk.old) id (λ bytes. drop (27 + length kept.entry.lacing.now) page.items ≡ body_at bytes (kept_mark kept.entry))) }
    ensures size { IfOk result (λ page. vec_len page ≡ 27 + length kept.entry.lacing.now + sum kept.entry.lacing.now) }
    ensures never { ToldFiles (D.sees desk.old) (λ files. ¬ IsErrOf result SourceFault.Changed) }
    ensures reads { with_reads (D.sees desk.old) (D.sees desk.new) }
    ensures count { (D.sees desk.old).read_faults ≤ (D.sees desk.new).read_faults }
    ensures cause { IsErrOf result SourceFault.ReadFault → Rose (D.sees desk.old).read_faults (D.sees desk.new).read_faults }
    ensures only { IfErr result IsReading }
{
    let Ok(mut page) = zeros(alloc, page_size(kept.lacing)) else {
        return Err(SourceFault::NoMem);
    };
    match desk.read_at(id, kept.at, &mut page) {
        Ok(()) => {}
        Err(_) => return Err(SourceFault::ReadFault),
    }
    if !same_page(&page, kept.checksum, kept.lacing) {
        return Err(SourceFault::Changed);
    }
    Ok(page)
}

// Gathers the packet that stands at a place.
fn gather<D: Desk>(
    pages: &Pages,
    desk: &mut D,
    id: u32,
    place: Place,
    into: &mut Vec<u8>,
) -> Result<(), SourceFault>
    requires id { id < (D.sees desk.old).found }
    requires stand { Told (D.sees desk.old) id (λ bytes. All (IsMarkOf bytes) (marks_of pages.now)) }
    requires blank { into.old.items ≡ [] }
    ensures packet { OnOk result (Told (D.sees desk.old) id (λ bytes. StandsAt bytes (marks_of pages.now) (place_of place) into.new.items)) }
    ensures few { OnOk result (length into.new.items ≤ 2 ^ 30) }
    ensures never { Told (D.sees desk.old) id (λ bytes. (packet : List ℕ) → StandsAt bytes (marks_of pages.now) (place_of place) packet → length packet ≤ 2 ^ 30 → ¬ IsErrOf result SourceFault.Changed) }
    ensures reads { with_reads (D.sees desk.old) (D.sees desk.new) }
    ensures count { (D.sees desk.old).read_faults ≤ (D.sees desk.new).read_faults }
    ensures cause { IsErrOf result SourceFault.ReadFault → Rose (D.sees desk.old).read_faults (D.sees desk.new).read_faults }
    ensures only { IfErr result IsReading }
{
    let mut number = place.page;
    let mut first = usize::from(place.segment);
    'pages: while number < pages.len() {
        let kept = pages.page(number);
        let page = match read_again(pages.alloc(), desk, id, kept) {
            Ok(page) => page,
            Err(fault) => return Err(fault),
        };
        match add_segments(
            kept.lacing,
            &page[HEADER + kept.lacing.len()..],
            first,
            into,
        ) {
            Ok(true) => return Ok(()),
            Ok(false) => {}
            Err(fault) => return Err(fault),
        }
        number += 1;
        first = first.saturating_sub(kept.lacing.len());
    }
    Err(SourceFault::Changed)
}

// Whether a packet is a key frame as its mark says.
fn has_key_mark(packet: &[u8], key: bool) -> bool
    ensures yes { result ≡ true → is_key_packet packet.now ≡ key }
    ensures no { result ≡ false → is_key_packet packet.now ≢ key }
{
    is_key(packet) == key
}

impl Source {
    // The packet that carries frame n, in a list that is empty.
    fn fill<D: Desk>(&self, desk: &mut D, n: u32, into: &mut Vec<u8>) -> Result<(), SourceFault>
        requires frame { n < frame_count self.now }
        requires id { self.now.input < (D.sees desk.old).found }
        requires made { IsLoadedFrom (D.sees desk.old) self.now.input self.now }
        requires blank { into.old.items ≡ [] }
        ensures value { OnOk result (Told (D.sees desk.old) self.now.input (λ bytes. (packets : List (List ℕ)) → Judged bytes (Ok packets) → into.new.items ≡ frame_at packets n)) }
        ensures key { OnOk result (is_key_packet into.new.items ≡ key_at self.now n) }
        ensures few { OnOk result (length into.new.items ≤ 2 ^ 30) }
        ensures never { ToldFiles (D.sees desk.old) (λ files. ¬ IsErrOf result SourceFault.Changed) }
        ensures reads { with_reads (D.sees desk.old) (D.sees desk.new) }
        ensures count { (D.sees desk.old).read_faults ≤ (D.sees desk.new).read_faults }
        ensures cause { IsErrOf result SourceFault.ReadFault → Rose (D.sees desk.old).read_faults (D.sees desk.new).read_faults }
        ensures only { IfErr result IsReading }
    {
        let frame = self.frames[n as usize];
        let place = Place {
            page: frame.page,
            segment: frame.segment,
        };
        match gather(&self.pages, desk, self.input, place, into) {
            Ok(()) => {}
            Err(fault) => return Err(fault),
        }
        if !has_key_mark(into, frame.key) {
            return Err(SourceFault::Changed);
        }
        Ok(())
    }

    /// The packet that carries frame n, read again from the pages on which it stands. `into` is emptied first, and is empty
    /// after a refusal. `Changed` says that a page read now is not the one that was loaded (`same_page`), or that the packet
    /// read is a key frame where the loaded one was none, or the other way round, as can be where a checksum agrees by
    /// chance. Over a desk that tells its inputs it never comes.
    pub fn packet<D: Desk>(
        &self,
        desk: &mut D,
        n: u32,
        into: &mut Vec<u8>,
    ) -> Result<(), SourceFault>
        requires frame { n < frame_count self.now }
        requires id { self.now.input < (D.sees desk.old).found }
        requires made { IsLoadedFrom (D.sees desk.old) self.now.input self.now }
        ensures value { OnOk result (Told (D.sees desk.old) self.now.input (λ bytes. (packets : List (List ℕ)) → Judged bytes (Ok packets) → into.new.items ≡ frame_at packets n)) }
        // Over every desk, an answer has the key mark of the index, and is short.
        ensures key { OnOk result (is_key_packet into.new.items ≡ key_at self.now n) }
        ensures few { OnOk result (length into.new.items ≤ 2 ^ 30) }
        ensures blank { OnErr result (into.new.items ≡ []) }
        ensures never { ToldFiles (D.sees desk.old) (λ files. ¬ IsErrOf result SourceFault.Changed) }
        ensures kept { with_reads (D.sees desk.old) (D.sees desk.new) }
        ensures count { (D.sees desk.old).read_faults ≤ (D.sees desk.new).read_faults }
        ensures cause { IsErrOf result SourceFault.ReadFault → Rose (D.sees desk.old).read_faults (D.sees desk.new).read_faults }
        ensures only { IfErr result IsReading }
    {
        into.clear();
        match self.fill(desk, n, into) {
            Ok(()) => Ok(()),
            Err(fault) => {
                into.clear();
                Err(fault)
            }
        }
    }
}
