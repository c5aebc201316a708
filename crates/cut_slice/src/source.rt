// A plain source: one Theora stream and nothing else, in pages on which each packet is whole (own).
ghost use Rattle.std.specs.Prelude.{◌≡◌, ◌<◌, ◌≤◌, ◌+◌, ◌++◌, ℕ, List, length, map, Some, None, IfOk, IfSome, OnOk, OnErr, IsErrOf, IsTrue, ◌↔◌, false, All};
ghost use Rattle.ogg_page.specs.Page.{view, HasShape, ArePages, Page};
ghost use Rattle.cut_slice.specs.Plain.{ends_whole, has_flags, in_place, in_order, page_packets, all_packets, plain_of, shift_of, base_of, spaced, well_keyed, with_headers, IsPlain, NotPlain};
ghost use Rattle.cut_slice.specs.Sources.{packets_view, with_frames, IsCopyable, HaveShortHeaders};
ghost use Rattle.cut_slice.specs.Copy.{IsShort, lacing_count};
ghost use Rattle.std.specs.Option.{option_map};
ghost use Rattle.ogg_link.specs.Track.{is_key};

use ogg_page::{PageRef, read_page};
use std::alloc::{AllocError, AllocFailed, Global};
use vid_base::BitReader;

/// The packets of a plain source, where they lie in its bytes.
#[derive(Drop)]
pub(crate) struct Source<'a> {
    pub(crate) ident: &'a [u8],
    pub(crate) comment: &'a [u8],
    pub(crate) setup: &'a [u8],
    pub(crate) frames: Vec<&'a [u8]>,
}

/// Why bytes gave no plain source.
#[derive(Clone, Copy, Debug, PartialEq, Eq)]
pub(crate) enum SourceRefusal {
    NotPlain,
    NoMem,
}

impl From<AllocError> for SourceRefusal {
    ghost use Rattle.cut_slice.specs.declared.source.SourceRefusal.TheVariants.{NoMem};

    ghost from_gives = { λ _ refusal. refusal ≡ NoMem };

    fn from(_: AllocError) -> Self {
        SourceRefusal::NoMem
    }
}

impl<T: Drop> From<AllocFailed<T>> for SourceRefusal {
    ghost use Rattle.cut_slice.specs.declared.source.SourceRefusal.TheVariants.{NoMem};

    ghost from_gives = { λ _ refusal. refusal ≡ NoMem };

    fn from(_: AllocFailed<T>) -> Self {
        SourceRefusal::NoMem
    }
}

// All pages of the bytes.
fn all_pages(alloc: Global, bytes: &[u8]) -> Result<Vec<PageRef<'_>>, SourceRefusal>
    ensures pages { IfOk result (λ pages. ArePages bytes.now (map view pages.items)) }
    ensures only { IfOk result (λ pages. (all : List Page) → ArePages bytes.now all → all ≡ map view pages.items) }
    ensures shapes { IfOk result (λ pages. All (λ page. HasShape page.lacing.now page.body.now) pages.items) }
    ensures not_plain { IsErrOf result SourceRefusal.NotPlain → (pages : List Page) → ArePages bytes.now pages → ⊥ }
{
    let mut pages = Vec::new(alloc);
    let mut at = 0usize;
    while at < bytes.len() {
        let page = match read_page(bytes, at) {
            Ok(page) => page,
            Err(_) => return Err(SourceRefusal::NotPlain),
        };
        at += page.size();
        pages.push(page)?;
    }
    Ok(pages)
}

// Whether the last lacing byte ends a packet.
fn ends_whole(lacing: &[u8]) -> bool
    ensures { result ≡ ends_whole lacing.now }
{
    !lacing.is_empty() && lacing[lacing.len() - 1] < 255
}

// Whether a page has the flags of its place.
fn has_flags(n: usize, last: bool, flags: u8) -> bool
    ensures { result ≡ has_flags n last flags }
{
    if n == 0 {
        flags == 2
    } else {
        flags == 0 || last && flags == 4
    }
}

// Whether a page stands in its place.
fn in_place(serial: u32, n: usize, last: bool, page: &PageRef) -> bool
    ensures { result ≡ in_place serial n last (view page.now) }
{
    page.serial == serial
        && page.number as usize == n
        && has_flags(n, last, page.flags)
        && ends_whole(page.lacing)
}

// Whether all pages are of one stream and stand in their places.
#[tactic(auto, unfolding(crate::specs::Plain::in_order))]
fn in_order(serial: u32, pages: &[PageRef]) -> bool
    ensures { result ≡ in_order serial 0 (map view pages.now) }
{
    for (n, page) in pages.iter().enumerate() {
        if !in_place(serial, n, n + 1 == pages.len(), page) {
            return false;
        }
    }
    true
}

// Whether a segment of that size ends its packet; one that does not is full.
fn ends_packet(size: u8) -> bool
    ensures ends { IsTrue result ↔ (size < 255) }
    ensures full { result ≡ false → size ≡ 255 }
{
    size < 255
}

// Adds the packets of a page.
fn add_packets<'a>(page: &PageRef<'a>, into: &mut Vec<&'a [u8]>) -> Result<(), SourceRefusal>
    requires { HasShape page.now.lacing.now page.now.body.now }
    ensures added { OnOk result (map (λ p. p.now) into.new.items ≡ map (λ p. p.now) into.old.items ++ page_packets (view page.now)) }
    ensures short { OnOk result (All IsShort (map (λ p. p.now) into.old.items) → All IsShort (map (λ p. p.now) into.new.items)) }
    ensures counted { OnOk result (lacing_count (map (λ p. p.now) into.new.items) ≤ lacing_count (map (λ p. p.now) into.old.items) + 255) }
    ensures memory { OnErr result (IsErrOf result SourceRefusal.NoMem) }
{
    let lacing = page.lacing;
    let body = page.body;
    let mut first = 0usize;
    let mut at = 0usize;
    for size in lacing {
        at += usize::from(*size);
        if ends_packet(*size) {
            into.push(&body[first..at])?;
            first = at;
        }
    }
    Ok(())
}

// The packets of all these pages.
#[tactic(auto, unfolding(crate::specs::Plain::all_packets))]
fn packets_of<'a>(alloc: Global, pages: &[PageRef<'a>]) -> Result<Vec<&'a [u8]>, SourceRefusal>
    requires { All (λ page. HasShape page.lacing.now page.body.now) pages.now }
    ensures packets { IfOk result (λ v. map (λ p. p.now) v.items ≡ all_packets (map view pages.now)) }
    ensures short { IfOk result (λ v. All IsShort (map (λ p. p.now) v.items)) }
    ensures memory { OnErr result (IsErrOf result SourceRefusal.NoMem) }
{
    let mut packets = Vec::new(alloc);
    for page in pages {
        add_packets(page, &mut packets)?;
    }
    Ok(packets)
}

// How far the key frame numbers of granule positions are shifted.
pub(crate) fn shift_of(ident: &[u8]) -> u8
    requires { 42 ≤ length ident.now }
    ensures shift { result ≡ shift_of ident.now }
    ensures bound { result ≤ 31 }
{
    let mut reader = BitReader::new(&ident[40..]);
    let Ok(_) = reader.take(6) else {
        unreachable!()
    };
    let Ok(shift) = reader.take(5) else {
        unreachable!()
    };
    shift as u8
}

// What the first frame counts in granule positions.
pub(crate) fn base_of(ident: &[u8]) -> u64
    requires { 42 ≤ length ident.now }
    ensures value { result ≡ base_of ident.now }
    ensures bound { result ≤ 1 }
{
    if ident[9] == 0 { 0 } else { 1 }
}

// Whether a packet holds a key frame.
pub(crate) fn is_key(packet: &[u8]) -> bool
    ensures { result ≡ is_key packet.now }
{
    match packet.first() {
        Some(byte) => *byte < 64,
        None => false,
    }
}

// Whether each frame is near enough to the last key frame, and the first is one.
#[tactic(auto, unfolding(crate::specs::Plain::spaced))]
fn well_keyed(shift: u8, frames: &[&[u8]]) -> bool
    requires { shift ≤ 31 }
    ensures { result ≡ well_keyed shift (map (λ p. p.now) frames.now) }
{
    let mut key = 0usize;
    for (f, frame) in frames.iter().enumerate() {
        if is_key(frame) {
            key = f;
        } else if f == 0 {
            return false;
        }
        if f - key >= 1 << shift {
            return false;
        }
    }
    true
}

/// With these bytes an identification header begins (Theora I, 6.1).
const IDENT: [u8; 7] = *b"\x80theora";

/// The fewest bytes of an identification header (Theora I, 6.2).
const IDENT_SIZE: usize = 42;

/// The header packets.
#[derive(Clone, Copy)]
struct Headers<'a> {
    ident: &'a [u8],
    comment: &'a [u8],
    setup: &'a [u8],
}

// The header packets, where the first page holds one and the second two.
fn headers_of<'a>(first: &[&'a [u8]], second: &[&'a [u8]]) -> Option<Headers<'a>>
    ensures headers { (frames : List (List ℕ)) → with_headers (map (λ p. p.now) first.now) (map (λ p. p.now) second.now) frames ≡ option_map (with_frames frames) result }
    ensures long { IfSome result (λ headers. 42 ≤ length headers.ident.now) }
    ensures short { All IsShort (map (λ p. p.now) first.now) → lacing_count (map (λ p. p.now) second.now) ≤ 255 → IfSome result HaveShortHeaders }
{
    let [ident] = first else {
        return None;
    };
    let [comment, setup] = second else {
        return None;
    };
    if ident.len() < IDENT_SIZE || ident[..7] != IDENT[..7] {
        return None;
    }
    Some(Headers {
        ident,
        comment,
        setup,
    })
}

// The packets of a stream with these pages.
#[tactic(auto, unfolding(crate::specs::Plain::plain_of))]
fn source_of<'a>(alloc: Global, pages: &[PageRef<'a>]) -> Result<Source<'a>, SourceRefusal>
    requires { All (λ page. HasShape page.lacing.now page.body.now) pages.now }
    ensures plain { IfOk result (λ source. plain_of (map view pages.now) ≡ Some (packets_view source)) }
    ensures not_plain { IsErrOf result SourceRefusal.NotPlain → plain_of (map view pages.now) ≡ None }
    ensures short { IfOk result IsCopyable }
{
    let [first, second, others @ ..] = pages else {
        return Err(SourceRefusal::NotPlain);
    };
    if !in_order(first.serial, pages) {
        return Err(SourceRefusal::NotPlain);
    }
    let mut first_packets = Vec::new(alloc);
    add_packets(first, &mut first_packets)?;
    let mut second_packets = Vec::new(alloc);
    add_packets(second, &mut second_packets)?;
    let Some(headers) = headers_of(&first_packets, &second_packets) else {
        return Err(SourceRefusal::NotPlain);
    };
    let frames = packets_of(alloc, others)?;
    if !well_keyed(shift_of(headers.ident), &frames) {
        return Err(SourceRefusal::NotPlain);
    }
    Ok(Source {
        ident: headers.ident,
        comment: headers.comment,
        setup: headers.setup,
        frames,
    })
}

/// The packets of a plain source.
pub(crate) fn read_source(alloc: Global, bytes: &[u8]) -> Result<Source<'_>, SourceRefusal>
    requires { length bytes.now ≤ 268435456 }
    ensures plain { IfOk result (λ source. IsPlain bytes.now (packets_view source)) }
    ensures not_plain { IsErrOf result SourceRefusal.NotPlain → NotPlain bytes.now }
    ensures short { IfOk result IsCopyable }
{
    let pages = all_pages(alloc, bytes)?;
    source_of(alloc, &pages)
}
