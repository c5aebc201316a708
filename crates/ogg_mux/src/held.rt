// The page that was not written yet (RFC 3533, 6).
ghost use Rattle.std.specs.Prelude.{◌≡◌, ◌≤◌, ◌<◌, ◌+◌, ◌/◌, ◌^◌, ◌++◌, ℕ, false, if◌then◌else◌, OnOk, OnErr, IfOk, length, vec_len, vec_capacity};
ghost use Rattle.ogg_page.specs.Page.{bytes_of_page};
ghost use Rattle.ogg_page.specs.Written.{written_page, written_pages};
ghost use Rattle.ogg_mux.specs.Room.{spills, most_written};
ghost use Rattle.ogg_mux.specs.OutputPages.{first_page, next_page, grown, page_with, last_pages, reaches};

use ogg_page::{PageHead, write_page};
use std::alloc::Global;
use std::marker::Model;
use vid_base::NoMem;

/// The most lacing values of a page.
const MOST_LACING: usize = 255;

/// The most bytes of a segment, and of a body.
const MOST_SEGMENT: usize = 255;

const MOST_BODY: usize = MOST_LACING * MOST_SEGMENT;

/// The bytes of a page before its lacing values.
const HEADER: usize = 27;

/// The granule position of a page on which no packet ends.
const NO_GRANULE: u64 = u64::MAX;

/// A page to which segments are added. Its lists have room for as much as a page takes.
#[derive(Drop)]
pub(crate) struct Held {
    flags: u8,
    granule: u64,
    number: u32,
    lacing: Vec<u8>,
    body: Vec<u8>,
    goes_on: bool,
    closed: bool,
}

impl Model for Held {
    ghost use Rattle.std.specs.Prelude.{◌≡◌, ◌≤◌, ◌<◌, ◌*◌, false, length, sum, vec_capacity};
    ghost use Rattle.ogg_mux.specs.OutputPages.{Held as HeldPage};

    ghost Value = { HeldPage };

    ghost view = { λ h. record { flags = h.flags; granule = h.granule; number = h.number; lacing = h.lacing.items; body = h.body.items; goes_on = h.goes_on; closed = h.closed } };

    ghost invariant = { λ h. (h.flags < 4) × (length h.lacing.items ≤ 255) × (h.closed ≡ false → length h.lacing.items < 255)
        × (sum h.lacing.items ≡ length h.body.items) × (length h.body.items ≤ 255 * length h.lacing.items)
        × (255 ≤ vec_capacity h.lacing) × (65025 ≤ vec_capacity h.body) };
}

/// A body of that size is closed by a segment with that least size.
fn reaches(size: usize, least: Option<usize>) -> bool
    ensures { result ≡ reaches size least }
{
    match least {
        Some(least) => size >= least,
        None => false,
    }
}

/// More bytes, for which there is room.
fn append(out: &mut Vec<u8>, bytes: &[u8])
    requires { vec_len out.old + length bytes.now ≤ vec_capacity out.old }
    ensures items { out.new.items ≡ out.old.items ++ bytes.now }
    ensures capacity { vec_capacity out.old ≤ vec_capacity out.new }
{
    let _ = out.extend_from_slice(bytes);
}

impl Held {
    /// The first page of a stream.
    pub(crate) fn first(alloc: Global) -> Result<Held, NoMem>
        ensures { IfOk result (λ held. held ≡ first_page) }
    {
        Ok(Held {
            flags: 2,
            granule: NO_GRANULE,
            number: 0,
            lacing: Vec::with_capacity(alloc, MOST_LACING)?,
            body: Vec::with_capacity(alloc, MOST_BODY)?,
            goes_on: false,
            closed: false,
        })
    }

    pub(crate) fn is_closed(&self) -> bool
        ensures { result ≡ self.now.closed }
    {
        self.closed
    }

    /// It becomes the page that follows.
    #[tactic(auto, unfolding(crate::specs::OutputPages::next_page))]
    pub(crate) fn turn(&mut self)
        ensures { self.new ≡ next_page self.old }
    {
        self.flags = u8::from(self.goes_on);
        self.granule = NO_GRANULE;
        self.number = self.number.wrapping_add(1);
        self.lacing.clear();
        self.body.clear();
        self.goes_on = false;
        self.closed = false;
    }

    /// One more segment.
    #[tactic(auto, unfolding(crate::specs::OutputPages::grown))]
    pub(crate) fn grow(&mut self, bytes: &[u8], granule: Option<u64>, least: Option<usize>)
        requires open { self.old.closed ≡ false }
        requires bytes { length bytes.now ≤ 255 }
        ensures { self.new ≡ grown self.old (record { bytes = bytes.now; granule = granule; least = least }) }
    {
        append(&mut self.body, bytes);
        self.lacing.push_reserved(bytes.len() as u8);
        self.goes_on = granule.is_none();
        self.granule = granule.unwrap_or(self.granule);
        self.closed = self.lacing.len() == MOST_LACING || reaches(self.body.len(), least);
    }

    /// Room for what is written while a packet of so many bytes is added: none where the packet fits the page.
    pub(crate) fn most_written(&self, size: usize) -> usize
        requires { size < 2 ^ 63 }
        ensures { result ≡ (if spills self.now (size / 255 + 1) then most_written self.now (size / 255 + 1) size else 0) }
    {
        let segments = size / MOST_SEGMENT + 1;
        if self.closed || self.lacing.len() + segments > MOST_LACING {
            HEADER + self.lacing.len() + self.body.len() + (HEADER + 1) * segments + size
        } else {
            0
        }
    }

    /// Its bytes, with these flags beside its own, behind those that are ready.
    pub(crate) fn write(&self, serial: u32, flags: u8, ready: &mut Vec<u8>) -> Result<(), NoMem>
        requires flags { flags ≤ 4 }
        ensures written { OnOk result (ready.new.items ≡ ready.old.items ++ written_page (page_with serial flags self.now)) }
        ensures memory { OnErr result (ready.new.items ≡ ready.old.items) }
        ensures full { OnErr result (vec_capacity ready.old < vec_len ready.old + bytes_of_page (page_with serial flags self.now)) }
        ensures capacity { vec_capacity ready.old ≤ vec_capacity ready.new }
    {
        let head = PageHead {
            flags: self.flags + flags,
            granule: self.granule,
            serial,
            number: self.number,
        };
        write_page(ready, &head, &self.lacing, &self.body)
    }

    /// Its bytes behind those that are ready, where there is room for them.
    pub(crate) fn write_reserved(&self, serial: u32, ready: &mut Vec<u8>)
        requires room { length ready.old.items + bytes_of_page (page_with serial 0 self.now) ≤ vec_capacity ready.old }
        ensures written { ready.new.items ≡ ready.old.items ++ written_page (page_with serial 0 self.now) }
        ensures capacity { vec_capacity ready.old ≤ vec_capacity ready.new }
    {
        let _ = self.write(serial, 0, ready);
    }

    /// Its bytes as those of the last page, which is not there where it is empty.
    pub(crate) fn write_last(
        &self,
        serial: u32,
        flags: u8,
        ready: &mut Vec<u8>,
    ) -> Result<(), NoMem>
        requires flags { flags ≤ 4 }
        ensures written { OnOk result (ready.new.items ≡ ready.old.items ++ written_pages (last_pages serial flags self.now)) }
        ensures memory { OnErr result (ready.new.items ≡ ready.old.items) }
        ensures needed { OnErr result (0 < length self.now.lacing) }
    {
        if self.lacing.is_empty() {
            return Ok(());
        }
        self.write(serial, flags, ready)
    }
}
