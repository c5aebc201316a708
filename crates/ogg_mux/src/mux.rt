// Packets to pages, as they come.
ghost use Rattle.std.specs.Prelude.{◌≡◌, ◌≤◌, ◌<◌, ◌+◌, ◌-◌, ◌/◌, ◌*◌, ◌^◌, ◌++◌, ◌∷◌, [], false, true, ℕ, List, OnOk, OnErr, IfOk, length, vec_capacity, if◌then◌else◌};
ghost use Rattle.ogg_link.specs.Track.{is_key, granule_of};
ghost use Rattle.ogg_mux.specs.OutputPages.{paged, Held as HeldPage};
ghost use Rattle.ogg_mux.specs.Muxing.{rest_of, least_body};
ghost use Rattle.ogg_mux.specs.Room.{IsRoomy, spills};

use crate::held::Held;
use crate::packets::add_packet;
use std::alloc::Global;
use std::marker::Model;
use std::mem;
use vid_base::NoMem;

/// The end of a frame packet closes its page from this body size on.
const LEAST_BODY: usize = 4096;

/// Writes the pages of a Theora stream: its headers and then its frame packets, in order.
#[derive(Drop)]
pub struct Mux {
    alloc: Global,
    serial: u32,
    shift: u8,
    base: u64,
    frames: u32,
    key: u32,
    held: Held,
    ready: Vec<u8>,
    finished: bool,
}

impl Model for Mux {
    ghost use Rattle.std.specs.Prelude.{◌≡◌, ◌≤◌, ◌<◌, ◌^◌};
    ghost use Rattle.ogg_mux.specs.Muxing.{Muxing};

    ghost Value = { Muxing };

    ghost view = { λ m. record { serial = m.serial; shift = m.shift; base = m.base; frames = m.frames; key = m.key; held = m.held; ready = m.ready.items; finished = m.finished } };

    ghost invariant = { λ m. (m.shift ≤ 31) × (m.base ≤ 1) × (m.frames ≤ 2 ^ 24) × (m.key ≤ m.frames) };
}

/// The last key frame, where the next frame is one or not.
fn last_key(key: bool, frame: u32, before: u32) -> u32
    ensures { result ≡ (if key then frame else before) }
{
    if key { frame } else { before }
}

/// The granule position of a frame (Theora I, A.2.3).
fn position(base: u64, key: u32, frame: u32, shift: u8) -> u64
    requires base { base ≤ 1 }
    requires key { key ≤ frame }
    requires frame { frame < 2 ^ 24 }
    requires shift { shift ≤ 31 }
    ensures { result ≡ granule_of base shift key frame }
{
    ogg_link::granule(base, key, frame, shift).unwrap_or(0)
}

/// Room for the pages that are written while a packet of so many bytes is added.
fn make_room(ready: &mut Vec<u8>, held: &Held, size: usize) -> Result<(), NoMem>
    requires { size < 2 ^ 63 }
    ensures items { ready.new.items ≡ ready.old.items }
    ensures room { OnOk result (IsRoomy (length ready.new.items) (vec_capacity ready.new) held.now (size / 255 + 1) size) }
    ensures needed { OnErr result (spills held.now (size / 255 + 1) ≡ true) }
{
    ready.try_reserve(held.most_written(size))?;
    Ok(())
}

impl Mux {
    /// A stream with these header packets and serial number, in whose granule positions the lower `shift` bits count the
    /// frames since the last key frame and the first frame counts `base`. All header pages are ready.
    pub fn new(
        alloc: Global,
        ident: &[u8],
        comment: &[u8],
        setup: &[u8],
        serial: u32,
        shift: u8,
        base: u64,
    ) -> Result<Mux, NoMem>
        requires shift { shift ≤ 31 }
        requires base { base ≤ 1 }
        ensures all { IfOk result (λ mux. (packets : List (List ℕ)) → rest_of mux packets
            ≡ paged least_body (record { ident = ident.now; comment = comment.now; setup = setup.now; serial = serial; shift = shift; base = base }) packets) }
        ensures frames { IfOk result (λ mux. mux.frames ≡ 0) }
        ensures shift { IfOk result (λ mux. mux.shift ≡ shift) }
        ensures open { IfOk result (λ mux. mux.finished ≡ false) }
    {
        let mut held = Held::first(alloc)?;
        let mut ready = Vec::new(alloc);
        make_room(&mut ready, &held, ident.len())?;
        add_packet(serial, &mut held, &mut ready, ident, 0, Some(0));
        make_room(&mut ready, &held, comment.len())?;
        add_packet(serial, &mut held, &mut ready, comment, 0, None);
        make_room(&mut ready, &held, setup.len())?;
        add_packet(serial, &mut held, &mut ready, setup, 0, Some(0));
        held.write(serial, 0, &mut ready)?;
        held.turn();
        Ok(Mux {
            alloc,
            serial,
            shift,
            base,
            frames: 0,
            key: 0,
            held,
            ready,
            finished: false,
        })
    }

    /// One frame packet more; `key` says whether it holds a key frame. After `NoMem`, which comes only where a page is to be
    /// written before the packet ends, nothing has changed.
    pub fn packet(&mut self, bytes: &[u8], key: bool) -> Result<(), NoMem>
        requires open { self.old.finished ≡ false }
        requires few { self.old.frames < 2 ^ 24 }
        requires key { key ≡ is_key bytes.now }
        requires near { key ≡ false → (0 < self.old.frames) × (self.old.frames - self.old.key < 2 ^ self.old.shift) }
        ensures all { OnOk result ((more : List (List ℕ)) → rest_of self.new more ≡ rest_of self.old (bytes.now ∷ more)) }
        ensures frames { OnOk result (self.new.frames ≡ self.old.frames + 1) }
        ensures gap { OnOk result (self.new.frames - self.new.key ≡ (if key then 0 else self.old.frames - self.old.key) + 1) }
        ensures shift { self.new.shift ≡ self.old.shift }
        ensures open { self.new.finished ≡ false }
        ensures err { OnErr result (self.new ≡ self.old) }
        ensures needed { OnErr result (spills self.old.held (length bytes.now / 255 + 1) ≡ true) }
    {
        let last = last_key(key, self.frames, self.key);
        let granule = position(self.base, last, self.frames, self.shift);
        make_room(&mut self.ready, &self.held, bytes.len())?;
        add_packet(
            self.serial,
            &mut self.held,
            &mut self.ready,
            bytes,
            granule,
            Some(LEAST_BODY),
        );
        self.key = last;
        self.frames += 1;
        Ok(())
    }

    /// The bytes that are ready and were not taken. Takes no memory.
    pub fn take_bytes(&mut self) -> Vec<u8>
        ensures bytes { result.items ≡ self.old.ready }
        ensures rest { self.new ≡ record self.old { ready = [] } }
    {
        let alloc = self.alloc;
        mem::replace(&mut self.ready, Vec::new(alloc))
    }

    /// The last page is ready. After `NoMem`, which comes only where there is one, nothing has changed.
    pub fn finish(&mut self) -> Result<(), NoMem>
        requires open { self.old.finished ≡ false }
        ensures all { OnOk result (self.new.ready ≡ rest_of self.old []) }
        ensures frames { self.new.frames ≡ self.old.frames }
        ensures err { OnErr result (self.new ≡ self.old) }
        ensures needed { OnErr result (0 < length self.old.held.lacing) }
    {
        self.held.write_last(self.serial, 4, &mut self.ready)?;
        self.finished = true;
        Ok(())
    }
}
