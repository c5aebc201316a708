// Judging page after page (own).
ghost use Rattle.std.specs.Prelude.{◌≡◌, ◌≤◌, ◌<◌, ◌||◌, ◌^◌, ◌+◌, ◌*◌, ℕ, List, true, false, Ok, IfErr, IfOk, OnOk, IsOk, IsErrOf, All, drop, length, map};
ghost use Rattle.ogg_page.specs.Page.{HasShape, view, page_at_front};
ghost use Rattle.ogg_link.specs.Walk.{is_of_track};
ghost use Rattle.src_index.specs.Judge.{nothing, page_checks, packets_on, end_check};
ghost use Rattle.src_index.specs.Refusing.{RefusesAs};
ghost use Rattle.src_index.specs.Said.{shift_of};
ghost use Rattle.ogg_link.specs.Spacing.{AreSpaced};
ghost use Rattle.src_index.specs.Headers.{said_of};
ghost use Rattle.src_index.specs.Holding.{kept_of};
ghost use Rattle.src_index.specs.Kept.{page_kept};
ghost use Rattle.src_index.specs.Windows.{OpensTwo};

use crate::false_pages::has_false_page;
use crate::fault::{Fault, Refusal};
use crate::packets::Packets;
use crate::pages::page_size;
use crate::same::checksum_field;
use ogg_link::{LinkRefusal, Walk};
use ogg_page::{PageRef, read_window};
use std::alloc::Global;

/// What the pages so far leave.
#[derive(Drop)]
pub(crate) struct Judging {
    pub(crate) walk: Walk,
    pub(crate) packets: Packets,
    /// A page without a fault stands where none of the file begins.
    pub(crate) has_false: bool,
}

impl Judging {
    ghost use Rattle.src_index.specs.Judging.{before_of, GoesOn, Follows, Fails};

    // Before the first page.
    pub(crate) fn new(alloc: Global) -> Judging
        ensures goes_on { GoesOn result }
        ensures before { before_of result ≡ nothing }
        ensures follows { (bytes : List ℕ) → Follows bytes result 0 }
    {
        Judging {
            walk: Walk::new(alloc),
            packets: Packets::new(alloc),
            has_false: false,
        }
    }

    // The checks of the page that begins at a byte and has this checksum field.
    #[tactic(auto, unfolding(crate::specs::Judge::page_checks))]
    fn page(&mut self, at: u64, checksum: u32, page: &PageRef) -> Result<(), Refusal>
        requires shape { HasShape page.now.lacing.now page.now.body.now }
        requires goes_on { GoesOn self.old }
        ensures checks { OnOk result (page_checks (before_of self.old) at (view page.now) ≡ Ok (before_of self.new)) }
        ensures goes_on { OnOk result (GoesOn self.new) }
        ensures kept { OnOk result (kept_of self.new.packets ≡ page_kept (is_of_track self.old.walk.state (view page.now)) (record { at = at; checksum = checksum; lacing = page.now.lacing.now }) page.now.body.now (kept_of self.old.packets)) }
        ensures short { OnOk result (All (λ packet. length packet ≤ 2 ^ 30) (packets_on (before_of self.old) (view page.now))) }
        ensures fault { IfErr result (λ refusal. RefusesAs refusal (page_checks (before_of self.old) at (view page.now))) }
        ensures same { self.new.has_false ≡ self.old.has_false }
    {
        let book = self.walk.progress();
        let events = match self.walk.page(page) {
            Ok(events) => events,
            Err(LinkRefusal::Bad(fault)) => return Err(Refusal::Bad(Fault::InLink { at, fault })),
            Err(LinkRefusal::NoMem) => return Err(Refusal::NoMem),
        };
        self.packets
            .next_page(book, events.track, at, checksum, page)?;
        match self.walk.settle(self.packets.headers.shift()) {
            Ok(()) => Ok(()),
            Err(fault) => Err(Refusal::Bad(Fault::InLink { at, fault })),
        }
    }

    // Looks for false pages inside the page of so many bytes at the front of a window.
    fn look(&mut self, window: &[u8], size: usize)
        requires size { (0 < size) × (size ≤ length window.now) × (size ≤ 65307) }
        ensures same { self.new ≡ record self.old { has_false = self.new.has_false } }
        ensures none { self.new.has_false ≡ false → (self.old.has_false ≡ false) × ((bytes : List ℕ) (place : ℕ) → OpensTwo window.now bytes → 0 < place → place < size → ¬ IsOk (page_at_front (drop place bytes))) }
        ensures one { self.new.has_false ≡ true → self.old.has_false ≡ false → (bytes : List ℕ) → OpensTwo window.now bytes → (place : ℕ) × (0 < place) × (place < size) × IsOk (page_at_front (drop place bytes)) }
    {
        self.has_false = self.has_false || has_false_page(window, size);
    }

    // Judges the page that a window begins with, and tells how many bytes it has.
    pub(crate) fn judge_page(&mut self, window: &[u8], at: u64) -> Result<usize, Refusal>
        requires some { 0 < length window.now }
        requires goes_on { GoesOn self.old }
        ensures judged { IfOk result (λ count. (bytes : List ℕ) → OpensTwo window.now (drop at bytes) → Follows bytes self.old at → Follows bytes self.new (at + count)) }
        ensures fault { IfErr result (λ refusal. (bytes : List ℕ) → OpensTwo window.now (drop at bytes) → Follows bytes self.old at → Fails refusal bytes) }
        ensures count { IfOk result (λ count. (0 < count) × (count ≤ length window.now)) }
        ensures goes_on { OnOk result (GoesOn self.new) }
        ensures read { ¬ IsErrOf result Refusal.ReadFault }
    {
        let page = match read_window(window) {
            Ok(page) => page,
            Err(fault) => return Err(Refusal::Bad(Fault::InPage { at, fault })),
        };
        match self.page(at, checksum_field(window), &page) {
            Ok(()) => {}
            Err(refusal) => return Err(refusal),
        }
        let size = page_size(page.lacing);
        self.look(window, size);
        Ok(size)
    }

    // The end of a file of so many bytes.
    pub(crate) fn end(mut self, size: u64) -> Result<Packets, Refusal>
        requires { GoesOn self }
        ensures packets { IfOk result (λ packets. packets ≡ self.packets) }
        ensures ended { OnOk result (IsOk (end_check (before_of self) size)) }
        ensures three { OnOk result (3 ≤ length (kept_of self.packets).headers) }
        ensures spaced { AreSpaced (shift_of (said_of self.packets.headers)) (map (λ frame. frame.key) (kept_of self.packets).frames) }
        ensures fault { IfErr result (λ refusal. RefusesAs refusal (end_check (before_of self) size)) }
        ensures read { ¬ IsErrOf result Refusal.ReadFault }
    {
        match self.walk.end() {
            Ok(()) => Ok(self.packets),
            Err(fault) => Err(Refusal::Bad(Fault::InLink { at: size, fault })),
        }
    }
}
