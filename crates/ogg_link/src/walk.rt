// A walk over the pages of a file.
ghost use Rattle.std.specs.Prelude.{◌≡◌, ◌≤◌, None, Some, not, length, IfOk, IfErr, IfSome, All};
ghost use Rattle.ogg_page.specs.Page.{HasShape, view};
ghost use Rattle.ogg_link.specs.Granules.{settled as settled_of};
ghost use Rattle.ogg_link.specs.Parts.{parts_of, IsWithin, StartBehindEnds, Joins, lacing_if};
ghost use Rattle.ogg_link.specs.Walk.{start, step as step_of, ended as ended_of, is_of_track as is_of_track_in};
ghost use Rattle.ogg_link.specs.Walked.{BringsParts, Moves, MovesOrNoMem};

use crate::granules::settled;
use crate::page::{ended, is_of_track, step};
use crate::{Events, LinkFault, LinkRefusal, Progress, State};
use ogg_page::PageRef;
use std::alloc::Global;
use std::marker::Model;

/// A walk over the pages of a file in order, which finds the parts of the Theora track's packets. After a `LinkFault` it
/// has failed: each later call answers that fault again, and nothing is asked of such a call.
#[derive(Drop)]
pub struct Walk {
    alloc: Global,
    state: State,
    failed: Option<LinkFault>,
}

impl Model for Walk {
    ghost use Rattle.ogg_link.specs.Walked.{Walked};

    ghost Value = { Walked };

    ghost view = { λ walk. record { state = walk.state; failed = walk.failed } };
}

impl Walk {
    /// A walk before the first page.
    pub fn new(alloc: Global) -> Walk
        ensures { result ≡ record { state = start; failed = None } }
    {
        Walk {
            alloc,
            state: State {
                begun: false,
                past_first_pages: false,
                track: None,
                closed: false,
                number: 0,
                progress: Progress {
                    packets: 0,
                    unfinished: false,
                    key: false,
                    last_key: None,
                },
                settles: false,
                granule: 0,
                base: None,
            },
            failed: None,
        }
    }

    /// How far the packets of the track have come.
    pub fn progress(&self) -> Progress
        ensures { result ≡ self.now.state.progress }
    {
        self.state.progress
    }

    /// The next page of the file. Its faults are looked for in this order: `Chained`, `NoTrack`, and for a page of the track
    /// `DataAfterEnd`, `MissingPage`, `BadContinued`, `HeadersNotAlone`. Only a page without a fault that brings parts takes
    /// memory. After `NoMem` the walk is as it was.
    pub fn page(&mut self, page: &PageRef) -> Result<Events, LinkRefusal>
        requires { self.old.failed ≡ None → HasShape page.now.lacing.now page.now.body.now }
        ensures step { MovesOrNoMem result self.old self.new (step_of self.old.state (view page.now)) }
        ensures kept { IfSome self.old.failed (λ fault. result ≡ Err (LinkRefusal.Bad fault)) }
        ensures memory { result ≡ Err LinkRefusal.NoMem → self.new ≡ self.old }
        ensures needed { result ≡ Err LinkRefusal.NoMem → BringsParts self.old.state (view page.now) }

        ensures track { IfOk result (λ events. events.track ≡ is_of_track_in self.old.state (view page.now)) }
        ensures new_link { IfOk result (λ events. events.new_link ≡ not self.old.state.begun) }

        ensures parts { IfOk result (λ events. events.parts.items ≡ parts_of self.old.state.progress.unfinished (lacing_if events.track page.now.lacing.now)) }
        // A part starts a packet where the part before it ends one; the first, where none was unfinished.
        ensures starts { IfOk result (λ events. StartBehindEnds (not self.old.state.progress.unfinished) events.parts.items) }
        ensures within { IfOk result (λ events. All (IsWithin (length page.now.body.now)) events.parts.items) }
        // Whatever packet was unfinished before the page, its parts make the packets that its segments make.
        ensures joined { IfOk result (λ events. Joins events.parts.items (lacing_if events.track page.now.lacing.now) page.now.body.now) }
    {
        if let Some(fault) = self.failed {
            return Err(LinkRefusal::Bad(fault));
        }
        let track = is_of_track(&self.state, page);
        let new_link = !self.state.begun;
        match step(self.alloc, &self.state, page) {
            Ok((next, parts)) => {
                self.state = next;
                Ok(Events {
                    track,
                    new_link,
                    parts,
                })
            }
            Err(LinkRefusal::Bad(fault)) => {
                self.failed = Some(fault);
                Err(LinkRefusal::Bad(fault))
            }
            Err(LinkRefusal::NoMem) => Err(LinkRefusal::NoMem),
        }
    }

    // Goes on with what is known next, or fails.
    fn go_on(&mut self, next: Result<State, LinkFault>) -> Result<(), LinkFault>
        requires { self.old.failed ≡ None }
        ensures moved { Moves result self.old self.new next }
        ensures fault { IfErr result (λ fault. next ≡ Err fault) }
    {
        match next {
            Ok(state) => {
                self.state = state;
                Ok(())
            }
            Err(fault) => {
                self.failed = Some(fault);
                Err(fault)
            }
        }
    }

    /// Looks at the granule position of the page just given, after each page of the track on which a frame ends. `shift` is
    /// that of the identification header. The first such position tells what the first frame counts.
    pub fn settle(&mut self, shift: u8) -> Result<(), LinkFault>
        requires { self.old.failed ≡ None → shift ≤ 31 }
        ensures settled { Moves result self.old self.new (settled_of self.old.state shift) }
        ensures fault { self.old.failed ≡ None → IfErr result (λ fault. fault ≡ LinkFault.BadGranule) }
    {
        if let Some(fault) = self.failed {
            return Err(fault);
        }
        self.go_on(settled(self.state, shift))
    }

    /// The file has ended: `NoTrack`, or `UnfinishedPacket` where a packet is unfinished or fewer than three have ended.
    pub fn end(&mut self) -> Result<(), LinkFault>
        ensures ended { Moves result self.old self.new (ended_of self.old.state) }
    {
        if let Some(fault) = self.failed {
            return Err(fault);
        }
        self.go_on(ended(self.state))
    }
}
