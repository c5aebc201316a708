// Parts of packets on a page (RFC 3533, 6).
ghost use Rattle.std.specs.Prelude.{◌≡◌, ◌≤◌, ◌<◌, length, not, IfOk, OnErr, All};
ghost use Rattle.ogg_page.specs.Page.{HasShape};
ghost use Rattle.ogg_link.specs.Parts.{parts_of, IsWithin, StartBehindEnds, Joins};

use ogg_page::PageRef;
use std::alloc::Global;
use vid_base::NoMem;

/// A range of a page's body, in bytes from `first` to before `past`, that belongs to one packet.
#[derive(Clone, Copy, Debug, PartialEq, Eq)]
pub struct Part {
    pub first: u32,
    pub past: u32,
    /// The packet starts with it.
    pub starts: bool,
    /// The packet ends with it.
    pub ends: bool,
}

/// What a page brings.
#[derive(Drop)]
pub struct Events {
    /// The page is of the Theora track.
    pub track: bool,
    /// The page is the first of a link.
    pub new_link: bool,
    /// The parts of the track's packets in the page's body, in order. None where the page is of another stream.
    pub parts: Vec<Part>,
}

// The parts that lacing values make, where a packet is unfinished or not.
#[tactic(auto, unfolding(crate::specs::Parts::parts_from))]
fn laced(alloc: Global, unfinished: bool, lacing: &[u8]) -> Result<Vec<Part>, NoMem>
    requires { length lacing.now ≤ 255 }
    ensures parts { IfOk result (λ parts. parts.items ≡ parts_of unfinished lacing.now) }
    ensures needed { OnErr result (0 < length (parts_of unfinished lacing.now)) }
{
    let mut parts = Vec::new(alloc);
    let mut first = 0u32;
    let mut at = 0u32;
    let mut starts = !unfinished;
    'lacing: for size in lacing {
        at += u32::from(*size);
        if *size < 255 {
            parts.push(Part {
                first,
                past: at,
                starts,
                ends: true,
            })?;
            first = at;
            starts = true;
        }
    }
    if first < at {
        parts.push(Part {
            first,
            past: at,
            starts,
            ends: false,
        })?;
    }
    Ok(parts)
}

/// The parts in a page's body of the track, where a packet is unfinished before the page or not: those that
/// `Walk::page` gives. On a page that a walk has passed, flag 1 tells whether one is. Only a page that has parts takes
/// memory.
#[tactic(auto, using(crate::proofs::PartLemmas::parts_within, crate::proofs::PartLemmas::parts_join, crate::proofs::PartLemmas::parts_start))]
pub fn parts_of(alloc: Global, page: &PageRef, unfinished: bool) -> Result<Vec<Part>, NoMem>
    requires { HasShape page.now.lacing.now page.now.body.now }
    ensures parts { IfOk result (λ parts. parts.items ≡ parts_of unfinished page.now.lacing.now) }
    ensures within { IfOk result (λ parts. All (IsWithin (length page.now.body.now)) parts.items) }
    // Whatever packet was unfinished before the page, its parts make the packets that its segments make.
    ensures joined { IfOk result (λ parts. Joins parts.items page.now.lacing.now page.now.body.now) }
    ensures starts { IfOk result (λ parts. StartBehindEnds (not unfinished) parts.items) }
    ensures needed { OnErr result (0 < length (parts_of unfinished page.now.lacing.now)) }
{
    laced(alloc, unfinished, page.lacing)
}
