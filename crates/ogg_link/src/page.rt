// A page in its place in the link, and the end of the file (RFC 3533, 4 to 6).
ghost use Rattle.std.specs.Prelude.{◌≡◌, ◌<◌, not, length, IfOk, IfErr, IsOk, All};
ghost use Rattle.ogg_page.specs.Page.{HasShape, view};
ghost use Rattle.ogg_link.specs.Flags.{has_flag as has_flag_in};
ghost use Rattle.ogg_link.specs.Parts.{parts_of as parts_in, IsWithin, StartBehindEnds, Joins, lacing_if};
ghost use Rattle.ogg_link.specs.Walk.{step as step_of, track_step as track_step_of, ended as ended_of, is_of_track as is_of_track_in, is_badly_continued as is_badly_continued_in, is_shared as is_shared_in};
ghost use Rattle.ogg_link.specs.Walked.{BringsParts, Refuses};

use crate::progress::{HEADERS, after_page, is_alone, is_crowded};
use crate::{LinkFault, LinkRefusal, Part, State, parts_of};
use ogg_page::PageRef;
use std::alloc::Global;

const CONTINUED: u8 = 1;

const FIRST: u8 = 2;

const LAST: u8 = 4;

// With these bytes an identification header begins (Theora I, 6.1).
const MAGIC: [u8; 7] = *b"\x80theora";

fn has_flag(page: &PageRef, flag: u8) -> bool
    ensures { result ≡ has_flag_in flag page.now.flags }
{
    page.flags & flag != 0
}

// Whether the page is of the track, or begins it where there is none.
pub(crate) fn is_of_track(state: &State, page: &PageRef) -> bool
    ensures { result ≡ is_of_track_in state.now (view page.now) }
{
    match state.track {
        Some(serial) => serial == page.serial,
        None => has_flag(page, FIRST) && page.body.len() >= 7 && page.body[..7] == MAGIC[..7],
    }
}

// Whether the page has lacing values, and its first packet does not go with the packet that is unfinished.
fn is_badly_continued(state: &State, page: &PageRef) -> bool
    ensures { result ≡ is_badly_continued_in state.now (view page.now) }
{
    !page.lacing.is_empty() && state.progress.unfinished != has_flag(page, CONTINUED)
}

// Whether the identification header is not alone on the track's one first page.
fn is_shared(state: &State, page: &PageRef) -> bool
    ensures { result ≡ is_shared_in state.now (view page.now) }
{
    if state.track.is_some() {
        has_flag(page, FIRST)
    } else {
        !is_alone(page.lacing)
    }
}

// A page of the track.
#[tactic(auto, unfolding(crate::specs::Walk::track_step))]
fn track_step(
    alloc: Global,
    state: &State,
    page: &PageRef,
) -> Result<(State, Vec<Part>), LinkRefusal>
    requires { HasShape page.now.lacing.now page.now.body.now }
    ensures step { IfOk result (λ taken. track_step_of state.now (view page.now) ≡ Ok taken.0) }
    ensures parts { IfOk result (λ taken. taken.1.items ≡ parts_in state.now.progress.unfinished page.now.lacing.now) }
    ensures joined { IfOk result (λ taken. Joins taken.1.items page.now.lacing.now page.now.body.now) }
    ensures starts { IfOk result (λ taken. StartBehindEnds (not state.now.progress.unfinished) taken.1.items) }
    ensures within { IfOk result (λ taken. All (IsWithin (length page.now.body.now)) taken.1.items) }
    ensures fault { IfErr result (λ refusal. Refuses refusal (track_step_of state.now (view page.now))) }
    ensures needed { result ≡ Err LinkRefusal.NoMem → IsOk (track_step_of state.now (view page.now)) × (0 < length (parts_in state.now.progress.unfinished page.now.lacing.now)) }
{
    if state.closed {
        return Err(LinkRefusal::Bad(LinkFault::DataAfterEnd));
    }
    if state.track.is_some() && page.number != state.number.wrapping_add(1) {
        return Err(LinkRefusal::Bad(LinkFault::MissingPage));
    }
    if is_badly_continued(state, page) {
        return Err(LinkRefusal::Bad(LinkFault::BadContinued));
    }
    if is_shared(state, page) || is_crowded(state.progress.packets, page.lacing) {
        return Err(LinkRefusal::Bad(LinkFault::HeadersNotAlone));
    }
    let parts = parts_of(alloc, page, state.progress.unfinished)?;
    let progress = after_page(state.progress, page.lacing, page.body);
    let next = State {
        begun: true,
        past_first_pages: state.past_first_pages || !has_flag(page, FIRST),
        track: Some(page.serial),
        closed: has_flag(page, LAST),
        number: page.number,
        progress,
        settles: progress.packets > HEADERS && progress.packets > state.progress.packets,
        granule: page.granule,
        base: state.base,
    };
    Ok((next, parts))
}

// The next page of the file.
#[tactic(auto, using(crate::proofs::PartLemmas::nothing_joins, crate::proofs::PartLemmas::nothing_starts), unfolding(crate::specs::Walk::step, crate::specs::Parts::parts_from))]
pub(crate) fn step(
    alloc: Global,
    state: &State,
    page: &PageRef,
) -> Result<(State, Vec<Part>), LinkRefusal>
    requires { HasShape page.now.lacing.now page.now.body.now }
    ensures step { IfOk result (λ taken. step_of state.now (view page.now) ≡ Ok taken.0) }
    ensures parts { IfOk result (λ taken. taken.1.items ≡ parts_in state.now.progress.unfinished (lacing_if (is_of_track_in state.now (view page.now)) page.now.lacing.now)) }
    ensures joined { IfOk result (λ taken. Joins taken.1.items (lacing_if (is_of_track_in state.now (view page.now)) page.now.lacing.now) page.now.body.now) }
    ensures starts { IfOk result (λ taken. StartBehindEnds (not state.now.progress.unfinished) taken.1.items) }
    ensures within { IfOk result (λ taken. All (IsWithin (length page.now.body.now)) taken.1.items) }
    ensures fault { IfErr result (λ refusal. Refuses refusal (step_of state.now (view page.now))) }
    ensures needed { result ≡ Err LinkRefusal.NoMem → BringsParts state.now (view page.now) }
{
    let first = has_flag(page, FIRST);
    if first && state.past_first_pages {
        return Err(LinkRefusal::Bad(LinkFault::Chained));
    }
    if !first && state.track.is_none() {
        return Err(LinkRefusal::Bad(LinkFault::NoTrack));
    }
    if is_of_track(state, page) {
        return track_step(alloc, state, page);
    }
    let next = State {
        begun: true,
        past_first_pages: state.past_first_pages || !first,
        settles: false,
        ..*state
    };
    Ok((next, Vec::new(alloc)))
}

// The end of the file.
#[tactic(auto, unfolding(crate::specs::Walk::ended))]
pub(crate) fn ended(state: State) -> Result<State, LinkFault>
    ensures { result ≡ ended_of state }
{
    if state.track.is_none() {
        return Err(LinkFault::NoTrack);
    }
    if state.progress.unfinished || state.progress.packets < HEADERS {
        return Err(LinkFault::UnfinishedPacket);
    }
    Ok(state)
}
