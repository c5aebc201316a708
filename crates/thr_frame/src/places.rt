// Which quantiser index each block has (Theora I, 7.6).
ghost use Rattle.std.specs.Prelude.{◌≡◌, ◌<◌, ◌≤◌, ◌+◌, All, OnOk, length, replicate};
ghost use Rattle.vid_base.specs.Reading.{Gives, SameEnd};
ghost use Rattle.thr_frame.specs.QuantiserPlaces.{moved_up, places_of, round, standing, stands};

use thr_flags::read_long_in;
use vid_base::{BitReader, PacketFault};

// A coded block that stands at this place.
fn stands(coded: bool, at: u8, place: u8) -> bool
    ensures { result ≡ stands place coded at }
{
    coded && at == place
}

// How many coded blocks stand at this place.
fn standing(flags: &[bool], places: &[u8], place: u8) -> usize
    requires { length places.now ≡ length flags.now }
    ensures value { result ≡ standing place flags.now places.now }
    ensures most { result ≤ length flags.now }
{
    let mut count = 0usize;
    'blocks: for b in 0..flags.len() {
        if stands(flags[b], places[b], place) {
            count += 1;
        }
    }
    count
}

// Each of them takes the next mark, and moves up by one where it is set.
fn move_up(flags: &[bool], places: &mut [u8], place: u8, moves: &[bool])
    requires places { length places.old ≡ length flags.now }
    requires moves { length moves.now ≡ standing place flags.now places.old }
    requires place { place < 3 }
    ensures value { places.new ≡ moved_up place flags.now places.old moves.now }
    ensures small { All (λ at. at ≤ place) places.old → All (λ at. at ≤ place + 1) places.new }
{
    let mut next = 0usize;
    'blocks: for b in 0..flags.len() {
        if stands(flags[b], places[b], place) {
            if moves[next] {
                places[b] = place + 1;
            }
            next += 1;
        }
    }
}

// One round, for the coded blocks that stand at this place.
#[tactic(auto, unfolding(crate::specs::QuantiserPlaces::round))]
fn read_round(
    r: &mut BitReader,
    flags: &[bool],
    place: u8,
    places: &mut [u8],
    marks: &mut [bool],
) -> Result<(), PacketFault>
    requires places { length places.old ≡ length flags.now }
    requires marks { length flags.now ≤ length marks.old }
    requires place { place < 3 }
    ensures value { Gives (λ _. places.new) result r.new.left (round place flags.now places.old r.old.left) }
    ensures small { All (λ at. at ≤ place) places.old → OnOk result (All (λ at. at ≤ place + 1) places.new) }
    ensures end { SameEnd r.old r.new }
{
    let (moves, _) = marks.split_at_mut(standing(flags, places, place));
    read_long_in(r, moves)?;
    move_up(flags, places, place, moves);
    Ok(())
}

// All blocks begin at place 0.
fn begin(places: &mut [u8])
    ensures value { places.new ≡ replicate (length places.old) 0 }
    ensures small { All (λ at. at ≤ 0) places.new }
{
    places.fill(0);
}

/// Reads for each block in coded order its place among so many quantiser indices. `Ended` or `RunTooLong`; the places are
/// then open. The marks, one for each block, are open afterwards.
pub(crate) fn read_places(
    r: &mut BitReader,
    flags: &[bool],
    count: u8,
    places: &mut [u8],
    marks: &mut [bool],
) -> Result<(), PacketFault>
    requires places { length places.old ≡ length flags.now }
    requires marks { length flags.now ≤ length marks.old }
    requires some { 0 < count }
    requires few { count ≤ 3 }
    ensures value { Gives (λ _. places.new) result r.new.left (places_of count flags.now r.old.left) }
    ensures small { OnOk result (All (λ place. place < count) places.new) }
    ensures end { SameEnd r.old r.new }
{
    begin(places);
    'rounds: for place in 0..count - 1 {
        read_round(r, flags, place, places, marks)?;
    }
    Ok(())
}
