// Segments and packets onto pages (RFC 3533, 6).
ghost use Rattle.std.specs.Prelude.{◌≡◌, ◌≤◌, ◌<◌, ◌+◌, ◌-◌, ◌*◌, ◌/◌, ◌++◌, ◌∷◌, [], ℕ, List, OnOk, OnErr, length, take, drop, true, false, None, vec_capacity, if◌then◌else◌};
ghost use Rattle.ogg_mux.specs.OutputPages.{Segment, pages_from, packet_segments};
ghost use Rattle.ogg_mux.specs.Room.{IsRoomy, spills, most_written};

use crate::held::Held;
use vid_base::NoMem;

/// A page on which a segment can stand: the held one is written where it is closed, for which there is room.
fn open(serial: u32, held: &mut Held, ready: &mut Vec<u8>)
    requires room { held.old.closed ≡ true → length ready.old.items + 27 + length held.old.lacing + length held.old.body ≤ vec_capacity ready.old }
    ensures open { held.new.closed ≡ false }
    ensures same { (last : ℕ) (segment : Segment) (more : List Segment) → ready.new.items ++ pages_from serial last held.new (segment ∷ more) ≡ ready.old.items ++ pages_from serial last held.old (segment ∷ more) }
    ensures kept { held.old.closed ≡ false → (held.new ≡ held.old) × (length ready.new.items ≡ length ready.old.items) }
    ensures turned { held.old.closed ≡ true → (held.new.lacing ≡ []) × (held.new.body ≡ []) × (length ready.new.items ≡ length ready.old.items + 27 + length held.old.lacing + length held.old.body) }
    ensures capacity { vec_capacity ready.old ≤ vec_capacity ready.new }
{
    if held.is_closed() {
        held.write_reserved(serial, ready);
        held.turn();
    }
}

/// One segment more.
fn add(
    serial: u32,
    held: &mut Held,
    ready: &mut Vec<u8>,
    bytes: &[u8],
    granule: Option<u64>,
    least: Option<usize>,
)
    requires bytes { length bytes.now ≤ 255 }
    requires room { held.old.closed ≡ true → length ready.old.items + 27 + length held.old.lacing + length held.old.body ≤ vec_capacity ready.old }
    ensures all { (last : ℕ) (more : List Segment) → ready.new.items ++ pages_from serial last held.new more
        ≡ ready.old.items ++ pages_from serial last held.old (record { bytes = bytes.now; granule = granule; least = least } ∷ more) }
    ensures room { least ≡ None → (segments size : ℕ) → IsRoomy (length ready.old.items) (vec_capacity ready.old) held.old (segments + 1) (size + length bytes.now)
        → IsRoomy (length ready.new.items) (vec_capacity ready.new) held.new segments size }
    ensures shut { least ≡ Some 0 → held.new.closed ≡ true }
    ensures there { 0 < length held.new.lacing }
{
    open(serial, held, ready);
    held.grow(bytes, granule, least);
}

/// The next 255 bytes of a packet.
fn front(bytes: &[u8], at: usize) -> &[u8]
    requires { at + 255 ≤ length bytes.now }
    ensures bytes { result.now ≡ take 255 (drop at bytes.now) }
    ensures len { length result.now ≡ 255 }
{
    &bytes[at..at + 255]
}

/// The last bytes of a packet.
fn back(bytes: &[u8], at: usize) -> &[u8]
    requires { at ≤ length bytes.now }
    ensures { result.now ≡ drop at bytes.now }
{
    &bytes[at..]
}

/// One packet more, for whose pages there is room.
pub(crate) fn add_packet(
    serial: u32,
    held: &mut Held,
    ready: &mut Vec<u8>,
    bytes: &[u8],
    granule: u64,
    least: Option<usize>,
)
    requires room { IsRoomy (length ready.old.items) (vec_capacity ready.old) held.old (length bytes.now / 255 + 1) (length bytes.now) }
    ensures all { (last : ℕ) (more : List Segment) → ready.new.items ++ pages_from serial last held.new more
        ≡ ready.old.items ++ pages_from serial last held.old (packet_segments bytes.now granule least ++ more) }
    ensures shut { least ≡ Some 0 → held.new.closed ≡ true }
    ensures there { 0 < length held.new.lacing }
{
    let mut at = 0usize;
    while bytes.len() - at >= 255 {
        add(serial, held, ready, front(bytes, at), None, None);
        at += 255;
    }
    add(serial, held, ready, back(bytes, at), Some(granule), least);
}
