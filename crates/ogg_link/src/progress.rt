// How far the packets of a track have come behind a page (RFC 3533, 6; Theora I, A.2).
ghost use Rattle.std.specs.Prelude.{◌≡◌, ◌++◌, ℕ, List, true, false, Some, None, sum, length};
ghost use Rattle.ogg_page.specs.Packets.{Piece, segments};
ghost use Rattle.ogg_page.specs.Page.{HasShape};
ghost use Rattle.ogg_link.specs.Track.{is_key};
ghost use Rattle.ogg_link.specs.Progress.{after_piece, after_pieces, counted, Holds, is_alone as is_alone_in, is_crowded as is_crowded_in};

use crate::state::{Counted, Progress};

// Packets before the first frame: identification, comment and setup header.
pub(crate) const HEADERS: u64 = 3;

/// Whether a packet that begins with these bytes is a key frame: it has a byte, of which the first two bits are 0
/// (Theora I, 7.1).
pub fn is_key(bytes: &[u8]) -> bool
    ensures { result ≡ is_key bytes.now }
{
    match bytes.first() {
        Some(byte) => *byte < 64,
        None => false,
    }
}

impl Progress {
    /// A piece of a packet more: behind it, how far the packets have come, and what the packet's end tells where it ends with
    /// the piece. So a walk counts the pieces of a page. `front` is the unfinished packet before the piece.
    pub fn with_piece(self, bytes: &[u8], ends: bool) -> (Progress, Option<Counted>)
        ensures behind { result.0 ≡ after_piece self (record { bytes = bytes.now; ends = ends }) }
        ensures counted { ends ≡ true → (front : List ℕ) → Holds self front → result.1 ≡ Some (counted self.packets self.last_key (front ++ bytes.now)) }
        ensures goes_on { ends ≡ false → result.1 ≡ None }
    {
        let key = if self.unfinished {
            self.key
        } else {
            is_key(bytes)
        };
        if !ends {
            let behind = Progress {
                unfinished: true,
                key,
                ..self
            };
            return (behind, None);
        }
        let last_key = if key && self.packets >= HEADERS {
            Some(self.packets - HEADERS)
        } else {
            self.last_key
        };
        let behind = Progress {
            packets: self.packets.saturating_add(1),
            unfinished: false,
            key: false,
            last_key,
        };
        let counted = Counted {
            number: self.packets,
            key,
            last_key,
        };
        (behind, Some(counted))
    }
}

// All the segments of a page more.
#[tactic(auto, unfolding(crate::specs::Progress::after_pieces, ogg_page::specs::Packets::segments))]
pub(crate) fn after_page(known: Progress, lacing: &[u8], body: &[u8]) -> Progress
    requires { sum lacing.now ≡ length body.now }
    ensures { result ≡ after_pieces known (segments lacing.now body.now) }
{
    let mut known = known;
    let mut rest = body;
    'lacing: for size in lacing {
        let (bytes, others) = rest.split_at(usize::from(*size));
        (known, _) = known.with_piece(bytes, *size < 255);
        rest = others;
    }
    known
}

// Whether the lacing values are those of one whole packet.
#[tactic(auto, unfolding(crate::specs::Progress::is_alone))]
pub(crate) fn is_alone(lacing: &[u8]) -> bool
    ensures { result ≡ is_alone_in lacing.now }
{
    'lacing: for (i, size) in lacing.iter().enumerate() {
        if *size < 255 {
            return i + 1 == lacing.len();
        }
    }
    false
}

// Whether lacing values follow the end of the setup header.
#[tactic(auto, unfolding(crate::specs::Progress::is_crowded))]
pub(crate) fn is_crowded(packets: u64, lacing: &[u8]) -> bool
    ensures { result ≡ is_crowded_in packets lacing.now }
{
    let mut packets = packets;
    'lacing: for (i, size) in lacing.iter().enumerate() {
        if *size < 255 {
            if packets == HEADERS - 1 {
                return i + 1 < lacing.len();
            }
            packets = packets.saturating_add(1);
        }
    }
    false
}
