// Granule positions of frames (Theora I, A.2.3).
ghost use Rattle.std.specs.Prelude.{◌≡◌, ◌≤◌, ◌<◌, ◌+◌, ◌-◌, ◌/◌, ◌%◌, ◌^◌, ◌↔◌, ℕ, IsNone, IfSome, IfErr};
ghost use Rattle.ogg_link.specs.Track.{granule_of};
ghost use Rattle.ogg_link.specs.Granules.{settled as settled_of, IsLater};

use crate::progress::HEADERS;
use crate::{LinkFault, State};

// The granule position of a page on which no packet ends (RFC 3533, 6).
const NO_GRANULE: u64 = u64::MAX;

// The position of a frame, which may need more than 64 bits.
fn position(base: u64, key: u64, frame: u64, shift: u8) -> u128
    requires { shift ≤ 31 }
    ensures { result ≡ granule_of base shift key frame }
{
    (u128::from(base) + u128::from(key)) * (1u128 << shift) + u128::from(frame.saturating_sub(key))
}

/// The granule position of frame `frame`, whose last key frame is `key`, where the first frame counts `base` and the lower
/// `shift` bits hold the frames since the key frame: `((base + key) << shift) + (frame - key)`. None where that is above
/// 2^64 - 2: the greatest number of 64 bits says that no packet ends on the page.
pub fn granule(base: u64, key: u32, frame: u32, shift: u8) -> Option<u64>
    requires key { key ≤ frame }
    requires shift { shift ≤ 31 }
    ensures value { IfSome result (λ position. position ≡ granule_of base shift key frame) }
    // The position of a frame near its key frame tells both, and is below that of each later frame.
    ensures back { frame - key < 2 ^ shift → IfSome result (λ position. (position / 2 ^ shift - base ≡ key) × (position % 2 ^ shift ≡ frame - key)) }
    ensures rises { frame - key < 2 ^ shift → (later_key later : ℕ) → IsLater key frame later_key later → IfSome result (λ position. position < granule_of base shift later_key later) }
    ensures none { IsNone result ↔ (2 ^ 64 - 2 < granule_of base shift key frame) }
{
    let position = position(base, u64::from(key), u64::from(frame), shift);
    if position < u128::from(NO_GRANULE) {
        Some(position as u64)
    } else {
        None
    }
}

// The granule position of the page just given, against that of the last frame that ends on it.
#[tactic(auto, unfolding(crate::specs::Granules::settled))]
pub(crate) fn settled(state: State, shift: u8) -> Result<State, LinkFault>
    requires { shift ≤ 31 }
    ensures settled { result ≡ settled_of state shift }
    ensures fault { IfErr result (λ fault. fault ≡ LinkFault.BadGranule) }
{
    if !state.settles {
        return Ok(state);
    }
    let Some(key) = state.progress.last_key else {
        return Err(LinkFault::BadGranule);
    };
    let frame = state.progress.packets.saturating_sub(HEADERS + 1);
    if let Some(base) = state.base {
        return if u128::from(state.granule) == position(base, key, frame, shift) {
            Ok(state)
        } else {
            Err(LinkFault::BadGranule)
        };
    }
    let unit = 1u64 << shift;
    if state.granule / unit < key || state.granule % unit != frame.saturating_sub(key) {
        return Err(LinkFault::BadGranule);
    }
    Ok(State {
        base: Some(state.granule / unit - key),
        ..state
    })
}
