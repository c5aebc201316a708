// Limits of the loop filter (Theora I, 6.4.1).
ghost use Rattle.vid_base.specs.Reading.{GivesOrEnded, SameEnd};
ghost use Rattle.thr_quant.specs.Limits.{AreLimits, limits_of};

use crate::numbers::read_bytes;
use vid_base::{BitReader, Ended};

/// The limit of the loop filter at each quantiser index, below 128.
#[derive(Clone, Copy, Debug, PartialEq, Eq)]
pub struct Limits {
    pub of: [u8; 64],
    ghost small: { AreLimits of },
}

/// Reads the width of the limits in 3 bits, and 64 limits of that width (Theora I, 6.4.1).
#[tactic(auto, unfolding(crate::specs::Limits::limits_of))]
pub fn read_limits(r: &mut BitReader) -> Result<Limits, Ended>
    ensures value { GivesOrEnded (λ limits. limits.of) result r.new.left (limits_of r.old.left) }
    ensures end { SameEnd r.old r.new }
{
    let width = r.take(3)?;
    let of = read_bytes(r, width)?;
    Ok(Limits { of })
}
