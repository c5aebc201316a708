// A field of a few bits (Theora I, 5.2).
ghost use Rattle.std.specs.Prelude.{◌≤◌, ◌<◌, ◌^◌, IfOk};
ghost use Rattle.vid_base.specs.Reading.{Gives, SameEnd, field};

use vid_base::{BitReader, PacketFault};

/// The number of the next n bits.
pub fn read_field(r: &mut BitReader, n: u32) -> Result<u8, PacketFault>
    requires { n ≤ 8 }
    ensures value { Gives (λ number. number) result r.new.left (field n r.old.left) }
    ensures small { IfOk result (λ number. number < 2 ^ n) }
    ensures end { SameEnd r.old r.new }
{
    Ok(r.take(n)? as u8)
}
