// The line before the planes of a frame (own).
ghost use Rattle.std.specs.Prelude.{◌≡◌, ◌<◌, ◌≤◌, IfOk, length};
ghost use Rattle.y4m_io.specs.Reading.{begins_frame, line_in};

use crate::fault::Y4mWhy;
use crate::place::place_of;

/// The most bytes of a frame's line with its line feed.
pub(crate) const LONGEST_LINE: usize = 256;

// Whether a text begins as a frame's line does.
fn begins_frame(front: &[u8]) -> bool
    ensures { result ≡ begins_frame front.now }
{
    front.starts_with(b"FRAME\n") || front.starts_with(b"FRAME ")
}

/// How many bytes the line takes at the front of a text, of which this is as much as a line may take.
#[tactic(auto, unfolding(crate::specs::Reading::line_in))]
pub(crate) fn read_line(front: &[u8]) -> Result<usize, Y4mWhy>
    ensures value { result ≡ line_in front.now }
    ensures within { IfOk result (λ line. line ≤ length front.now) }
{
    if !begins_frame(front) {
        return Err(Y4mWhy::Frame);
    }
    match place_of(b'\n', front) {
        Some(end) => Ok(end + 1),
        None if front.len() < LONGEST_LINE => Err(Y4mWhy::Short),
        None => Err(Y4mWhy::Line),
    }
}
