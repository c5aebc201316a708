// Tokens are read place by place and block by block (Theora I, 7.7.3).
ghost use Rattle.std.specs.Prelude.{◌≡◌, ℕ, ◌+◌, ◌<◌, ◌≤◌, [], IfOk, length};
ghost use Rattle.vid_base.specs.Reading.{Gives, SameEnd};
ghost use Rattle.vid_geom.specs.CodedOrder.{order_of};
ghost use Rattle.thr_token.specs.Coefficients.{at_place, places, token_in, turn, unended_at};
ghost use Rattle.thr_token.specs.Standing.{lumas_of, progress, standing};
ghost use Rattle.thr_token.specs.Views.{as_numbers};

use crate::meaning::Meaning;
use crate::trees::{PlaceTrees, Trees};
use vid_base::{BitReader, PacketFault};

/// The place of a block that has ended: it is past the last.
pub(crate) const ENDED: u8 = 64;

impl PlaceTrees<'_> {
    /// A block that stands at the place is ended by the run that is active, or else takes a token; where it stands then.
    /// What is left of the run is in its place, since a pair of both would go through memory. `others` counts the other blocks that have not ended.
    #[tactic(auto, unfolding(crate::specs::Coefficients::turn, crate::specs::Coefficients::taken))]
    pub(crate) fn turn(
        &self,
        r: &mut BitReader,
        luma: bool,
        run: &mut usize,
        others: usize,
        block: &mut [i16; 64],
    ) -> Result<u8, PacketFault>
        ensures value { (count : ℕ) → Gives (λ stands. (progress luma stands block.new self.now.place, run.new)) result r.new.left
            (turn (token_in self.now.all.forest.now (as_numbers self.now.all.numbers)) self.now.place others (progress luma self.now.place block.old count) run.old r.old.left) }
        ensures small { IfOk result (λ stands. stands ≤ 64) }
        ensures end { SameEnd r.old r.new }
    {
        if *run > 0 {
            *run -= 1;
            return Ok(ENDED);
        }
        let place = self.place;
        match self.read(r, luma)? {
            Meaning::EndRun(0) => {
                *run = others;
                Ok(ENDED)
            }
            Meaning::EndRun(blocks) => {
                *run = blocks as usize - 1;
                Ok(ENDED)
            }
            Meaning::ZeroRun(zeros) => {
                if zeros > 64 - u32::from(place) {
                    return Err(PacketFault::TokenPastEnd);
                }
                Ok(place + zeros as u8)
            }
            Meaning::Value { zeros, value } => {
                if zeros >= 64 - u32::from(place) {
                    return Err(PacketFault::TokenPastEnd);
                }
                let at = place + zeros as u8;
                block[usize::from(at)] = value;
                Ok(at + 1)
            }
        }
    }
}
