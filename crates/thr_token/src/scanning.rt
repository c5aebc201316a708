// All blocks are asked at each place: the plain form, which wants one byte a block (Theora I, 7.7.3).
ghost use Rattle.std.specs.Prelude.{◌≡◌, [], length};
ghost use Rattle.vid_base.specs.Reading.{Gives, SameEnd};
ghost use Rattle.vid_geom.specs.CodedOrder.{order_of};
ghost use Rattle.thr_token.specs.Coefficients.{at_place, places, token_in, unended_at};
ghost use Rattle.thr_token.specs.Standing.{lumas_of, standing};
ghost use Rattle.thr_token.specs.Views.{as_numbers};

use crate::places::ENDED;
use crate::trees::{PlaceTrees, Trees};
use vid_base::{BitReader, PacketFault};

/// How many of the blocks that stand at these places have not ended.
fn unended(places: &[u8]) -> usize
    ensures { result ≡ unended_at places.now }
{
    places.iter().filter(|place| **place < ENDED).count()
}

impl PlaceTrees<'_> {
    /// All blocks at the place; the rest of the run that was active. `work` has the place of each block.
    pub(crate) fn scan(
        &self,
        r: &mut BitReader,
        active: usize,
        values: &mut [[i16; 64]],
        counts: &mut [u8],
        work: &mut [u8],
    ) -> Result<usize, PacketFault>
        requires values { length values.old ≡ length (order_of self.now.all.geom.now) }
        requires counts { length counts.old ≡ length (order_of self.now.all.geom.now) }
        requires work { length work.old ≡ length (order_of self.now.all.geom.now) }
        ensures value { Gives (λ run. (standing (lumas_of self.now.all.geom.now) work.new values.new counts.new, run)) result r.new.left
            (at_place (token_in self.now.all.forest.now (as_numbers self.now.all.numbers)) self.now.place [] (standing (lumas_of self.now.all.geom.now) work.old values.old counts.old) active r.old.left) }
        ensures end { SameEnd r.old r.new }
    {
        let place = self.place;
        let mut run = active;
        let mut open = unended(work);
        'order: for b in 0..self.all.geom.blocks() {
            let i = b as usize;
            if work[i] == place {
                let luma = self.all.is_luma(b);
                let stands = self.turn(r, luma, &mut run, open - 1, &mut values[i])?;
                open -= usize::from(stands == ENDED);
                work[i] = stands;
                counts[i] = place;
            }
        }
        Ok(run)
    }
}

impl Trees<'_> {
    /// All blocks at the places from 1 on; the rest of the run that was active.
    #[tactic(auto, using(crate::proofs::PlaceLemmas::places_more, crate::proofs::PlaceLemmas::places_fault, crate::proofs::PlaceLemmas::places_done))]
    pub(crate) fn scan_later(
        &self,
        r: &mut BitReader,
        active: usize,
        values: &mut [[i16; 64]],
        counts: &mut [u8],
        work: &mut [u8],
    ) -> Result<usize, PacketFault>
        requires values { length values.old ≡ length (order_of self.now.geom.now) }
        requires counts { length counts.old ≡ length (order_of self.now.geom.now) }
        requires work { length work.old ≡ length (order_of self.now.geom.now) }
        ensures value { Gives (λ run. (standing (lumas_of self.now.geom.now) work.new values.new counts.new, run)) result r.new.left
            (places (token_in self.now.forest.now (as_numbers self.now.numbers)) 63 1 (standing (lumas_of self.now.geom.now) work.old values.old counts.old) active r.old.left) }
        ensures end { SameEnd r.old r.new }
    {
        let mut run = active;
        'places: for place in 1..ENDED {
            run = self.at(place).scan(r, run, values, counts, work)?;
        }
        Ok(run)
    }
}
