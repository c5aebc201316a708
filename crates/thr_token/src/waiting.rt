// The blocks that have not ended are kept in a list, so that no place asks those that have (own).
ghost use Rattle.std.specs.Prelude.{◌≡◌, ◌+◌, ◌*◌, ◌^◌, ◌≤◌, ◌<◌, [], IfOk, length, map, replicate, take};
ghost use Rattle.vid_base.specs.Reading.{Gives, SameEnd};
ghost use Rattle.vid_geom.specs.CodedOrder.{order_of};
ghost use Rattle.thr_token.specs.Coefficients.{at_place, first_place, places, token_in, visit};
ghost use Rattle.thr_token.specs.Listing.{IsListing, blocks_by, listed};
ghost use Rattle.thr_token.specs.Standing.{lumas_of, progress};
ghost use Rattle.thr_token.specs.Views.{as_numbers};

use crate::places::ENDED;
use crate::trees::{PlaceTrees, Trees};
use vid_base::{BitReader, PacketFault};

/// Where a block stands, as one word.
fn word_of(b: u32, place: u8) -> u32
    requires b { b < 2 ^ 26 }
    requires place { place < 64 }
    ensures { result ≡ 64 * b + place }
{
    64 * b + u32::from(place)
}

/// The words of the coded blocks stand at the front of the list, and all counts are 0; how many words.
pub(crate) fn begin_listed(flags: &[bool], counts: &mut [u8], list: &mut [u32]) -> usize
    requires few { length flags.now < 2 ^ 26 }
    requires counts { length counts.old ≡ length flags.now }
    requires list { length list.old ≡ length flags.now }
    ensures counts { counts.new ≡ replicate (length flags.now) 0 }
    ensures open { result ≤ length list.old }
    ensures list { take result list.new ≡ listed 0 (map first_place flags.now) }
{
    let mut open = 0usize;
    'flags: for (b, coded) in flags.iter().enumerate() {
        counts[b] = 0;
        if *coded {
            list[open] = word_of(b as u32, 0);
            open += 1;
        }
    }
    open
}

impl PlaceTrees<'_> {
    /// One block, which may stand at the place; where it stands then. The rest of the run that was active is in its place.
    #[tactic(auto, unfolding(crate::specs::Coefficients::visit))]
    fn visit(
        &self,
        r: &mut BitReader,
        luma: bool,
        stands: u8,
        run: &mut usize,
        others: usize,
        block: &mut [i16; 64],
        count: &mut u8,
    ) -> Result<u8, PacketFault>
        requires { stands < 64 }
        ensures value { Gives (λ place. (progress luma place block.new count.new, run.new)) result r.new.left
            (visit (token_in self.now.all.forest.now (as_numbers self.now.all.numbers)) self.now.place others (progress luma stands block.old count.old) run.old r.old.left) }
        ensures small { IfOk result (λ place. place ≤ 64) }
        ensures end { SameEnd r.old r.new }
    {
        if stands != self.place {
            return Ok(stands);
        }
        let after = self.turn(r, luma, run, others, block)?;
        *count = self.place;
        Ok(after)
    }

    /// The blocks of a list at the place; the rest of the run that was active, and how many of them have not ended then:
    /// those stand at the front of the list.
    pub(crate) fn at_place(
        &self,
        r: &mut BitReader,
        active: usize,
        values: &mut [[i16; 64]],
        counts: &mut [u8],
        list: &mut [u32],
    ) -> Result<(usize, usize), PacketFault>
        requires values { length values.old ≡ length (order_of self.now.all.geom.now) }
        requires counts { length counts.old ≡ length (order_of self.now.all.geom.now) }
        requires list { IsListing (length (lumas_of self.now.all.geom.now)) list.old }
        ensures value { Gives (λ x. (blocks_by (lumas_of self.now.all.geom.now) (take x.1 list.new) values.new counts.new, x.0)) result r.new.left
            (at_place (token_in self.now.all.forest.now (as_numbers self.now.all.numbers)) self.now.place [] (blocks_by (lumas_of self.now.all.geom.now) list.old values.old counts.old) active r.old.left) }
        ensures list { IfOk result (λ x. (x.1 ≤ length list.old) × IsListing (length (lumas_of self.now.all.geom.now)) (take x.1 list.new)) }
        ensures end { SameEnd r.old r.new }
    {
        let mut bits = r.copy();
        let mut run = active;
        let mut kept = 0;
        'list: for k in 0..list.len() {
            let word = list[k];
            let b = word / 64;
            let i = b as usize;
            let others = kept + (list.len() - k - 1);
            let stands = self.visit(
                &mut bits,
                self.all.is_luma(b),
                (word % 64) as u8,
                &mut run,
                others,
                &mut values[i],
                &mut counts[i],
            )?;
            if stands < ENDED {
                list[kept] = word_of(b, stands);
                kept += 1;
            }
        }
        *r = bits;
        Ok((run, kept))
    }
}

impl Trees<'_> {
    /// The blocks of a list at the places from 1 on; the rest of the run that was active, and how many of them have not ended
    /// then.
    #[tactic(auto, using(crate::proofs::PlaceLemmas::places_more, crate::proofs::PlaceLemmas::places_fault, crate::proofs::PlaceLemmas::places_done))]
    pub(crate) fn later(
        &self,
        r: &mut BitReader,
        active: usize,
        values: &mut [[i16; 64]],
        counts: &mut [u8],
        list: &mut [u32],
    ) -> Result<(usize, usize), PacketFault>
        requires values { length values.old ≡ length (order_of self.now.geom.now) }
        requires counts { length counts.old ≡ length (order_of self.now.geom.now) }
        requires list { IsListing (length (lumas_of self.now.geom.now)) list.old }
        ensures value { Gives (λ x. (blocks_by (lumas_of self.now.geom.now) (take x.1 list.new) values.new counts.new, x.0)) result r.new.left
            (places (token_in self.now.forest.now (as_numbers self.now.numbers)) 63 1 (blocks_by (lumas_of self.now.geom.now) list.old values.old counts.old) active r.old.left) }
        ensures end { SameEnd r.old r.new }
    {
        let mut run = active;
        let mut open = list.len();
        'places: for place in 1..ENDED {
            let (rest, kept) = self
                .at(place)
                .at_place(r, run, values, counts, &mut list[..open])?;
            run = rest;
            open = kept;
        }
        Ok((run, open))
    }
}
