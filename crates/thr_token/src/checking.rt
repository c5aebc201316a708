// Tokens are checked and no coefficient is kept: which block of its plane a token is for makes no difference to those behind
// it, so it is enough to know how many blocks stand at each place (own).
ghost use Rattle.std.specs.Prelude.{◌≡◌, ◌+◌, ◌%◌, ◌++◌, ◌<◌, ◌≤◌, [], ℕ, List, IfErr, OnOk, Err, get_or, length, set, true};
ghost use Rattle.std.specs.List.{count_by};
ghost use Rattle.vid_base.specs.Reading.{SameEnd};
ghost use Rattle.vid_geom.specs.CodedOrder.{order_of, plane_blocks};
ghost use Rattle.thr_token.specs.Checking.{AreBehind, AreDone, AreWaiting, Asked, HaveBegun, Stands};
ghost use Rattle.thr_token.specs.Passing.{Passes};
ghost use Rattle.thr_token.specs.Coefficients.{Progress, at_place, coefficients, places, token_in};
ghost use Rattle.thr_token.specs.Views.{as_numbers};

use crate::places::ENDED;
use crate::trees::{PlaceTrees, Trees};
use thr_huff::Forest;
use vid_base::{BitReader, PacketFault};
use vid_geom::Geom;

/// How many blocks of luma and how many others stand at each place, and how many of both have not ended.
#[derive(Clone, Copy)]
pub(crate) struct Waiting {
    luma: [u32; 64],
    chroma: [u32; 64],
    unended: usize,
}

/// How many of these blocks are coded.
fn coded(flags: &[bool]) -> usize
    ensures value { result ≡ count_by (λ coded. coded) flags.now }
    ensures few { result ≤ length flags.now }
{
    flags.iter().filter(|coded| **coded).count()
}

/// A block that was asked stands at another place, or has ended. The numbers are of blocks of one frame, so none wraps.
fn stand(waits: &mut [u32; 64], unended: &mut usize, stands: u8)
    requires { stands ≤ 64 }
    ensures stays { stands < 64 → (waits.new ≡ set waits.old stands ((get_or waits.old stands 0 + 1) % 4294967296)) × (unended.new ≡ unended.old) }
    ensures ends { 64 ≤ stands → 0 < unended.old → (waits.new ≡ waits.old) × (unended.new + 1 ≡ unended.old) }
{
    if stands < ENDED {
        let at = usize::from(stands);
        waits[at] = waits[at].wrapping_add(1);
    } else {
        *unended = unended.wrapping_sub(1);
    }
}

impl Waiting {
    /// All blocks before their first tokens.
    fn new(geom: &Geom, flags: &[bool]) -> Waiting
        requires { length flags.now ≡ length (order_of geom.now) }
        ensures { HaveBegun geom.now flags.now result }
    {
        let (lumas, chromas) = flags.split_at(4 * geom.macro_blocks() as usize);
        let in_luma = coded(lumas);
        let in_chroma = coded(chromas);
        let mut luma = [0; 64];
        let mut chroma = [0; 64];
        luma[0] = in_luma as u32;
        chroma[0] = in_chroma as u32;
        Waiting {
            luma,
            chroma,
            unended: in_luma + in_chroma,
        }
    }
}

impl PlaceTrees<'_> {
    /// The blocks of one kind that stand at the place. Coefficients go to the same 64 numbers for all of them.
    fn check_kind(
        &self,
        r: &mut BitReader,
        luma: bool,
        run: &mut usize,
        waits: &mut [u32; 64],
        unended: &mut usize,
    ) -> Result<(), PacketFault>
        ensures asked { OnOk result ((before blocks behind : List Progress) → Stands self.now.place luma waits.old unended.old before blocks behind
            → Asked (token_in self.now.all.forest.now (as_numbers self.now.all.numbers)) self.now.place luma before blocks behind run.old r.old.left waits.new unended.new run.new r.new.left) }
        ensures fault { IfErr result (λ fault. (before blocks behind : List Progress) → Stands self.now.place luma waits.old unended.old before blocks behind
            → at_place (token_in self.now.all.forest.now (as_numbers self.now.all.numbers)) self.now.place before (blocks ++ behind) run.old r.old.left ≡ Err fault) }
        ensures end { SameEnd r.old r.new }
    {
        let mut block = [0i16; 64];
        let mut bits = r.copy();
        let count = waits[usize::from(self.place)];
        'turns: for _ in 0..count {
            let others = unended.wrapping_sub(1);
            let stands = self.turn(&mut bits, luma, run, others, &mut block)?;
            stand(waits, unended, stands);
        }
        *r = bits;
        Ok(())
    }

    /// The blocks of both kinds.
    fn check_place(
        &self,
        r: &mut BitReader,
        run: &mut usize,
        waiting: &mut Waiting,
    ) -> Result<(), PacketFault>
        ensures behind { OnOk result ((lumas chromas : List Progress) → AreWaiting self.now.place waiting.old lumas chromas
            → AreBehind (token_in self.now.all.forest.now (as_numbers self.now.all.numbers)) self.now.place lumas chromas run.old r.old.left waiting.new run.new r.new.left) }
        ensures fault { IfErr result (λ fault. (lumas chromas : List Progress) → AreWaiting self.now.place waiting.old lumas chromas
            → at_place (token_in self.now.all.forest.now (as_numbers self.now.all.numbers)) self.now.place [] (lumas ++ chromas) run.old r.old.left ≡ Err fault) }
        ensures end { SameEnd r.old r.new }
    {
        let Waiting {
            luma,
            chroma,
            unended,
        } = waiting;
        self.check_kind(r, true, run, luma, unended)?;
        self.check_kind(r, false, run, chroma, unended)?;
        Ok(())
    }
}

impl Trees<'_> {
    /// The places from 1 on.
    fn check_later(
        &self,
        r: &mut BitReader,
        run: &mut usize,
        waiting: &mut Waiting,
    ) -> Result<(), PacketFault>
        ensures done { OnOk result ((lumas chromas : List Progress) → AreWaiting 1 waiting.old lumas chromas
            → AreDone (token_in self.now.forest.now (as_numbers self.now.numbers)) lumas chromas run.old r.old.left r.new.left) }
        ensures fault { IfErr result (λ fault. (lumas chromas : List Progress) → AreWaiting 1 waiting.old lumas chromas
            → places (token_in self.now.forest.now (as_numbers self.now.numbers)) 63 1 (lumas ++ chromas) run.old r.old.left ≡ Err fault) }
        ensures end { SameEnd r.old r.new }
    {
        'places: for place in 1..ENDED {
            self.at(place).check_place(r, run, waiting)?;
        }
        Ok(())
    }
}

/// Checks the tokens of a frame's blocks, as `read_tokens_with` reads them, and keeps no coefficient: the same bits are taken,
/// and the first fault is the same (Theora I, 7.7.3). Takes no memory.
pub fn check_tokens(
    r: &mut BitReader,
    forest: &Forest,
    geom: &Geom,
    flags: &[bool],
) -> Result<(), PacketFault>
    requires { length flags.now ≡ length (order_of geom.now) }
    ensures value { Passes result r.new.left (coefficients forest.now geom.now flags.now r.old.left) }
    ensures end { SameEnd r.old r.new }
{
    let mut waiting = Waiting::new(geom, flags);
    let mut run = 0;
    let first = Trees::read(r, forest, geom)?;
    first.at(0).check_place(r, &mut run, &mut waiting)?;
    let later = Trees::read(r, forest, geom)?;
    later.check_later(r, &mut run, &mut waiting)?;
    Ok(())
}
