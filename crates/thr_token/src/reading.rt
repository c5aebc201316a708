// The coefficients of a frame are read (Theora I, 7.7.3).
ghost use Rattle.std.specs.Prelude.{◌≡◌, [], length, map, pos, replicate, Err, OnErr, OnOk};
ghost use Rattle.vid_base.specs.Reading.{Gives, GivesOrNoMem, SameEnd};
ghost use Rattle.vid_base.specs.declared.fault.Refusal.TheVariants.{NoMem};
ghost use Rattle.vid_geom.specs.CodedOrder.{order_of};
ghost use Rattle.thr_token.specs.Coefficients.{coefficients, first_place};

use crate::Coeffs;
use crate::places::ENDED;
use crate::trees::Trees;
use crate::waiting::begin_listed;
use thr_huff::Forest;
use vid_base::{BitReader, PacketFault, Refusal};
use vid_geom::Geom;

/// Reads the coefficients of a frame's blocks, 64 a block in zigzag order, and the count of each into slices that have an
/// entry for each block in coded order; takes no memory (Theora I, 7.7.3). The flags say which blocks are coded: any other
/// has only zeros, and its count is 0. All values are to be 0 before, and only those of coded blocks are written. The first
/// fault is `Ended`, or `TokenPastEnd` where a token whose further bits were read passes place 63 of its block; then the
/// values and the counts are open. The entries of `list`, one for each block, are open afterwards.
#[tactic(auto, using(crate::proofs::ReadingLemmas::listed_untouched_is), unfolding(crate::specs::Coefficients::coefficients, crate::specs::Coefficients::places))]
pub fn read_tokens_with(
    r: &mut BitReader,
    forest: &Forest,
    geom: &Geom,
    flags: &[bool],
    values: &mut [[i16; 64]],
    counts: &mut [u8],
    list: &mut [u32],
) -> Result<(), PacketFault>
    requires flags { length flags.now ≡ length (order_of geom.now) }
    requires blank { values.old ≡ replicate (length (order_of geom.now)) (replicate 64 (pos 0)) }
    requires counts { length counts.old ≡ length (order_of geom.now) }
    requires list { length list.old ≡ length (order_of geom.now) }
    ensures value { Gives (λ _. (values.new, counts.new)) result r.new.left (coefficients forest.now geom.now flags.now r.old.left) }
    ensures end { SameEnd r.old r.new }
{
    let open = begin_listed(flags, counts, list);
    let first = Trees::read(r, forest, geom)?;
    let (run, open) = first
        .at(0)
        .at_place(r, 0, values, counts, &mut list[..open])?;
    let later = Trees::read(r, forest, geom)?;
    later.later(r, run, values, counts, &mut list[..open])?;
    Ok(())
}

/// All blocks before their first tokens.
fn begin(flags: &[bool], values: &mut [[i16; 64]], counts: &mut [u8], work: &mut [u8])
    requires values { length values.old ≡ length flags.now }
    requires counts { length counts.old ≡ length flags.now }
    requires work { length work.old ≡ length flags.now }
    ensures values { values.new ≡ replicate (length flags.now) (replicate 64 (pos 0)) }
    ensures counts { counts.new ≡ replicate (length flags.now) 0 }
    ensures work { work.new ≡ map first_place flags.now }
{
    'flags: for (b, coded) in flags.iter().enumerate() {
        values[b] = [0; 64];
        counts[b] = 0;
        work[b] = if *coded { 0 } else { ENDED };
    }
}

/// Reads them with one byte a block for work, into values that need not be 0 before, otherwise as `read_tokens_with`, which
/// is faster. The entries of `work` are open afterwards.
#[tactic(auto, using(crate::proofs::ReadingLemmas::untouched_is, crate::proofs::ReadingLemmas::results_is), unfolding(crate::specs::Coefficients::coefficients, crate::specs::Coefficients::places))]
pub fn read_tokens_in(
    r: &mut BitReader,
    forest: &Forest,
    geom: &Geom,
    flags: &[bool],
    values: &mut [[i16; 64]],
    counts: &mut [u8],
    work: &mut [u8],
) -> Result<(), PacketFault>
    requires flags { length flags.now ≡ length (order_of geom.now) }
    requires values { length values.old ≡ length (order_of geom.now) }
    requires counts { length counts.old ≡ length (order_of geom.now) }
    requires work { length work.old ≡ length (order_of geom.now) }
    ensures value { Gives (λ _. (values.new, counts.new)) result r.new.left (coefficients forest.now geom.now flags.now r.old.left) }
    ensures end { SameEnd r.old r.new }
{
    begin(flags, values, counts, work);
    let first = Trees::read(r, forest, geom)?;
    let run = first.at(0).scan(r, 0, values, counts, work)?;
    let later = Trees::read(r, forest, geom)?;
    later.scan_later(r, run, values, counts, work)?;
    Ok(())
}

/// Reads the coefficients of a frame's blocks and their counts into the lists, which are emptied first, otherwise as
/// `read_tokens_in`. After a refusal the lists are empty; after `NoMem` the reader stands where it stood.
pub fn read_tokens(
    r: &mut BitReader,
    forest: &Forest,
    geom: &Geom,
    flags: &[bool],
    into: &mut Coeffs,
) -> Result<(), Refusal>
    requires { length flags.now ≡ length (order_of geom.now) }
    ensures value { GivesOrNoMem (λ _. (into.new.values.items, into.new.counts.items)) result r.new.left (coefficients forest.now geom.now flags.now r.old.left) }
    ensures sized { OnOk result ((length into.new.values.items ≡ length (order_of geom.now)) × (length into.new.counts.items ≡ length (order_of geom.now))) }
    ensures end { SameEnd r.old r.new }
    ensures emptied { OnErr result ((into.new.values.items ≡ []) × (into.new.counts.items ≡ [])) }
    ensures memory { result ≡ Err NoMem → r.new ≡ r.old }
{
    let mut list = into.size(geom.blocks() as usize)?;
    if let Err(fault) = read_tokens_with(
        r,
        forest,
        geom,
        flags,
        &mut into.values,
        &mut into.counts,
        &mut list,
    ) {
        into.clear();
        return Err(Refusal::Bad(fault));
    }
    Ok(())
}
