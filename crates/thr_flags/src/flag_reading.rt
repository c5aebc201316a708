// The coded flags of a frame are read (Theora I, 7.3).
ghost use Rattle.std.specs.Prelude.{◌≡◌, ◌≤◌, ◌+◌, ◌*◌, ◌++◌, [], length, take, OnErr, OnOk};
ghost use Rattle.vid_base.specs.Reading.{Gives, GivesOrNoMem, KeptOnNoMem, SameEnd};
ghost use Rattle.vid_geom.specs.CodedOrder.{order_of, superblocks};
ghost use Rattle.thr_flags.specs.Flags.{count_whole, flags_of, partial_blocks, sizes_of, spread};

use crate::reading::{fill_run, read_long_in, read_short_in, size};
use vid_base::{BitReader, PacketFault, Refusal};
use vid_geom::Geom;

/// How many superblocks are not partly coded.
fn count_whole(partly: &[bool]) -> usize
    ensures value { result ≡ count_whole partly.now }
    ensures most { result ≤ length partly.now }
{
    partly.iter().filter(|partial| !**partial).count()
}

/// How many blocks the partly coded superblocks have.
fn partial_blocks(geom: &Geom, partly: &[bool]) -> usize
    requires { length partly.now ≡ length (superblocks geom.now) }
    ensures value { result ≡ partial_blocks (sizes_of geom.now) partly.now }
    ensures most { result ≤ length (order_of geom.now) }
{
    let mut count = 0u32;
    'superblocks: for s in 0..geom.superblocks() {
        let (first, past) = geom.superblock(s);
        if partly[s as usize] {
            count += past - first;
        }
    }
    count as usize
}

/// Sets the values from a place on to these.
fn copy_values(into: &mut [bool], at: usize, values: &[bool])
    requires { at + length values.now ≤ length into.old }
    ensures { take (at + length values.now) into.new ≡ take at into.old ++ values.now }
{
    into[at..at + values.len()].copy_from_slice(values);
}

/// Sets the flags by what the three strings said.
fn spread(geom: &Geom, partly: &[bool], fully: &[bool], single: &[bool], flags: &mut [bool])
    requires partly { length partly.now ≡ length (superblocks geom.now) }
    requires fully { length fully.now ≡ count_whole partly.now }
    requires single { length single.now ≡ partial_blocks (sizes_of geom.now) partly.now }
    requires flags { length flags.old ≡ length (order_of geom.now) }
    ensures { flags.new ≡ spread (sizes_of geom.now) partly.now fully.now single.now }
{
    let mut fully_at = 0usize;
    let mut single_at = 0usize;
    'superblocks: for s in 0..geom.superblocks() {
        let (first, past) = geom.superblock(s);
        let size = (past - first) as usize;
        if partly[s as usize] {
            copy_values(flags, first as usize, &single[single_at..single_at + size]);
            single_at += size;
        } else {
            fill_run(flags, first as usize, size, fully[fully_at]);
            fully_at += 1;
        }
    }
}

/// Reads which blocks of a frame are coded into a slice that has an entry for each block in coded order; takes no memory
/// (Theora I, 7.3). The first fault is `Ended`, or `RunTooLong` where a run passes the end of one of the three strings; then
/// the flags are open. The entries of `work`, two for each superblock and one for each block, are open afterwards.
#[tactic(auto, unfolding(crate::specs::Flags::flags_of))]
pub fn read_flags_in(
    r: &mut BitReader,
    geom: &Geom,
    flags: &mut [bool],
    work: &mut [bool],
) -> Result<(), PacketFault>
    requires flags { length flags.old ≡ length (order_of geom.now) }
    requires work { 2 * length (superblocks geom.now) + length (order_of geom.now) ≤ length work.old }
    ensures value { Gives (λ _. flags.new) result r.new.left (flags_of geom.now r.old.left) }
    ensures end { SameEnd r.old r.new }
{
    let (partly, rest) = work.split_at_mut(geom.superblocks() as usize);
    read_long_in(r, partly)?;
    let (fully, rest) = rest.split_at_mut(count_whole(partly));
    read_long_in(r, fully)?;
    let (single, _) = rest.split_at_mut(partial_blocks(geom, partly));
    read_short_in(r, single)?;
    spread(geom, partly, fully, single, flags);
    Ok(())
}

/// Reads which blocks of a frame are coded, one flag for each block in coded order, into the list, in place
/// of those that it has (Theora I, 7.3). The first fault is `Ended`, or `RunTooLong` where a run passes the end of one of the three strings.
/// After a refusal the list is empty; after `NoMem` the reader stands where it stood.
pub fn read_flags(r: &mut BitReader, geom: &Geom, flags: &mut Vec<bool>) -> Result<(), Refusal>
    ensures value { GivesOrNoMem (λ _. flags.new.items) result r.new.left (flags_of geom.now r.old.left) }
    ensures sized { OnOk result (length flags.new.items ≡ length (order_of geom.now)) }
    ensures emptied { OnErr result (flags.new.items ≡ []) }
    ensures memory { KeptOnNoMem result r.old r.new }
    ensures end { SameEnd r.old r.new }
{
    let blocks = geom.blocks() as usize;
    size(flags, 2 * (blocks + geom.superblocks() as usize))?;
    // The strings are read behind the flags.
    let (into, work) = flags.split_at_mut(blocks);
    if let Err(fault) = read_flags_in(r, geom, into, work) {
        flags.clear();
        return Err(Refusal::Bad(fault));
    }
    flags.truncate(blocks);
    Ok(())
}
