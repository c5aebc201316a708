// The coded flags of a frame are written (Theora I, 7.3).
ghost use Rattle.std.specs.Prelude.{◌≡◌, ◌+◌, ◌*◌, ◌<◌, ◌≤◌, not, length, slice_get, OnErr, OnOk, Some};
ghost use Rattle.std.specs.List.{list_any};
ghost use Rattle.vid_geom.specs.CodedOrder.{order_of, superblocks};
ghost use Rattle.thr_flags.specs.Flags.{flags_of};
ghost use Rattle.thr_flags.specs.WrittenFlags.{fully_in, is_partial, partly_in, parts_of, single_in};
ghost use Rattle.vid_base.specs.Writing.{Grows, ReadsBack};
ghost use Rattle.thr_flags.specs.Writing.{AddsString, most_bits};
ghost use Rattle.thr_flags.specs.RunStrings.{Long, Short};

use crate::runs::RunCode;
use crate::writing::{close, push};
use vid_base::{BitWriter, NoMem};
use vid_geom::Geom;

/// Whether some of the blocks are coded.
fn has_coded(part: &[bool]) -> bool
    ensures { result ≡ list_any (λ coded. coded) part.now }
{
    part.iter().any(|coded| *coded)
}

/// Whether some of the blocks are not coded.
fn has_uncoded(part: &[bool]) -> bool
    ensures { result ≡ list_any not part.now }
{
    part.iter().any(|coded| !*coded)
}

/// Whether a superblock with these flags is partly coded.
#[tactic(auto, unfolding(crate::specs::WrittenFlags::is_partial))]
fn is_partial(part: &[bool]) -> bool
    ensures { result ≡ is_partial part.now }
{
    has_coded(part) && has_uncoded(part)
}

/// The flags of a superblock.
#[tactic(auto, using(crate::proofs::PartLemmas::part_at))]
fn part_of<'a>(geom: &Geom, flags: &'a [bool], s: u32) -> &'a [bool]
    requires s { s < length (superblocks geom.now) }
    requires flags { length flags.now ≡ length (order_of geom.now) }
    ensures value { slice_get (parts_of geom.now flags.now) s ≡ Some result.now }
    ensures some { 0 < length result.now }
{
    let (first, past) = geom.superblock(s);
    &flags[first as usize..past as usize]
}

/// Writes which superblocks are partly coded.
fn write_partly(w: &mut BitWriter, geom: &Geom, flags: &[bool]) -> Result<(), NoMem>
    requires { length flags.now ≡ length (order_of geom.now) }
    ensures reads_back { OnOk result (AddsString Long (partly_in (parts_of geom.now flags.now)) w.old w.new) }
    ensures few { OnOk result (length w.new ≤ length w.old + most_bits (length (partly_in (parts_of geom.now flags.now)))) }
    ensures memory { OnErr result (Grows w.old w.new) }
{
    let mut last = None;
    'superblocks: for s in 0..geom.superblocks() {
        let partial = is_partial(part_of(geom, flags, s));
        last = push(w, RunCode::Long, last, partial)?;
    }
    close(w, RunCode::Long, last)
}

/// Writes whether each other superblock is fully coded.
fn write_fully(w: &mut BitWriter, geom: &Geom, flags: &[bool]) -> Result<(), NoMem>
    requires { length flags.now ≡ length (order_of geom.now) }
    ensures reads_back { OnOk result (AddsString Long (fully_in (parts_of geom.now flags.now)) w.old w.new) }
    ensures few { OnOk result (length w.new ≤ length w.old + most_bits (length (fully_in (parts_of geom.now flags.now)))) }
    ensures memory { OnErr result (Grows w.old w.new) }
{
    let mut last = None;
    'superblocks: for s in 0..geom.superblocks() {
        let part = part_of(geom, flags, s);
        if !is_partial(part) {
            last = push(w, RunCode::Long, last, part[0])?;
        }
    }
    close(w, RunCode::Long, last)
}

/// Writes which blocks of the partly coded superblocks are coded.
fn write_single(w: &mut BitWriter, geom: &Geom, flags: &[bool]) -> Result<(), NoMem>
    requires { length flags.now ≡ length (order_of geom.now) }
    ensures reads_back { OnOk result (AddsString Short (single_in (parts_of geom.now flags.now)) w.old w.new) }
    ensures few { OnOk result (length w.new ≤ length w.old + most_bits (length (single_in (parts_of geom.now flags.now)))) }
    ensures memory { OnErr result (Grows w.old w.new) }
{
    let mut last = None;
    'superblocks: for s in 0..geom.superblocks() {
        let part = part_of(geom, flags, s);
        if is_partial(part) {
            'values: for coded in part {
                last = push(w, RunCode::Short, last, *coded)?;
            }
        }
    }
    close(w, RunCode::Short, last)
}

/// Writes which blocks of a frame are coded, one flag for each block in coded order (Theora I, 7.3). After `NoMem` the bits
/// that were there are followed by others.
#[tactic(auto, using(crate::proofs::PartLemmas::flags_back))]
pub fn write_flags(w: &mut BitWriter, geom: &Geom, flags: &[bool]) -> Result<(), NoMem>
    requires { length flags.now ≡ length (order_of geom.now) }
    ensures reads_back { OnOk result (ReadsBack (flags_of geom.now) flags.now w.old w.new) }
    ensures few { OnOk result (length w.new ≤ length w.old + (3 + 4 * length (superblocks geom.now) + 2 * length (order_of geom.now))) }
    ensures memory { OnErr result (Grows w.old w.new) }
{
    write_partly(w, geom, flags)?;
    write_fully(w, geom, flags)?;
    write_single(w, geom, flags)
}
