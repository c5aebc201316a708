// How the modes of a frame are coded (Theora I, 7.4).
ghost use Rattle.std.specs.Prelude.{◌≡◌, ◌+◌, ◌<◌, ◌≤◌, ◌==◌, IfOk, IfSome, length};
ghost use Rattle.std.specs.List.{list_any, position};
ghost use Rattle.vid_base.specs.Reading.{Gives, SameEnd, field};
ghost use Rattle.vid_base.specs.Items.{items};
ghost use Rattle.thr_modes.specs.Modes.{mode_with, by_rank, own_alphabet, coding_of, rank_in, mode_in};
ghost use Rattle.thr_modes.specs.Views.{mode_form};

use crate::field::read_field;
use vid_base::{BitReader, PacketFault};

/// How a mode is coded: by its rank in a list of the eight modes, or as a number of 3 bits.
#[derive(Clone, Copy)]
pub enum ModeCoding {
    Ranked([u8; 8]),
    Plain,
}

/// The modes by rank under schemes 1 to 6.
static ALPHABETS: [[u8; 8]; 6] = [
    [3, 4, 2, 0, 1, 5, 6, 7],
    [3, 4, 0, 2, 1, 5, 6, 7],
    [3, 2, 4, 0, 1, 5, 6, 7],
    [3, 2, 0, 4, 1, 5, 6, 7],
    [0, 3, 4, 2, 1, 5, 6, 7],
    [0, 5, 3, 4, 2, 1, 6, 7],
];

/// The ranks of modes 0 to 7.
#[tactic(auto, using(crate::proofs::EachLemmas::item_more, crate::proofs::EachLemmas::item_fault, crate::proofs::EachLemmas::items_done))]
fn read_ranks(r: &mut BitReader) -> Result<[u8; 8], PacketFault>
    ensures value { Gives (λ ranks. ranks) result r.new.left (items (field 3) 8 r.old.left) }
    ensures end { SameEnd r.old r.new }
{
    let mut ranks = [0u8; 8];
    'ranks: for mode in 0..8usize {
        ranks[mode] = read_field(r, 3)?;
    }
    Ok(ranks)
}

/// Where a rank stands.
fn place_of(ranks: &[u8], rank: u8) -> Option<usize>
    ensures value { result ≡ position (λ other. other == rank) ranks.now }
    ensures within { IfSome result (λ place. place < length ranks.now) }
{
    ranks.iter().position(|other| *other == rank)
}

/// The mode that has a rank, or 8.
fn mode_with(ranks: &[u8; 8], rank: u8) -> u8
    ensures { result ≡ mode_with ranks.now rank }
{
    match place_of(ranks, rank) {
        Some(mode) => mode as u8,
        None => 8,
    }
}

/// Whether a rank is missing.
fn has_gap(alphabet: &[u8]) -> bool
    ensures { result ≡ list_any (λ mode. mode == 8) alphabet.now }
{
    alphabet.iter().any(|mode| *mode == 8)
}

/// The modes by rank. A rank that is missing is seen when all eight were read.
#[tactic(auto, unfolding(crate::specs::Modes::own_alphabet))]
fn read_alphabet(r: &mut BitReader) -> Result<[u8; 8], PacketFault>
    ensures value { Gives (λ alphabet. alphabet) result r.new.left (own_alphabet r.old.left) }
    ensures end { SameEnd r.old r.new }
{
    let ranks = read_ranks(r)?;
    let alphabet = [
        mode_with(&ranks, 0),
        mode_with(&ranks, 1),
        mode_with(&ranks, 2),
        mode_with(&ranks, 3),
        mode_with(&ranks, 4),
        mode_with(&ranks, 5),
        mode_with(&ranks, 6),
        mode_with(&ranks, 7),
    ];
    if has_gap(&alphabet) {
        return Err(PacketFault::BadAlphabet);
    }
    Ok(alphabet)
}

/// How modes are coded under a scheme, 0 to 7.
#[tactic(auto, unfolding(crate::specs::Modes::coding_of))]
pub fn read_coding(r: &mut BitReader, scheme: u32) -> Result<ModeCoding, PacketFault>
    requires { scheme < 8 }
    ensures value { Gives mode_form result r.new.left (coding_of scheme r.old.left) }
    ensures end { SameEnd r.old r.new }
{
    match scheme {
        0 => Ok(ModeCoding::Ranked(read_alphabet(r)?)),
        7 => Ok(ModeCoding::Plain),
        _ => Ok(ModeCoding::Ranked(ALPHABETS[scheme as usize - 1])),
    }
}

/// A rank: bits 1 and a bit 0, or seven bits 1.
#[tactic(auto, using(crate::proofs::RankLemmas::rank_one, crate::proofs::RankLemmas::rank_fault, crate::proofs::RankLemmas::rank_zero, crate::proofs::RankLemmas::rank_seven))]
fn read_rank(r: &mut BitReader) -> Result<usize, PacketFault>
    ensures value { Gives (λ rank. rank) result r.new.left (rank_in 7 r.old.left) }
    ensures small { IfOk result (λ rank. rank < 8) }
    ensures end { SameEnd r.old r.new }
{
    'bits: for rank in 0..7usize {
        if !r.bit()? {
            return Ok(rank);
        }
    }
    Ok(7)
}

/// A mode.
#[tactic(auto, unfolding(crate::specs::Modes::mode_in))]
pub fn read_mode(r: &mut BitReader, coding: &ModeCoding) -> Result<u8, PacketFault>
    ensures value { Gives (λ mode. mode) result r.new.left (mode_in (mode_form coding.now) r.old.left) }
    ensures end { SameEnd r.old r.new }
{
    match coding {
        ModeCoding::Ranked(alphabet) => Ok(alphabet[read_rank(r)?]),
        ModeCoding::Plain => read_field(r, 3),
    }
}
