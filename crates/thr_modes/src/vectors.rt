// Reading the motion vectors of the blocks of a frame (Theora I, 7.5).
ghost use Rattle.std.specs.Prelude.{◌≡◌, [], OnErr, OnOk, length, map};
ghost use Rattle.vid_base.specs.Reading.{Gives, GivesOrNoMem, KeptOnNoMem, SameEnd};
ghost use Rattle.vid_geom.specs.CodedOrder.{order_of};
ghost use Rattle.vid_geom.specs.MacroBlocks.{macro_blocks};
ghost use Rattle.thr_modes.specs.Vectors.{offset_of};
ghost use Rattle.thr_modes.specs.Motion.{coded_vectors, vector_coding, vectors_of};
ghost use Rattle.thr_modes.specs.Views.{vector_form};

use crate::component::VectorCoding;
use crate::luma::flags_at;
use crate::motion::{Remembered, STILL, read_motion};
use crate::placing::put_motion;
use vid_base::{BitReader, PacketFault, Refusal, Vector};
use vid_geom::Geom;

/// How vectors are coded under MVMODE.
#[tactic(auto, unfolding(crate::specs::Motion::vector_coding))]
fn vector_coding(mvmode: bool) -> VectorCoding
    ensures { vector_form result ≡ vector_coding mvmode }
{
    if mvmode {
        VectorCoding::Fixed
    } else {
        VectorCoding::Prefixed
    }
}

/// The vectors of all blocks, behind MVMODE.
fn read_coded_vectors(
    r: &mut BitReader,
    coding: VectorCoding,
    geom: &Geom,
    flags: &[bool],
    modes: &[u8],
    vectors: &mut [Vector],
) -> Result<(), PacketFault>
    requires flags { length flags.now ≡ length (order_of geom.now) }
    requires modes { length modes.now ≡ length (macro_blocks geom.now) }
    requires vectors { length vectors.old ≡ length (order_of geom.now) }
    ensures value { Gives (λ _. map offset_of vectors.new) result r.new.left (coded_vectors (vector_form coding) geom.now flags.now modes.now r.old.left) }
    ensures end { SameEnd r.old r.new }
{
    let pf = geom.shape().pf;
    let mut remembered = Remembered::empty();
    'macro_blocks: for m in 0..geom.macro_blocks() {
        let numbers = geom.macro_block(m);
        let luma = flags_at(flags, numbers.luma);
        let mode = modes[m as usize];
        let (motion, next) = read_motion(r, coding, pf, mode, luma, remembered)?;
        put_motion(vectors, &numbers, &motion);
        remembered = next;
    }
    Ok(())
}

/// Reads the vector of each block in coded order into a list that has an entry for each, for the coded flags of the
/// blocks and the modes of the macro blocks; takes no memory. Blocks of a macro block in mode 0, 1 or 5 have no motion,
/// nor has an uncoded luma block in mode 7. `Ended` alone; the list's entries are then open (Theora I, 7.5).
#[tactic(auto, unfolding(crate::specs::Motion::vectors_of, vid_base::specs::Reading::one_bit))]
pub fn read_vectors_in(
    r: &mut BitReader,
    geom: &Geom,
    flags: &[bool],
    modes: &[u8],
    vectors: &mut [Vector],
) -> Result<(), PacketFault>
    requires flags { length flags.now ≡ length (order_of geom.now) }
    requires modes { length modes.now ≡ length (macro_blocks geom.now) }
    requires vectors { length vectors.old ≡ length (order_of geom.now) }
    ensures value { Gives (λ _. map offset_of vectors.new) result r.new.left (vectors_of geom.now flags.now modes.now r.old.left) }
    ensures end { SameEnd r.old r.new }
{
    let coding = vector_coding(r.bit()?);
    read_coded_vectors(r, coding, geom, flags, modes, vectors)
}

/// Reads the vector of each block in coded order, as `read_vectors_in`. `Ended` alone; after a refusal the list is empty
/// (Theora I, 7.5).
pub fn read_vectors(
    r: &mut BitReader,
    geom: &Geom,
    flags: &[bool],
    modes: &[u8],
    vectors: &mut Vec<Vector>,
) -> Result<(), Refusal>
    requires flags { length flags.now ≡ length (order_of geom.now) }
    requires modes { length modes.now ≡ length (macro_blocks geom.now) }
    ensures value { GivesOrNoMem (λ _. map offset_of vectors.new.items) result r.new.left (vectors_of geom.now flags.now modes.now r.old.left) }
    ensures sized { OnOk result (length vectors.new.items ≡ length (order_of geom.now)) }
    ensures emptied { OnErr result (vectors.new.items ≡ []) }
    ensures memory { KeptOnNoMem result r.old r.new }
    ensures end { SameEnd r.old r.new }
{
    if vectors.resize(geom.blocks() as usize, STILL).is_err() {
        vectors.clear();
        return Err(Refusal::NoMem);
    }
    let read = read_vectors_in(r, geom, flags, modes, vectors);
    if read.is_err() {
        vectors.clear();
    }
    Ok(read?)
}
