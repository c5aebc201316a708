// Writing the motion vectors of a frame (Theora I, 7.5). They are written under MVMODE 1 always (own).
ghost use Rattle.std.specs.Prelude.{◌≡◌, ◌+◌, ◌*◌, ◌<◌, ◌≤◌, ◌++◌, ◌∷◌, [], true, Bool, List, All, OnOk, OnErr, length, map, get_or, if◌then◌else◌};
ghost use Rattle.vid_base.specs.Writing.{Grows, ReadsBack};
ghost use Rattle.vid_geom.specs.CodedOrder.{order_of};
ghost use Rattle.vid_geom.specs.MacroBlocks.{macro_blocks};
ghost use Rattle.thr_modes.specs.InOrder.{CanBeRead};
ghost use Rattle.thr_modes.specs.Chosen.{AreChosen};
ghost use Rattle.thr_modes.specs.LumaFlags.{macro_flags};
ghost use Rattle.thr_modes.specs.Vectors.{offset_of, still};
ghost use Rattle.thr_modes.specs.Motion.{vectors_of};
ghost use Rattle.thr_modes.specs.WrittenVectors.{vector_code, own_codes, motion_code, motions_code, macro_vectors};

use crate::component::{write_bit, write_vector};
use crate::luma::flags_at;
use crate::motion::{INTER_GOLDEN_MV, INTER_MV, INTER_MV_FOUR};
use vid_base::{BitWriter, NoMem, Vector};
use vid_geom::Geom;

/// The vectors at four places.
fn vectors_at(vectors: &[Vector], places: [u32; 4]) -> [Vector; 4]
    requires { All (λ place. place < length vectors.now) places }
    ensures { map offset_of result ≡ map (λ place. get_or (map offset_of vectors.now) place still) places }
{
    [
        vectors[places[0] as usize],
        vectors[places[1] as usize],
        vectors[places[2] as usize],
        vectors[places[3] as usize],
    ]
}

/// The vector of a luma block, if it is coded.
fn write_own_vector(w: &mut BitWriter, coded: bool, vector: Vector) -> Result<(), NoMem>
    ensures written { OnOk result (w.new ≡ w.old ++ (if coded then vector_code (offset_of vector) else [])) }
    ensures memory { OnErr result (Grows w.old w.new) }
{
    if coded {
        write_vector(w, vector)?;
    }
    Ok(())
}

/// Those of the coded luma blocks of a macro block.
fn write_own_vectors(w: &mut BitWriter, luma: [bool; 4], vectors: [Vector; 4]) -> Result<(), NoMem>
    ensures written { OnOk result (w.new ≡ w.old ++ own_codes luma (map offset_of vectors)) }
    ensures memory { OnErr result (Grows w.old w.new) }
{
    'luma: for b in 0..4usize {
        write_own_vector(w, luma[b], vectors[b])?;
    }
    Ok(())
}

/// The vectors of a macro block that its mode wants.
#[tactic(auto, unfolding(crate::specs::WrittenVectors::motion_code))]
fn write_motion(
    w: &mut BitWriter,
    mode: u8,
    luma: [bool; 4],
    vectors: [Vector; 4],
) -> Result<(), NoMem>
    ensures written { OnOk result (w.new ≡ w.old ++ motion_code mode luma (map offset_of vectors)) }
    ensures memory { OnErr result (Grows w.old w.new) }
{
    match mode {
        INTER_MV | INTER_GOLDEN_MV => write_vector(w, vectors[0]),
        INTER_MV_FOUR => write_own_vectors(w, luma, vectors),
        _ => Ok(()),
    }
}

/// Those of all macro blocks.
#[tactic(auto, using(crate::proofs::WrittenModes::memory_more, crate::proofs::LumaLemmas::flags_long))]
fn write_motions(
    w: &mut BitWriter,
    geom: &Geom,
    flags: &[bool],
    modes: &[u8],
    vectors: &[Vector],
) -> Result<(), NoMem>
    requires flags { length flags.now ≡ length (order_of geom.now) }
    requires modes { length modes.now ≡ length (macro_blocks geom.now) }
    requires vectors { length vectors.now ≡ length (order_of geom.now) }
    ensures written { OnOk result (w.new ≡ w.old ++ motions_code modes.now (macro_flags geom.now flags.now) (macro_vectors geom.now (map offset_of vectors.now))) }
    ensures memory { OnErr result (Grows w.old w.new) }
{
    'macro_blocks: for m in 0..geom.macro_blocks() {
        let places = geom.luma_places(m);
        let luma = flags_at(flags, places);
        write_motion(w, modes[m as usize], luma, vectors_at(vectors, places))?;
    }
    Ok(())
}

/// Writes the vectors of blocks in coded order under MVMODE 1, for the coded flags of the blocks and the modes of the
/// macro blocks. Where they are vectors that can be read for these, as those are that the modes allow, what is written is
/// read as them. After `NoMem` the bits that were there are followed by some of them (Theora I, 7.5).
#[tactic(auto, using(crate::proofs::WrittenModes::memory_more, crate::proofs::ChosenLemmas::chosen_read))]
pub fn write_vectors(
    w: &mut BitWriter,
    geom: &Geom,
    flags: &[bool],
    modes: &[u8],
    vectors: &[Vector],
) -> Result<(), NoMem>
    requires flags { length flags.now ≡ length (order_of geom.now) }
    requires modes { length modes.now ≡ length (macro_blocks geom.now) }
    requires vectors { length vectors.now ≡ length (order_of geom.now) }
    ensures reads_back { CanBeRead (vectors_of geom.now flags.now modes.now) (map offset_of vectors.now) → OnOk result (ReadsBack (vectors_of geom.now flags.now modes.now) (map offset_of vectors.now) w.old w.new) }
    ensures chosen { AreChosen geom.now flags.now modes.now (map offset_of vectors.now) → CanBeRead (vectors_of geom.now flags.now modes.now) (map offset_of vectors.now) }
    ensures few { OnOk result (length w.new ≤ length w.old + (1 + 48 * length (macro_blocks geom.now))) }
    ensures memory { OnErr result (Grows w.old w.new) }
{
    write_bit(w, true)?;
    write_motions(w, geom, flags, modes, vectors)?;
    Ok(())
}
