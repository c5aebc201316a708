// The modes and vectors of a frame to be coded (own).
ghost use Rattle.std.specs.Prelude.{◌≡◌, ◌<◌, true, [], All, IfOk, IsSomeAnd, OnOk, length, map, replicate, slice_get};
ghost use Rattle.vid_geom.specs.CodedOrder.{order_of};
ghost use Rattle.vid_geom.specs.MacroBlocks.{macro_blocks};
ghost use Rattle.vid_plane.specs.Frames.{IsFrameOf};
ghost use Rattle.thr_modes.specs.Chosen.{AreChosen};
ghost use Rattle.thr_modes.specs.Vectors.{offset_of, still};
ghost use Rattle.thr_frame.specs.Painted.{AreSealed};
ghost use Rattle.thr_frame.specs.Rebuilt.{predictor_at};
ghost use Rattle.enc_search.specs.ChosenFrame.{chosen_frame};
ghost use Rattle.enc_search.specs.Found.{IsFound};
ghost use Rattle.enc_search.specs.Searched.{IsSearched};
ghost use Rattle.enc_search.specs.Views.{memory_of, refs_of};

use crate::frames::{Frames, Search, luma_blocks};
use crate::memory::{Remembered, STILL};
use crate::placing::put_motion;
use crate::search::Found;
use std::alloc::Global;
use vid_base::{NoMem, Vector};
use vid_geom::Geom;
use vid_plane::Frame;

/// How the blocks of a frame are predicted.
#[derive(Drop)]
pub struct Choice {
    /// A mode for each macro block in coded order (Theora I, 7.4).
    pub modes: Vec<u8>,
    /// A vector for each block in coded order (Theora I, 7.5).
    pub vectors: Vec<Vector>,
}

// The mode and the vector of a macro block, from what is remembered.
fn find(frames: &Frames<'_>, m: u32, remembered: Remembered) -> Found
    requires { m < length (macro_blocks frames.now.geom.now) }
    ensures { IsSomeAnd (slice_get (macro_blocks frames.now.geom.now) m) (λ area. IsFound (refs_of frames.now) frames.now.target.now (memory_of remembered) result.mode (offset_of result.vector) area.luma) }
{
    let blocks = luma_blocks(frames.geom, m);
    let wanted = frames.wanted_of_four(blocks);
    let search = Search {
        frames: *frames,
        blocks,
        wanted: &wanted,
    };
    search.found(remembered)
}

// Those of all macro blocks.
fn fill(frames: &Frames<'_>, modes: &mut Vec<u8>, vectors: &mut [Vector]) -> Result<(), NoMem>
    requires empty { modes.old.items ≡ [] }
    requires still { map offset_of vectors.old ≡ replicate (length (order_of frames.now.geom.now)) still }
    ensures modes { OnOk result (length modes.new.items ≡ length (macro_blocks frames.now.geom.now)) }
    ensures small { OnOk result (All (λ mode. mode < 8) modes.new.items) }
    ensures chosen { OnOk result (AreChosen frames.now.geom.now (replicate (length (order_of frames.now.geom.now)) true) modes.new.items (map offset_of vectors.new)) }
    ensures searched { OnOk result (IsSearched frames.now.geom.now (refs_of frames.now) frames.now.target.now (λ b. predictor_at frames.now.geom.now (refs_of frames.now) (chosen_frame modes.new.items (map offset_of vectors.new)) b)) }
{
    let mut remembered = Remembered::empty();
    'macro_blocks: for m in 0..frames.geom.macro_blocks() {
        let found = find(frames, m, remembered);
        put_motion(vectors, &frames.geom.macro_block(m), found.vector);
        modes.push(found.mode)?;
        remembered = remembered.behind(found.mode, found.vector);
    }
    Ok(())
}

// No motion, that many times.
#[tactic(auto, unfolding(thr_modes::specs::Vectors::offset_of), using(thr_frame::proofs::MotionLemmas::still_all))]
fn stills(alloc: Global, n: u32) -> Result<Vec<Vector>, NoMem>
    ensures { IfOk result (λ v. map offset_of v.items ≡ replicate n still) }
{
    Ok(vec![in alloc; STILL; n as usize]?)
}

/// Chooses modes and vectors for a frame that is predicted from the previous and the golden one. With all blocks coded they
/// are ones that can be read, and the luma of each macro block is predicted no worse than by 128 in each sample, by the golden
/// frame, and by the previous frame moved by any vector of two even components from -8 to 8; of equally good ones by that
/// which is cheapest to code. All blocks of a macro block have one vector. `NoMem` alone.
pub fn choose(
    alloc: Global,
    geom: &Geom,
    target: &Frame,
    prev: &Frame,
    golden: &Frame,
) -> Result<Choice, NoMem>
    requires target { IsFrameOf geom.now target.now }
    requires prev { IsFrameOf geom.now prev.now }
    requires golden { IsFrameOf geom.now golden.now }
    requires prev_sealed { AreSealed prev.now }
    requires golden_sealed { AreSealed golden.now }
    ensures sized { IfOk result (λ c. (length c.modes.items ≡ length (macro_blocks geom.now)) × (length c.vectors.items ≡ length (order_of geom.now))) }
    ensures small { IfOk result (λ c. All (λ mode. mode < 8) c.modes.items) }
    ensures chosen { IfOk result (λ c. AreChosen geom.now (replicate (length (order_of geom.now)) true) c.modes.items (map offset_of c.vectors.items)) }
    ensures searched { IfOk result (λ c. IsSearched geom.now (record { prev = prev.now; golden = golden.now }) target.now (λ b. predictor_at geom.now (record { prev = prev.now; golden = golden.now }) (chosen_frame c.modes.items (map offset_of c.vectors.items)) b)) }
{
    let frames = Frames {
        geom,
        target,
        prev,
        golden,
    };
    let mut modes = Vec::with_capacity(alloc, geom.macro_blocks() as usize)?;
    let mut vectors = stills(alloc, geom.blocks())?;
    fill(&frames, &mut modes, &mut vectors)?;
    Ok(Choice { modes, vectors })
}
