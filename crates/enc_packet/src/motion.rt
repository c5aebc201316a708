// Which blocks of a frame are coded, and how they move (Theora I, 7.3 to 7.5).
ghost use Rattle.std.specs.Prelude.{◌≡◌, ◌+◌, ◌*◌, ◌<◌, ◌≤◌, All, OnOk, false, length, map, replicate, true};
ghost use Rattle.vid_base.specs.Writing.{ReadsBack};
ghost use Rattle.vid_geom.specs.CodedOrder.{order_of, superblocks};
ghost use Rattle.vid_geom.specs.MacroBlocks.{macro_blocks};
ghost use Rattle.thr_modes.specs.Chosen.{AreChosen};
ghost use Rattle.thr_modes.specs.Vectors.{offset_of, still};
ghost use Rattle.thr_frame.specs.CodedFrame.{intra_mode};
ghost use Rattle.thr_frame.specs.Parsed.{motion_of};
ghost use Rattle.thr_frame.specs.Views.{motion_with};

use crate::head::Head;
use thr_flags::write_flags;
use thr_modes::{write_modes, write_vectors};
use vid_base::{BitWriter, NoMem};
use vid_geom::Geom;

// Flags, modes and vectors of an inter frame.
fn write_inter(w: &mut BitWriter, geom: &Geom, head: &Head<'_>, flags: &[bool]) -> Result<(), NoMem>
    requires flags { flags.now ≡ replicate (length (order_of geom.now)) true }
    requires modes { length head.now.modes.now ≡ length (macro_blocks geom.now) }
    requires small_modes { All (λ mode. mode < 8) head.now.modes.now }
    requires vectors { length head.now.vectors.now ≡ length (order_of geom.now) }
    requires chosen { AreChosen geom.now flags.now head.now.modes.now (map offset_of head.now.vectors.now) }
    ensures reads_back { OnOk result (ReadsBack (motion_of geom.now false) (motion_with flags.now head.now.modes.now head.now.vectors.now) w.old w.new) }
    ensures few { OnOk result (length w.new ≤ length w.old + (7 + 4 * length (superblocks geom.now) + 2 * length (order_of geom.now) + 51 * length (macro_blocks geom.now))) }
{
    write_flags(w, geom, flags)?;
    write_modes(w, geom, flags, head.modes)?;
    write_vectors(w, geom, flags, head.modes, head.vectors)?;
    Ok(())
}

/// Writes which blocks of a frame are coded, their modes and their vectors; those of an intra frame are known, and nothing is
/// written.
pub(crate) fn write_motion(
    w: &mut BitWriter,
    geom: &Geom,
    head: &Head<'_>,
    flags: &[bool],
) -> Result<(), NoMem>
    requires flags { flags.now ≡ replicate (length (order_of geom.now)) true }
    requires modes { length head.now.modes.now ≡ length (macro_blocks geom.now) }
    requires small_modes { All (λ mode. mode < 8) head.now.modes.now }
    requires vectors { length head.now.vectors.now ≡ length (order_of geom.now) }
    requires intra { head.now.intra ≡ true → (head.now.modes.now ≡ replicate (length (macro_blocks geom.now)) intra_mode) × (map offset_of head.now.vectors.now ≡ replicate (length (order_of geom.now)) still) }
    requires inter { head.now.intra ≡ false → AreChosen geom.now flags.now head.now.modes.now (map offset_of head.now.vectors.now) }
    ensures reads_back { OnOk result (ReadsBack (motion_of geom.now head.now.intra) (motion_with flags.now head.now.modes.now head.now.vectors.now) w.old w.new) }
    ensures few { OnOk result (length w.new ≤ length w.old + (7 + 4 * length (superblocks geom.now) + 2 * length (order_of geom.now) + 51 * length (macro_blocks geom.now))) }
{
    if head.intra {
        return Ok(());
    }
    write_inter(w, geom, head, flags)
}
