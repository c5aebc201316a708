// A frame of which all blocks are coded, written as a packet (Theora I, 7).
ghost use Rattle.std.specs.Prelude.{◌≡◌, ◌+◌, ◌*◌, ◌<◌, ◌≤◌, ◌^◌, ◌∷◌, [], ℕ, List, All, IfOk, OnOk, Ok, false, length, map, not, replicate, true, unsigned_abs};
ghost use Rattle.vid_base.specs.Writing.{ReadsBack};
ghost use Rattle.vid_geom.specs.CodedOrder.{order_of};
ghost use Rattle.vid_geom.specs.MacroBlocks.{macro_blocks};
ghost use Rattle.thr_setup.specs.Setup.{contents};
ghost use Rattle.thr_modes.specs.Chosen.{AreChosen};
ghost use Rattle.thr_modes.specs.Vectors.{offset_of, still};
ghost use Rattle.thr_dc.specs.Frames.{with_planes};
ghost use Rattle.thr_dc.specs.Prediction.{applied};
ghost use Rattle.thr_frame.specs.CodedFrame.{intra_mode, kinds_of};
ghost use Rattle.thr_frame.specs.Parsed.{coded_in, fields_of, needs_frame};
ghost use Rattle.thr_frame.specs.Step.{is_key};
ghost use Rattle.enc_packet.specs.FullRows.{full_rows};
ghost use Rattle.enc_packet.specs.WholeFrame.{whole_frame};

use crate::head::{Head, write_head};
use crate::motion::write_motion;
use crate::residue::write_residue;
use crate::rows::Rows;
use std::alloc::Global;
use thr_dc::apply_dc;
use thr_setup::Setup;
use thr_token::Coeffs;
use vid_base::{BitWriter, NoMem};
use vid_geom::Geom;

// The bits of a packet, from DC values that are differences already.
fn write_fields(
    alloc: Global,
    geom: &Geom,
    setup: &Setup,
    rows: &Rows,
    head: &Head<'_>,
    flags: &[bool],
    coeffs: &Coeffs,
) -> Result<BitWriter, NoMem>
    requires flags { flags.now ≡ replicate (length (order_of geom.now)) true }
    requires qi { head.now.qi < 64 }
    requires modes { length head.now.modes.now ≡ length (macro_blocks geom.now) }
    requires small_modes { All (λ mode. mode < 8) head.now.modes.now }
    requires vectors { length head.now.vectors.now ≡ length (order_of geom.now) }
    requires intra { head.now.intra ≡ true → (head.now.modes.now ≡ replicate (length (macro_blocks geom.now)) intra_mode) × (map offset_of head.now.vectors.now ≡ replicate (length (order_of geom.now)) still) }
    requires inter { head.now.intra ≡ false → AreChosen geom.now flags.now head.now.modes.now (map offset_of head.now.vectors.now) }
    requires values { length coeffs.now.values.items ≡ length (order_of geom.now) }
    requires small { All (All (λ v. unsigned_abs v ≤ 580)) coeffs.now.values.items }
    requires rows { rows.now ≡ full_rows (contents setup.now).forest }
    ensures reads_back { IfOk result (λ w. (counts : List ℕ) × ReadsBack (fields_of (contents setup.now) geom.now) (whole_frame geom.now head.now.intra head.now.qi head.now.modes.now (map offset_of head.now.vectors.now) coeffs.now.values.items counts) [] w) }
    ensures few { IfOk result (λ w. length w + 8 ≤ 2 ^ 33) }
{
    let mut w = BitWriter::new(alloc);
    write_head(&mut w, head.intra, head.qi)?;
    write_motion(&mut w, geom, head, flags)?;
    write_residue(alloc, &mut w, geom, setup, rows, flags, coeffs)?;
    Ok(w)
}

/// Writes a frame of which all blocks are coded, at one quantiser index, as a packet (Theora I, 7). `flags` are all true,
/// `kinds` what each block is predicted from, and the coefficients have DC values that are no differences, with 64 values in
/// zigzag order for each block in coded order; neither they nor the differences of the DC values pass 580. The modes and
/// vectors of an inter frame are ones that can be coded together. `NoMem` alone. The coefficients afterwards are open, and as
/// many as before.
pub fn write_packet(
    alloc: Global,
    geom: &Geom,
    setup: &Setup,
    rows: &Rows,
    head: &Head<'_>,
    flags: &[bool],
    kinds: &[u8],
    coeffs: &mut Coeffs,
) -> Result<Vec<u8>, NoMem>
    requires flags { flags.now ≡ replicate (length (order_of geom.now)) true }
    requires kinds { kinds.now ≡ kinds_of geom.now head.now.modes.now }
    requires qi { head.now.qi < 64 }
    requires modes { length head.now.modes.now ≡ length (macro_blocks geom.now) }
    requires small_modes { All (λ mode. mode < 8) head.now.modes.now }
    requires vectors { length head.now.vectors.now ≡ length (order_of geom.now) }
    requires intra { head.now.intra ≡ true → (head.now.modes.now ≡ replicate (length (macro_blocks geom.now)) intra_mode) × (map offset_of head.now.vectors.now ≡ replicate (length (order_of geom.now)) still) }
    requires inter { head.now.intra ≡ false → AreChosen geom.now flags.now head.now.modes.now (map offset_of head.now.vectors.now) }
    requires values { length coeffs.old.values.items ≡ length (order_of geom.now) }
    requires small { All (All (λ v. unsigned_abs v ≤ 580)) (with_planes applied geom.now flags.now kinds.now coeffs.old.values.items) }
    requires rows { rows.now ≡ full_rows (contents setup.now).forest }
    ensures says { IfOk result (λ packet. (counts : List ℕ) × (coded_in (contents setup.now) geom.now packet.items ≡ Ok (whole_frame geom.now head.now.intra head.now.qi head.now.modes.now (map offset_of head.now.vectors.now) coeffs.old.values.items counts))) }
    ensures kind { IfOk result (λ packet. (needs_frame packet.items ≡ not head.now.intra) × (is_key packet.items ≡ head.now.intra)) }
    ensures few { IfOk result (λ packet. (0 < length packet.items) × (length packet.items < 2 ^ 30)) }
    ensures sized { length coeffs.new.values.items ≡ length (order_of geom.now) }
    ensures counts { coeffs.new.counts.items ≡ coeffs.old.counts.items }
{
    apply_dc(geom, flags, kinds, coeffs);
    let w = write_fields(alloc, geom, setup, rows, head, flags, coeffs)?;
    let packet = w.finish();
    Ok(packet)
}
