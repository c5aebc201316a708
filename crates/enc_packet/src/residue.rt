// The coefficients of a frame (Theora I, 7.6 and 7.7).
ghost use Rattle.std.specs.Prelude.{◌≡◌, ◌+◌, ◌*◌, ◌≤◌, ◌<◌, ℕ, List, All, IfOk, OnOk, length, replicate, true, unsigned_abs};
ghost use Rattle.vid_base.specs.Writing.{ReadsBack};
ghost use Rattle.vid_geom.specs.CodedOrder.{order_of};
ghost use Rattle.thr_setup.specs.Setup.{contents};
ghost use Rattle.thr_token.specs.Tokenised.{IsToken};
ghost use Rattle.thr_token.specs.WrittenTokens.{IsHeld};
ghost use Rattle.thr_frame.specs.Parsed.{Residue, residue_of};
ghost use Rattle.enc_packet.specs.FullRows.{full_rows};
ghost use Rattle.enc_packet.specs.WholeFrame.{whole_residue};

use crate::counts::Counts;
use crate::rows::Rows;
use std::alloc::Global;
use thr_huff::Forest;
use thr_setup::Setup;
use thr_token::{Coeffs, Tables, Token, tokenise, write_tokens};
use vid_base::{BitWriter, NoMem};
use vid_geom::Geom;

// The tables by which the tokens of a frame are written.
fn tables_for(rows: &Rows, forest: &Forest, tokens: &[Token]) -> Tables
    requires rows { rows.now ≡ full_rows forest.now }
    requires tokens { All IsToken tokens.now }
    ensures dc { (result.luma_dc < 16) × (result.chroma_dc < 16) }
    ensures ac { (result.luma_ac < 16) × (result.chroma_ac < 16) }
    ensures held { All (IsHeld forest.now result) tokens.now }
{
    rows.tables(&Counts::of(tokens))
}

/// Writes the coefficients of a frame of which all blocks are coded: there is one quantiser index, so no block says which is
/// its own. DC values are differences already, and no value is larger than 580.
pub(crate) fn write_residue(
    alloc: Global,
    w: &mut BitWriter,
    geom: &Geom,
    setup: &Setup,
    rows: &Rows,
    flags: &[bool],
    coeffs: &Coeffs,
) -> Result<(), NoMem>
    requires rows { rows.now ≡ full_rows (contents setup.now).forest }
    requires flags { flags.now ≡ replicate (length (order_of geom.now)) true }
    requires values { length coeffs.now.values.items ≡ length (order_of geom.now) }
    requires small { All (All (λ v. unsigned_abs v ≤ 580)) coeffs.now.values.items }
    ensures reads_back { OnOk result ((counts : List ℕ) × ReadsBack (residue_of (contents setup.now) geom.now 1 flags.now) (whole_residue geom.now coeffs.now.values.items counts) w.old w.new) }
    ensures few { OnOk result (length w.new ≤ length w.old + (16 + 2816 * length (order_of geom.now))) }
{
    let tokens = tokenise(alloc, geom, flags, coeffs)?;
    let tables = tables_for(rows, &setup.forest, &tokens);
    write_tokens(w, &tokens, &setup.forest, &tables)?;
    Ok(())
}
