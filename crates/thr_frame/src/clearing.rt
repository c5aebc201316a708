// Coefficients cleared (own).
ghost use Rattle.std.specs.Prelude.{◌≡◌, length, pos, replicate};
ghost use Rattle.thr_token.specs.Tokenised.{AreBlank};
ghost use Rattle.thr_frame.specs.CodedFrame.{IsSized, frame_of};
ghost use Rattle.thr_frame.specs.Parsed.{blank_values};

use crate::coded::Coded;
use vid_geom::Geom;

// Sets all coefficients to 0.
fn blank_all(values: &mut [[i16; 64]])
    ensures { values.new ≡ replicate (length values.old) (replicate 64 (pos 0)) }
{
    'blocks: for b in 0..values.len() {
        values[b] = [0; 64];
    }
}

// Sets the coefficients of the coded blocks to 0, where those of all others are 0.
fn blank_coded(flags: &[bool], values: &mut [[i16; 64]])
    requires values { length values.old ≡ length flags.now }
    requires blank { AreBlank flags.now values.old }
    ensures { values.new ≡ replicate (length values.old) (replicate 64 (pos 0)) }
{
    'blocks: for b in 0..flags.len() {
        if flags[b] {
            values[b] = [0; 64];
        }
    }
}

/// Sets all coefficients of a frame to 0.
#[tactic(auto, unfolding(crate::specs::CodedFrame::frame_of))]
pub(crate) fn clear(geom: &Geom, coded: &mut Coded)
    requires sized { IsSized geom.now (frame_of coded.old) }
    ensures sized { IsSized geom.now (frame_of coded.new) }
    ensures blank { coded.new.coeffs.values.items ≡ blank_values geom.now }
{
    blank_all(&mut coded.coeffs.values);
}

/// The same where only coded blocks have others than 0; no other block is touched.
#[tactic(auto, unfolding(crate::specs::CodedFrame::frame_of))]
pub(crate) fn clear_coded(geom: &Geom, coded: &mut Coded)
    requires sized { IsSized geom.now (frame_of coded.old) }
    requires blank { AreBlank coded.old.flags.items coded.old.coeffs.values.items }
    ensures sized { IsSized geom.now (frame_of coded.new) }
    ensures blank { coded.new.coeffs.values.items ≡ blank_values geom.now }
{
    blank_coded(&coded.flags, &mut coded.coeffs.values);
}
