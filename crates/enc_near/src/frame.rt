// The coefficients of a frame (own).
ghost use Rattle.std.specs.Prelude.{◌≡◌, ◌<◌, ◌≤◌, ◌∷◌, [], true, All, length, map, replicate, unsigned_abs};
ghost use Rattle.vid_geom.specs.CodedOrder.{order_of};
ghost use Rattle.vid_geom.specs.MacroBlocks.{macro_blocks};
ghost use Rattle.vid_plane.specs.Frames.{IsFrameOf};
ghost use Rattle.thr_setup.specs.Setup.{contents};
ghost use Rattle.thr_modes.specs.Vectors.{offset_of};
ghost use Rattle.thr_dc.specs.Frames.{with_planes};
ghost use Rattle.thr_dc.specs.Prediction.{applied};
ghost use Rattle.thr_frame.specs.CodedFrame.{CodedFrame, kinds_of};
ghost use Rattle.thr_frame.specs.Painted.{AreSealed};
ghost use Rattle.enc_near.specs.Made.{AreEntries, matrices_of};
ghost use Rattle.enc_near.specs.Near.{IsNearFrame};

use crate::sources::Sources;
use thr_dc::limit_dc;
use thr_setup::Setup;
use thr_token::Coeffs;
use vid_base::Vector;
use vid_geom::Geom;
use vid_plane::Frame;

// The matrices of the three planes, those of intra and then those of inter blocks.
fn matrices(setup: &Setup, qi: u8) -> [[u16; 64]; 6]
    requires { qi < 64 }
    ensures value { result ≡ matrices_of setup.now.ramps qi }
    ensures entries { All AreEntries result }
{
    let ramps = &setup.ramps;
    [
        ramps.matrix(0, 0, qi),
        ramps.matrix(0, 1, qi),
        ramps.matrix(0, 2, qi),
        ramps.matrix(1, 0, qi),
        ramps.matrix(1, 1, qi),
        ramps.matrix(1, 2, qi),
    ]
}

/// Makes the coefficients of a frame of which all blocks are coded, at one quantiser index `qi` below 64: each is one of those
/// from -580 to 580 whose product with its entry of the quantiser matrix is nearest to the forward transform of what the
/// prediction lacks of `target`; a DC value is nearest of those that are no more than 580 from its predictor (Theora I, 7.8.1).
///
/// `modes` are those of the macro blocks, and `kinds` what each block is predicted from by them, as `fill_kinds` makes it;
/// `flags` are all set. `kinds`, `vectors`, `flags` and the lists of `into` have an entry for each block in coded order. Blocks
/// are predicted from `prev` and `golden` by their vectors, of 128 alone in mode INTRA. Only the values of `into` are written,
/// in zigzag order, with DC values that no predictor is taken from. Takes no memory.
pub fn nearest_values(
    geom: &Geom,
    setup: &Setup,
    target: &Frame,
    prev: &Frame,
    golden: &Frame,
    qi: u8,
    flags: &[bool],
    kinds: &[u8],
    modes: &[u8],
    vectors: &[Vector],
    into: &mut Coeffs,
)
    requires qi { qi < 64 }
    requires target { IsFrameOf geom.now target.now }
    requires prev { IsFrameOf geom.now prev.now }
    requires golden { IsFrameOf geom.now golden.now }
    requires prev_sealed { AreSealed prev.now }
    requires golden_sealed { AreSealed golden.now }
    requires flags { flags.now ≡ replicate (length (order_of geom.now)) true }
    requires kinds { kinds.now ≡ kinds_of geom.now modes.now }
    requires modes { length modes.now ≡ length (macro_blocks geom.now) }
    requires vectors { length vectors.now ≡ length (order_of geom.now) }
    requires sized { length into.old.values.items ≡ length (order_of geom.now) }
    ensures near { (c : CodedFrame) → c.flags ≡ flags.now → c.modes ≡ modes.now → c.vectors ≡ map offset_of vectors.now → c.qis ≡ qi ∷ [] → c.values ≡ into.new.values.items
        → IsNearFrame (contents setup.now) geom.now (record { prev = prev.now; golden = golden.now }) target.now c }
    ensures small { All (All (λ v. unsigned_abs v ≤ 580)) into.new.values.items }
    ensures differences { All (All (λ v. unsigned_abs v ≤ 580)) (with_planes applied geom.now flags.now kinds.now into.new.values.items) }
    ensures sized { length into.new.values.items ≡ length (order_of geom.now) }
    ensures counts { into.new.counts.items ≡ into.old.counts.items }
{
    let matrices = matrices(setup, qi);
    let sources = Sources {
        geom,
        target,
        prev,
        golden,
        kinds,
        vectors,
        matrices: &matrices,
    };
    sources.fill(into);
    limit_dc(geom, flags, kinds, into);
}
