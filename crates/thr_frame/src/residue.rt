// The places of the quantisers and the coefficients of a frame (Theora I, 7.6 and 7.7).
ghost use Rattle.std.specs.Prelude.{◌≡◌, ◌<◌, ◌≤◌, All, OnOk, length};
ghost use Rattle.vid_base.specs.Reading.{Gives, SameEnd};
ghost use Rattle.vid_geom.specs.CodedOrder.{order_of};
ghost use Rattle.thr_setup.specs.Setup.{contents};
ghost use Rattle.thr_token.specs.Coefficients.{coefficients};
ghost use Rattle.thr_token.specs.Passing.{Passes};
ghost use Rattle.thr_token.specs.Tokenised.{AreBlank};
ghost use Rattle.thr_frame.specs.Parsed.{blank_values, residue_of};
ghost use Rattle.thr_frame.specs.Views.{residue_with};

use crate::motion::is_any_coded;
use crate::places::read_places;
use thr_setup::Setup;
use thr_token::{Coeffs, check_tokens, read_tokens_with};
use vid_base::{BitReader, PacketFault};
use vid_geom::Geom;

// Reads the coefficients and the counts. The values of blocks that are not coded stay 0.
#[tactic(auto, using(crate::proofs::BlankLemmas::read_blank))]
fn read_values(
    r: &mut BitReader,
    setup: &Setup,
    geom: &Geom,
    flags: &[bool],
    values: &mut [[i16; 64]],
    counts: &mut [u8],
    waiting: &mut [u32],
) -> Result<(), PacketFault>
    requires flags { length flags.now ≡ length (order_of geom.now) }
    requires blank { values.old ≡ blank_values geom.now }
    requires counts { length counts.old ≡ length (order_of geom.now) }
    requires waiting { length waiting.old ≡ length (order_of geom.now) }
    ensures value { Gives (λ _. (values.new, counts.new)) result r.new.left (coefficients (contents setup.now).forest geom.now flags.now r.old.left) }
    ensures blank { OnOk result (AreBlank flags.now values.new) }
    ensures end { SameEnd r.old r.new }
{
    read_tokens_with(r, &setup.forest, geom, flags, values, counts, waiting)
}

/// Reads for each block in coded order its place among so many quantiser indices, its coefficients and its count, into values
/// that are all 0 before; where no block is coded nothing is read. `Ended`, `RunTooLong` or `TokenPastEnd`; places and
/// coefficients are then open. So are the marks and the list afterwards.
#[tactic(auto, unfolding(crate::specs::Parsed::residue_of))]
pub(crate) fn read_residue(
    r: &mut BitReader,
    setup: &Setup,
    geom: &Geom,
    flags: &[bool],
    count: u8,
    places: &mut [u8],
    coeffs: &mut Coeffs,
    marks: &mut [bool],
    waiting: &mut [u32],
) -> Result<(), PacketFault>
    requires flags { length flags.now ≡ length (order_of geom.now) }
    requires some { 0 < count }
    requires few { count ≤ 3 }
    requires places { length places.old ≡ length (order_of geom.now) }
    requires blank { coeffs.old.values.items ≡ blank_values geom.now }
    requires counts { length coeffs.old.counts.items ≡ length (order_of geom.now) }
    requires marks { length flags.now ≤ length marks.old }
    requires waiting { length waiting.old ≡ length (order_of geom.now) }
    ensures value { Gives (λ _. residue_with places.new coeffs.new.values.items coeffs.new.counts.items) result r.new.left (residue_of (contents setup.now) geom.now count flags.now r.old.left) }
    ensures small { OnOk result (All (λ place. place < count) places.new) }
    ensures blank { OnOk result (AreBlank flags.now coeffs.new.values.items) }
    ensures values { length coeffs.new.values.items ≡ length (order_of geom.now) }
    ensures counts { length coeffs.new.counts.items ≡ length (order_of geom.now) }
    ensures end { SameEnd r.old r.new }
{
    if !is_any_coded(flags) {
        places.fill(0);
        coeffs.counts.fill(0);
        return Ok(());
    }
    read_places(r, flags, count, places, marks)?;
    let Coeffs { values, counts } = coeffs;
    read_values(r, setup, geom, flags, values, counts, waiting)
}

/// Checks them, as `read_residue` reads them: the same bits are taken, and no coefficient is kept.
#[tactic(auto, unfolding(crate::specs::Parsed::residue_of))]
pub(crate) fn check_residue(
    r: &mut BitReader,
    setup: &Setup,
    geom: &Geom,
    flags: &[bool],
    count: u8,
    places: &mut [u8],
    marks: &mut [bool],
) -> Result<(), PacketFault>
    requires flags { length flags.now ≡ length (order_of geom.now) }
    requires some { 0 < count }
    requires few { count ≤ 3 }
    requires places { length places.old ≡ length (order_of geom.now) }
    requires marks { length flags.now ≤ length marks.old }
    ensures value { Passes result r.new.left (residue_of (contents setup.now) geom.now count flags.now r.old.left) }
    ensures end { SameEnd r.old r.new }
{
    if !is_any_coded(flags) {
        return Ok(());
    }
    read_places(r, flags, count, places, marks)?;
    check_tokens(r, &setup.forest, geom, flags)?;
    Ok(())
}
