ghost use Rattle.std.specs.Prelude.{◌≡◌, ◌≤◌, ◌<◌, All, IfOk, false, length, map, replicate, true, unsigned_abs};
ghost use Rattle.vid_geom.specs.CodedOrder.{order_of};
ghost use Rattle.vid_geom.specs.MacroBlocks.{macro_blocks};
ghost use Rattle.thr_setup.specs.Setup.{contents};
ghost use Rattle.thr_modes.specs.Vectors.{offset_of, still};
ghost use Rattle.thr_dc.specs.Frames.{with_planes};
ghost use Rattle.thr_dc.specs.Prediction.{applied};
ghost use Rattle.thr_frame.specs.CodedFrame.{intra_mode, kinds_of};
ghost use Rattle.enc_packet.specs.FullRows.{full_rows};

use crate::{Head, Rows, write_packet};
use std::alloc::Global;
use std::process::Abort;
use std::test::Fail;
use thr_dc::apply_dc;
use thr_frame::{Coded, fill_kinds, parse_frame};
use thr_setup::{Setup, import_setup};
use thr_token::Coeffs;
use vid_base::{NoMem, Shape, Vector};
use vid_geom::Geom;

fn is_small(block: &[i16; 64]) -> bool
    ensures { result ≡ true → All (λ v. unsigned_abs v ≤ 580) block.now }
{
    block.iter().all(|v| v.unsigned_abs() <= 580)
}

fn are_small(values: &[[i16; 64]]) -> bool
    ensures { result ≡ true → All (All (λ v. unsigned_abs v ≤ 580)) values.now }
{
    values.iter().all(|block| is_small(block))
}

// Whether no value passes 580 where the DC values are differences.
fn fits(
    alloc: Global,
    geom: &Geom,
    flags: &[bool],
    kinds: &[u8],
    coeffs: &Coeffs,
) -> Result<bool, NoMem>
    requires flags { length flags.now ≡ length (order_of geom.now) }
    requires kinds { length kinds.now ≡ length (order_of geom.now) }
    requires values { length coeffs.now.values.items ≡ length (order_of geom.now) }
    ensures { IfOk result (λ fits. fits ≡ true → All (All (λ v. unsigned_abs v ≤ 580)) (with_planes applied geom.now flags.now kinds.now coeffs.now.values.items)) }
{
    let mut differences = Coeffs::new(alloc);
    differences.values = Vec::from_slice(alloc, &coeffs.values)?;
    apply_dc(geom, flags, kinds, &mut differences);
    Ok(are_small(&differences.values))
}

#[tactic(auto, unfolding(thr_modes::specs::Vectors::offset_of), using(thr_frame::proofs::MotionLemmas::still_all))]
fn stills(alloc: Global, n: u32) -> Result<Vec<Vector>, NoMem>
    ensures still { IfOk result (λ v. map offset_of v.items ≡ replicate n still) }
    ensures sized { IfOk result (λ v. length v.items ≡ n) }
{
    Ok(vec![in alloc; Vector { x: 0, y: 0 }; n as usize]?)
}

// All macro blocks have mode 1 in an intra frame, and mode 0 in an inter frame.
fn same_modes(alloc: Global, geom: &Geom, intra: bool) -> Result<Vec<u8>, NoMem>
    ensures sized { IfOk result (λ v. length v.items ≡ length (macro_blocks geom.now)) }
    ensures small { IfOk result (λ v. All (λ mode. mode < 8) v.items) }
    ensures intra { IfOk result (λ v. intra ≡ true → v.items ≡ replicate (length (macro_blocks geom.now)) intra_mode) }
    ensures inter { IfOk result (λ v. intra ≡ false → v.items ≡ replicate (length (macro_blocks geom.now)) 0) }
{
    let count = geom.macro_blocks() as usize;
    if intra {
        Ok(vec![in alloc; 1u8; count]?)
    } else {
        Ok(vec![in alloc; 0u8; count]?)
    }
}

// The luma blocks of the first macro block have this DC value.
fn set_luma(values: &mut [[i16; 64]], dc: i16) {
    for (b, block) in values.iter_mut().enumerate() {
        if b < 4 {
            block[0] = dc;
        }
    }
}

// The packet of coefficients that fit.
fn write_fitting(
    alloc: Global,
    geom: &Geom,
    setup: &Setup,
    rows: &Rows,
    head: &Head<'_>,
    flags: &[bool],
    kinds: &[u8],
    coeffs: &mut Coeffs,
) -> Result<Vec<u8>, NoMem>
    requires flags { flags.now ≡ replicate (length (order_of geom.now)) true }
    requires kinds { kinds.now ≡ kinds_of geom.now head.now.modes.now }
    requires long { length kinds.now ≡ length (order_of geom.now) }
    requires qi { head.now.qi < 64 }
    requires modes { length head.now.modes.now ≡ length (macro_blocks geom.now) }
    requires small_modes { All (λ mode. mode < 8) head.now.modes.now }
    requires vectors { length head.now.vectors.now ≡ length (order_of geom.now) }
    requires intra { head.now.intra ≡ true → head.now.modes.now ≡ replicate (length (macro_blocks geom.now)) intra_mode }
    requires inter { head.now.intra ≡ false → head.now.modes.now ≡ replicate (length (macro_blocks geom.now)) 0 }
    requires still { map offset_of head.now.vectors.now ≡ replicate (length (order_of geom.now)) still }
    requires values { length coeffs.old.values.items ≡ length (order_of geom.now) }
    requires rows { rows.now ≡ full_rows (contents setup.now).forest }
{
    if fits(alloc, geom, flags, kinds, coeffs)? {
        write_packet(alloc, geom, setup, rows, head, flags, kinds, coeffs)
    } else {
        Err(NoMem)
    }
}

// The packet of a frame without motion, whose first four luma blocks have this DC value, and all other coefficients are 0.
fn written(
    alloc: Global,
    geom: &Geom,
    setup: &Setup,
    rows: &Rows,
    row: &Row,
) -> Result<Vec<u8>, NoMem>
    requires qi { row.now.qi < 64 }
    requires rows { rows.now ≡ full_rows (contents setup.now).forest }
{
    let blocks = geom.blocks();
    let flags = vec![in alloc; true; blocks as usize]?;
    let modes = same_modes(alloc, geom, row.intra)?;
    let vectors = stills(alloc, blocks)?;
    let mut kinds = vec![in alloc; 0u8; blocks as usize]?;
    fill_kinds(geom, &modes, &mut kinds);
    let mut coeffs = Coeffs::new(alloc);
    coeffs.values = vec![in alloc; [0i16; 64]; blocks as usize]?;
    set_luma(&mut coeffs.values, row.dc);
    let head = Head {
        intra: row.intra,
        qi: row.qi,
        modes: &modes,
        vectors: &vectors,
    };
    write_fitting(alloc, geom, setup, rows, &head, &flags, &kinds, &mut coeffs)
}

/// Whether the frame is intra, its quantiser index, the DC value of all luma blocks, and the packet.
struct Row {
    intra: bool,
    qi: u8,
    dc: i16,
    packet: &'static [u8],
}

/// All blocks end at once, in a run of 6 by table 0 (code 00011); the first block has the difference 1 (token 9), and the
/// other differences are 0, for which table 1 has 8 bits (codes 100 and 11001) and table 0 has 10; and an inter frame whose
/// blocks end at once.
const ROWS: [Row; 3] = [
    Row {
        intra: true,
        qi: 30,
        dc: 0,
        packet: &[0x1e, 0x00, 0x01, 0xc0, 0x00],
    },
    Row {
        intra: true,
        qi: 63,
        dc: 1,
        packet: &[0x3f, 0x01, 0x09, 0x98, 0x00],
    },
    Row {
        intra: false,
        qi: 30,
        dc: 0,
        packet: &[0x5e, 0x2e, 0xf1, 0x00, 0x1c, 0x00],
    },
];

// A frame says what the row says.
fn assert_says(rt: &impl Abort, coded: &Coded, row: &Row) {
    assert_eq!(rt; coded.intra, row.intra);
    assert!(rt; coded.qis.as_slice() == [row.qi].as_slice());
    assert!(rt; coded.flags.iter().all(|flag| *flag));
    assert_eq!(rt; coded.coeffs.values.len(), 6);
    for (b, values) in coded.coeffs.values.iter().enumerate() {
        let dc = if b < 4 { row.dc } else { 0 };
        assert_eq!(rt; values[0], dc);
        assert!(rt; values[1..].iter().all(|value| *value == 0));
    }
}

#[test]
fn a_packet_is_written_by_the_shortest_rows_and_read_as_it_was_given(
    rt: HostRuntime,
) -> Result<(), Fail> {
    let shape = Shape::new(1, 1, 0).expect(&rt, "no shape");
    let geom = Geom::new(rt.alloc(), shape)?;
    let setup = import_setup(rt.alloc())?;
    let rows = Rows::new(&setup.forest).expect(&rt, "no row holds all tokens");
    for row in &ROWS {
        assert!(rt; row.qi < 64);
        let bytes = written(rt.alloc(), &geom, &setup, &rows, row)?;
        assert!(rt; bytes.as_slice() == row.packet, "{bytes:?}");
        let coded = parse_frame(rt.alloc(), &geom, &setup, &bytes)?;
        assert_says(&rt, &coded, row);
    }
    Ok(())
}
