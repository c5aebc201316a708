ghost use Rattle.std.specs.Prelude.{◌≡◌, IfOk};
ghost use Rattle.thr_ident.specs.Ident.{header_of};
ghost use Rattle.thr_ident.specs.Shape.{shape_of};
ghost use Rattle.vid_plane.specs.Picture.{IsLike};
ghost use Rattle.vid_plane.specs.Frames.{IsFrameOf};
ghost use Rattle.thr_frame.specs.Painted.{AreSealed};

use crate::*;
use std::alloc::Global;
use std::process::Abort;
use std::test::Fail;
use thr_huff::{read_forest, write_forest};
use thr_ident::Ident;
use thr_setup::import_setup;
use vid_base::{BitReader, BitWriter, NoMem, Shape};
use vid_plane::{Frame, Plane};

/// Frames of one macro block in 4:2:0.
const IDENT: Ident = Ident {
    vrev: 1,
    fmbw: 1,
    fmbh: 1,
    picw: 16,
    pich: 16,
    picx: 0,
    picy: 0,
    frn: 25,
    frd: 1,
    parn: 1,
    pard: 1,
    cs: 0,
    nombr: 0,
    qual: 30,
    shift: 6,
    pf: 0,
};

/// What the luma of a frame shows.
#[derive(Clone, Copy)]
enum Luma {
    /// One value.
    Even(u8),
    /// Ten more from column to column, so many columns further on.
    Slope(u32),
}

fn sample(luma: Luma, x: u32) -> u8 {
    match luma {
        Luma::Even(value) => value,
        Luma::Slope(by) => (10 * (x % 16).saturating_add(by).min(15)) as u8,
    }
}

fn draw(plane: &mut Plane, luma: Luma)
    ensures { IsLike plane.old plane.new }
{
    for y in 0..plane.height() {
        for x in 0..plane.width() {
            plane.set(x, y, sample(luma, x));
        }
    }
}

// A frame of that shape with that luma, and chroma 128.
fn drawn(alloc: Global, shape: Shape, luma: Luma) -> Result<Frame, NoMem>
    ensures sized { IfOk result (λ frame. IsFrameOf shape frame) }
    ensures sealed { IfOk result AreSealed }
{
    let mut frame = Frame::new(alloc, shape)?;
    draw(&mut frame.y, luma);
    draw(&mut frame.cb, Luma::Even(128));
    draw(&mut frame.cr, Luma::Even(128));
    frame.seal();
    Ok(frame)
}

fn encoder(rt: &impl Abort, alloc: Global, ident: &Ident) -> Encoder
    ensures { result.shape ≡ shape_of (header_of ident.now) }
{
    let setup = import_setup(alloc).expect(rt, "no memory");
    Encoder::new(alloc, ident, &setup).expect(rt, "no memory")
}

// Each sample of a plane has this value.
fn is_even(plane: &Plane, value: u8) -> bool {
    for y in 0..plane.height() {
        for sample in plane.row(y) {
            if *sample != value {
                return false;
            }
        }
    }
    true
}

// These eighty trees of 32 leaves, with token 5 in place of token 6 in each of the first sixteen.
fn without_a_token(rt: &impl Abort, alloc: Global, trees: &[u8]) -> Vec<u8> {
    let mut r = BitReader::new(trees);
    let mut w = BitWriter::new(alloc);
    // Such a tree has 63 forks and leaves.
    for node in 0..80 * 63 {
        if r.bit().expect(rt, "a fork or a leaf") {
            let token = r.take(5).expect(rt, "a token");
            let other = if token == 6 && node < 16 * 63 {
                5
            } else {
                token
            };
            w.put(1, 1).expect(rt, "no memory");
            w.put(other, 5).expect(rt, "no memory");
        } else {
            w.put(0, 1).expect(rt, "no memory");
        }
    }
    w.finish()
}

#[test]
fn a_setup_without_a_full_row_cannot_code_a_frame(rt: HostRuntime) -> Result<(), Fail> {
    let mut w = BitWriter::new(rt.alloc());
    write_forest(&mut w, &import_setup(rt.alloc())?.forest).expect(&rt, "no memory");
    let lacking = without_a_token(&rt, rt.alloc(), &w.finish());
    // Eighty times a leaf with token 0: four leaves fill three bytes.
    let leaves = [[0x82u8, 0x08, 0x20]; 20];
    for trees in [leaves.as_flattened(), lacking.as_slice()] {
        let mut setup = import_setup(rt.alloc())?;
        let mut r = BitReader::new(trees);
        setup.forest = read_forest(rt.alloc(), &mut r).expect(&rt, "eighty trees");
        match Encoder::new(rt.alloc(), &IDENT, &setup) {
            Ok(_) => assert!(rt; false),
            Err(fault) => assert!(rt; fault == EncFault::NoFullTables),
        }
    }
    Ok(())
}

/// A quantiser index, the luma that is shown for 129, and how far the two are apart in all 256 samples.
const EVEN: [(u8, u8, Diff); 2] = [
    (49, 129, Diff { max: 0, sum: 0 }),
    (30, 128, Diff { max: 1, sum: 256 }),
];

#[test]
fn an_even_frame_is_shown_as_near_as_the_matrix_allows(rt: HostRuntime) -> Result<(), Fail> {
    for (qi, luma, difference) in EVEN {
        assert!(rt; qi < 64);
        let target = drawn(rt.alloc(), IDENT.shape(), Luma::Even(129))?;
        let mut out = Vec::new(rt.alloc());
        let mut encoder = encoder(&rt, rt.alloc(), &IDENT);
        encoder.key(&target, qi, &mut out).expect(&rt, "no memory");
        let frame = encoder.frame();
        assert!(rt; is_even(&frame.y, luma), "luma at {qi}");
        assert!(rt; is_even(&frame.cb, 128) && is_even(&frame.cr, 128));
        assert!(rt; encoder.difference() == difference, "difference at {qi}");
    }
    Ok(())
}

#[test]
fn an_inter_packet_of_a_slope_that_moves_is_shorter_than_its_key_packet(
    rt: HostRuntime,
) -> Result<(), Fail> {
    let first = drawn(rt.alloc(), IDENT.shape(), Luma::Slope(0))?;
    let second = drawn(rt.alloc(), IDENT.shape(), Luma::Slope(2))?;
    let mut encoder = encoder(&rt, rt.alloc(), &IDENT);
    let mut key = Vec::new(rt.alloc());
    encoder.key(&first, 40, &mut key).expect(&rt, "no memory");
    let mut inter = Vec::new(rt.alloc());
    encoder
        .inter(&second, 40, &mut inter)
        .expect(&rt, "no memory");
    assert!(rt; inter.len() < key.len());
    Ok(())
}
