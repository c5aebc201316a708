mod clip;
mod headers;

use crate::*;
use clip::FRAMES;
use headers::{IDENT_HEADER, SETUP_HEADER};
use std::alloc::Global;
use std::process::Abort;
use std::test::Fail;
use thr_ident::{Ident, read_ident};
use thr_setup::{import_setup, read_setup};
use vid_base::PacketFault;
use vid_plane::Plane;

/// Frames of one macro block in 4:2:0.
const IDENT: Ident = Ident {
    vrev: 1,
    fmbw: 1,
    fmbh: 1,
    picw: 16,
    pich: 16,
    picx: 0,
    picy: 0,
    frn: 25,
    frd: 1,
    parn: 1,
    pard: 1,
    cs: 0,
    nombr: 0,
    qual: 30,
    shift: 6,
    pf: 0,
};

fn decoder(rt: &impl Abort, alloc: Global) -> Decoder {
    let setup = import_setup(alloc).expect(rt, "no memory");
    Decoder::new(alloc, &IDENT, &setup).expect(rt, "no memory")
}

/// A key frame whose blocks have no coefficient.
const GREY: &[u8] = &[0x1e, 0x00, 0x01, 0xc0, 0x00];

/// One whose first block has the difference 1 at index 49, so that all luma blocks have a DC value.
const LIGHT: &[u8] = &[0x31, 0x00, 0x04, 0x8d, 0x00, 0x00];

/// An inter frame without a coded block.
const STILL: &[u8] = &[0x40, 0x2a, 0x80];

// Each sample of a plane has this value.
fn is_even(plane: &Plane, value: u8) -> bool {
    for y in 0..plane.height() {
        for sample in plane.row(y) {
            if *sample != value {
                return false;
            }
        }
    }
    true
}

// A decoder shows a luma of this value, and a chroma of 128.
fn assert_shows(rt: &impl Abort, decoder: &Decoder, luma: u8) {
    assert!(rt; decoder.started());
    let frame = decoder.frame();
    assert_eq!(rt; frame.y.width(), 16);
    assert_eq!(rt; frame.y.height(), 16);
    assert_eq!(rt; frame.cr.width(), 8);
    assert_eq!(rt; frame.cr.height(), 8);
    assert!(rt; is_even(&frame.y, luma), "luma {luma}");
    assert!(rt; is_even(&frame.cb, 128) && is_even(&frame.cr, 128));
}

/// Packets with what they answer, and the luma that is shown then; 0 where no frame is.
const STEPS: [(&[u8], Result<Kind, PacketFault>, u8); 12] = [
    (&[], Err(PacketFault::FirstNotKey), 0),
    (STILL, Err(PacketFault::FirstNotKey), 0),
    (&[0x1e, 0x00], Err(PacketFault::Ended), 0),
    (GREY, Ok(Kind::Intra), 128),
    (STILL, Ok(Kind::Inter), 128),
    (&[0x3f, 0x00, 0x04, 0x8d, 0x00, 0x00], Ok(Kind::Intra), 128),
    (LIGHT, Ok(Kind::Intra), 129),
    (&[], Ok(Kind::Repeat), 129),
    (&[0x1e, 0x00], Err(PacketFault::Ended), 129),
    (STILL, Ok(Kind::Inter), 129),
    (&[0x80], Err(PacketFault::NotData), 129),
    (GREY, Ok(Kind::Intra), 128),
];

#[test]
fn packets_show_their_frames_and_faults_change_none(rt: HostRuntime) -> Result<(), Fail> {
    let mut decoder = decoder(&rt, rt.alloc());
    for (number, (packet, answer, luma)) in STEPS.iter().enumerate() {
        let got = decoder.step(packet);
        assert!(rt; got == *answer, "step {number}");
        assert_eq!(rt; decoder.started(), *luma != 0);
        if *luma != 0 {
            assert_shows(&rt, &decoder, *luma);
        }
    }
    Ok(())
}

// A number of a plane's samples behind those of others.
fn digest(mut sum: u32, plane: &Plane) -> u32 {
    for y in 0..plane.height() {
        for sample in plane.row(y) {
            sum = sum.wrapping_mul(16_777_619) ^ u32::from(*sample);
        }
    }
    sum
}

#[test]
fn a_clip_of_libtheora_is_decoded_as_ffmpeg_does(rt: HostRuntime) -> Result<(), Fail> {
    let ident = read_ident(IDENT_HEADER)?;
    let setup = read_setup(rt.alloc(), SETUP_HEADER)?;
    let mut decoder = Decoder::new(rt.alloc(), &ident, &setup)?;
    for (number, (packet, wanted)) in FRAMES.iter().enumerate() {
        assert!(rt; decoder.step(packet).is_ok(), "step {number}");
        assert!(rt; decoder.started());
        let frame = decoder.frame();
        let shown = digest(digest(digest(0, &frame.y), &frame.cb), &frame.cr);
        assert_eq!(rt; (number, shown), (number, *wanted));
    }
    Ok(())
}
