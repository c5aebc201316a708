ghost use Rattle.std.specs.Prelude.{◌≡◌, ◌<◌, IfOk};
ghost use Rattle.vid_plane.specs.Picture.{IsLike};
ghost use Rattle.vid_plane.specs.Frames.{IsFrameOf};
ghost use Rattle.y4m_io.specs.Crop.{shape_of};
ghost use Rattle.y4m_io.specs.Pictures.{samples_of, IsPicture, IsSize};

use crate::*;
use std::alloc::Global;
use std::fmt::Debug;
use std::process::Abort;
use thr_ident::{Ident, read_ident};
use vid_plane::{Frame, Plane};

mod refusals;

// A row of a table holds.
fn holds(rt: &impl Abort, so: bool, row: &impl Debug) {
    assert!(rt; so, "{row:?}");
}

/// An identification header of a coded frame of 16 by 16 samples: the picture's width and height, its place, and the format.
fn ident(rt: &impl Abort, [w, h, x, y, pf]: [u8; 5]) -> Ident {
    let mut bytes = [
        0x80, 0x74, 0x68, 0x65, 0x6F, 0x72, 0x61, 3, 2, 1, 0, 1, 0, 1, 0, 0, 16, 0, 0, 16, 0, 0, 0,
        0, 0, 25, 0, 0, 0, 1, 0, 0, 1, 0, 0, 1, 0, 0, 0, 0, 0x78, 0xC0,
    ];
    bytes[16] = w;
    bytes[19] = h;
    bytes[20] = x;
    bytes[21] = y;
    bytes[41] = 0xC0 + (pf & 3) * 8;
    read_ident(&bytes).expect(rt, "no header")
}

// Each sample is 16 times its row, counted from the lowest, and its column.
fn draw(plane: &mut Plane)
    ensures { IsLike plane.old plane.new }
{
    for y in 0..plane.height() {
        for x in 0..plane.width() {
            plane.set(x, y, (16 * (y & 15) + (x & 15)) as u8);
        }
    }
}

#[tactic(auto, using(crate::proofs::CropLemmas::frame_of_ident))]
fn drawn_frame(rt: &impl Abort, alloc: Global, ident: &Ident) -> Frame
    ensures { IsFrameOf (shape_of ident.now) result }
{
    let mut frame = Frame::new(alloc, ident.shape()).expect(rt, "no memory");
    draw(&mut frame.y);
    draw(&mut frame.cb);
    draw(&mut frame.cr);
    frame
}

#[tactic(auto, using(crate::proofs::CropLemmas::size_of_ident))]
fn cropped(rt: &impl Abort, alloc: Global, header: [u8; 5]) -> Picture {
    let ident = ident(rt, header);
    let frame = drawn_frame(rt, alloc, &ident);
    let picture = Picture::new(alloc, ident.picw, ident.pich, ident.pf);
    let mut picture = picture.expect(rt, "no memory");
    picture.crop(&frame, &ident);
    picture
}

/// Width, height, column and row of the picture in the frame, and the format; then its luma and its chroma, from the top.
const CROPS: [([u8; 5], &[u8], &[u8]); 6] = [
    (
        [3, 3, 1, 1, 0],
        &[49, 50, 51, 33, 34, 35, 17, 18, 19],
        &[16, 17, 0, 1],
    ),
    (
        [3, 3, 1, 1, 2],
        &[49, 50, 51, 33, 34, 35, 17, 18, 19],
        &[48, 49, 32, 33, 16, 17],
    ),
    (
        [3, 3, 1, 1, 3],
        &[49, 50, 51, 33, 34, 35, 17, 18, 19],
        &[49, 50, 51, 33, 34, 35, 17, 18, 19],
    ),
    ([3, 2, 3, 5, 0], &[99, 100, 101, 83, 84, 85], &[33, 34]),
    ([2, 1, 14, 15, 0], &[254, 255], &[119]),
    ([1, 1, 0, 0, 3], &[0], &[0]),
];

// A picture has these samples.
fn shows(rt: &impl Abort, picture: &Picture, luma: &[u8], cb: &[u8], cr: &[u8], row: &impl Debug) {
    holds(rt, picture.y.as_slice() == luma, row);
    holds(rt, picture.cb.as_slice() == cb, row);
    holds(rt, picture.cr.as_slice() == cr, row);
}

#[test]
fn a_picture_is_cut_out_of_a_frame_from_the_top_row_down(rt: HostRuntime) {
    for &(header, luma, chroma) in &CROPS {
        let picture = cropped(&rt, rt.alloc(), header);
        shows(&rt, &picture, luma, chroma, chroma, &header);
    }
}

// Whether a picture of this size is written in the bytes of its samples and of a frame's line.
fn is_written_whole(rt: &impl Abort, alloc: Global, w: u32, h: u32, pf: u8) -> bool
    requires { IsSize w h pf }
{
    let picture = Picture::new(alloc, w, h, pf).expect(rt, "no memory");
    let mut out = Vec::new(alloc);
    assert!(rt; write_frame(&mut out, &picture).is_ok());
    assert!(rt; picture.y.len() < 1 << 40 && picture.cb.len() < 1 << 40);
    out.len() == 6 + picture.y.len() + 2 * picture.cb.len()
}

#[test]
fn memory_is_found_for_the_greatest_pictures(rt: HostRuntime) {
    for (w, h, pf) in [
        (1, 1, 0),
        (1, 2_097_152, 0),
        (2_097_152, 1, 2),
        (8192, 4096, 3),
    ] {
        holds(&rt, is_written_whole(&rt, rt.alloc(), w, h, pf), &(w, h));
    }
}

/// Heads, as they are written.
const HEADS: [(Head, &[u8]); 3] = [
    (
        Head {
            w: 640,
            h: 360,
            frn: 30,
            frd: 1,
            parn: 1,
            pard: 1,
            pf: 0,
        },
        b"YUV4MPEG2 W640 H360 F30:1 Ip A1:1 C420jpeg\n",
    ),
    (
        Head {
            w: 1,
            h: 1,
            frn: 30_000,
            frd: 1001,
            parn: 0,
            pard: 0,
            pf: 2,
        },
        b"YUV4MPEG2 W1 H1 F30000:1001 Ip A0:0 C422\n",
    ),
    (
        Head {
            w: u32::MAX,
            h: u32::MAX,
            frn: u32::MAX,
            frd: u32::MAX,
            parn: u32::MAX,
            pard: u32::MAX,
            pf: 3,
        },
        b"YUV4MPEG2 W4294967295 H4294967295 F4294967295:4294967295 Ip A4294967295:4294967295 C444\n",
    ),
];

// Whether a head is written as this text.
fn is_written(rt: &impl Abort, alloc: Global, head: &Head, text: &[u8]) -> bool {
    assert!(rt; head.pf <= 3 && head.pf != 1);
    let mut out = Vec::new(alloc);
    assert!(rt; write_head(&mut out, head).is_ok());
    out.as_slice() == text
}

#[test]
fn a_head_has_its_numbers_and_the_name_of_its_format(rt: HostRuntime) {
    for (head, text) in &HEADS {
        holds(&rt, is_written(&rt, rt.alloc(), head, text), head);
    }
}

// Whether a part of a text stands at a place.
fn stands_at(text: &[u8], at: usize, part: &[u8]) -> bool {
    match text.get(at..) {
        Some(rest) => rest.starts_with(part),
        None => false,
    }
}

/// Where these bytes stand in the film of one frame of 16 by 16: the head, the first row of luma and the last sample of it, the
/// first row of Cb, and the first of Cr.
const MADE: [(usize, &[u8]); 5] = [
    (0, b"YUV4MPEG2 W16 H16 F25:1 Ip A1:1 C420jpeg\nFRAME\n"),
    (
        47,
        &[
            32, 33, 34, 35, 36, 37, 38, 39, 40, 41, 42, 43, 44, 45, 46, 47,
        ],
    ),
    (302, &[62]),
    (303, &[96, 97, 98, 99, 100, 101, 102, 103]),
    (367, &[160, 160, 160, 160, 160, 160, 160, 160]),
];

// A picture of a made film in 4:2:0.
fn made(rt: &impl Abort, alloc: Global, w: u32, h: u32, start: u32, n: u32) -> Picture
    requires { IsSize w h 0 }
    ensures { IsPicture (samples_of result) }
{
    let mut picture = Picture::new(alloc, w, h, 0).expect(rt, "no memory");
    make_frame(&mut picture, start, n);
    picture
}

#[test]
fn a_made_film_of_16_by_16_has_431_bytes_for_a_frame(rt: HostRuntime) {
    let picture = made(&rt, rt.alloc(), 16, 16, 0, 0);
    let mut out = Vec::new(rt.alloc());
    assert!(rt; write_head(&mut out, &Head::generated(16, 16)).is_ok());
    assert!(rt; write_frame(&mut out, &picture).is_ok());
    assert_eq!(rt; out.len(), 431);
    for &(at, part) in &MADE {
        holds(&rt, stands_at(&out, at, part), &at);
    }
}

/// Start and frame, and the picture of 2 by 2: four samples of luma, one of Cb and one of Cr.
const FILMS: [(u32, u32, &[u8], &[u8], &[u8]); 6] = [
    (0, 1, &[35, 36, 36, 37], &[97], &[159]),
    (63, 0, &[95, 95, 96, 96], &[159], &[160]),
    (64, 0, &[95, 94, 96, 95], &[159], &[160]),
    (128, 0, &[33, 34, 34, 35], &[96], &[159]),
    (16_511, 0, &[32, 32, 33, 33], &[96], &[160]),
    (u32::MAX, u32::MAX, &[35, 34, 34, 33], &[97], &[159]),
];

#[test]
fn films_move_and_begin_where_they_are_told_to(rt: HostRuntime) {
    for &(start, n, luma, cb, cr) in &FILMS {
        let picture = made(&rt, rt.alloc(), 2, 2, start, n);
        shows(&rt, &picture, luma, cb, cr, &(start, n));
    }
}

/// A place of a frame of 16 by 16 samples, and what a picture of 3 by 2 has there: luma 1 2 3 over 4 5 6, Cb 7 8, Cr 9 10.
const PADDED: [(u32, u32, u8); 8] = [
    (0, 0, 4),
    (2, 0, 6),
    (3, 0, 6),
    (15, 0, 6),
    (0, 1, 1),
    (0, 15, 1),
    (2, 2, 3),
    (15, 15, 3),
];

/// A place in chroma, and what is there in Cb and in Cr.
const PADDED_CHROMA: [(u32, u32, u8, u8); 4] = [
    (0, 0, 7, 9),
    (0, 7, 7, 9),
    (1, 0, 8, 10),
    (7, 7, 8, 10),
];

// The picture, in a frame.
#[tactic(auto, using(crate::proofs::CropLemmas::frame_of_ident))]
fn padded(rt: &impl Abort, alloc: Global) -> Frame {
    let picture = Picture::new(alloc, 3, 2, 0);
    let mut picture = picture.expect(rt, "no memory");
    picture.y.copy_from_slice(&[1, 2, 3, 4, 5, 6]);
    picture.cb.copy_from_slice(&[7, 8]);
    picture.cr.copy_from_slice(&[9, 10]);
    let mut frame = drawn_frame(rt, alloc, &ident(rt, [3, 2, 0, 0, 0]));
    picture.pad(&mut frame);
    frame
}

// Whether a plane has a sample at a place.
fn has(rt: &impl Abort, plane: &Plane, x: u32, y: u32, sample: u8) -> bool {
    assert!(rt; x < plane.width() && y < plane.height());
    plane.sample(x, y) == sample
}

#[test]
fn a_picture_is_padded_to_the_right_and_upwards(rt: HostRuntime) {
    let frame = padded(&rt, rt.alloc());
    assert!(rt; frame.y.sealed() && frame.cb.sealed() && frame.cr.sealed());
    for &(x, y, sample) in &PADDED {
        holds(&rt, has(&rt, &frame.y, x, y, sample), &(x, y));
    }
    for &(x, y, cb, cr) in &PADDED_CHROMA {
        holds(&rt, has(&rt, &frame.cb, x, y, cb), &(x, y));
        holds(&rt, has(&rt, &frame.cr, x, y, cr), &(x, y));
    }
}
