use crate::*;
use std::test::Fail;
use vid_base::PacketFault;

// Frames of 16 by 16 samples in 4:2:0, 25 a second, aspect 1:1, quality 30, shift 6, version 3.2.1.
const HEADER: [u8; 42] = [
    0x80, 0x74, 0x68, 0x65, 0x6F, 0x72, 0x61, 0x03, 0x02, 0x01, 0x00, 0x01, 0x00, 0x01, 0x00, 0x00,
    0x10, 0x00, 0x00, 0x10, 0x00, 0x00, 0x00, 0x00, 0x00, 0x19, 0x00, 0x00, 0x00, 0x01, 0x00, 0x00,
    0x01, 0x00, 0x00, 0x01, 0x00, 0x00, 0x00, 0x00, 0x78, 0xC0,
];

const SMALLEST: Ident = Ident {
    vrev: 1,
    fmbw: 1,
    fmbh: 1,
    picw: 16,
    pich: 16,
    picx: 0,
    picy: 0,
    frn: 25,
    frd: 1,
    parn: 1,
    pard: 1,
    cs: 0,
    nombr: 0,
    qual: 30,
    shift: 6,
    pf: 0,
};

// A header whose fields all differ, and what it says.
const VARIED: [u8; 42] = [
    0x80, 0x74, 0x68, 0x65, 0x6F, 0x72, 0x61, 0x03, 0x02, 0x05, 0x01, 0x2C, 0x00, 0xC8, 0x00, 0x12,
    0x5C, 0x00, 0x0C, 0x1C, 0x32, 0x3C, 0x00, 0x00, 0x75, 0x30, 0x00, 0x00, 0x03, 0xE9, 0x00, 0x00,
    0x0C, 0x00, 0x00, 0x0B, 0x02, 0x0F, 0x42, 0x40, 0xA4, 0xF8,
];

const VARIED_SAYS: Ident = Ident {
    vrev: 5,
    fmbw: 300,
    fmbh: 200,
    picw: 4700,
    pich: 3100,
    picx: 50,
    picy: 60,
    frn: 30_000,
    frd: 1001,
    parn: 12,
    pard: 11,
    cs: 2,
    nombr: 1_000_000,
    qual: 41,
    shift: 7,
    pf: 3,
};

// The greatest number that each field takes in a frame as wide as can be, and in one as high.
const WIDEST: [u8; 42] = [
    0x80, 0x74, 0x68, 0x65, 0x6F, 0x72, 0x61, 0x03, 0x02, 0xFF, 0xFF, 0xFF, 0x00, 0x02, 0x0F, 0xFE,
    0xF1, 0x00, 0x00, 0x01, 0xFF, 0x1F, 0xFF, 0xFF, 0xFF, 0xFF, 0xFF, 0xFF, 0xFF, 0xFF, 0xFF, 0xFF,
    0xFF, 0xFF, 0xFF, 0xFF, 0xFF, 0xFF, 0xFF, 0xFF, 0xFF, 0xF8,
];

const WIDEST_SAYS: Ident = Ident {
    vrev: 255,
    fmbw: 65_535,
    fmbh: 2,
    picw: 1_048_305,
    pich: 1,
    picx: 255,
    picy: 31,
    frn: 4_294_967_295,
    frd: 4_294_967_295,
    parn: 16_777_215,
    pard: 16_777_215,
    cs: 255,
    nombr: 16_777_215,
    qual: 63,
    shift: 31,
    pf: 3,
};

const HIGHEST: [u8; 42] = [
    0x80, 0x74, 0x68, 0x65, 0x6F, 0x72, 0x61, 0x03, 0x02, 0xFF, 0x00, 0x02, 0xFF, 0xFF, 0x00, 0x00,
    0x01, 0x0F, 0xFE, 0xF1, 0x1F, 0xFF, 0xFF, 0xFF, 0xFF, 0xFF, 0xFF, 0xFF, 0xFF, 0xFF, 0xFF, 0xFF,
    0xFF, 0xFF, 0xFF, 0xFF, 0xFF, 0xFF, 0xFF, 0xFF, 0xFF, 0xF8,
];

const HIGHEST_SAYS: Ident = Ident {
    vrev: 255,
    fmbw: 2,
    fmbh: 65_535,
    picw: 1,
    pich: 1_048_305,
    picx: 31,
    picy: 255,
    frn: 4_294_967_295,
    frd: 4_294_967_295,
    parn: 16_777_215,
    pard: 16_777_215,
    cs: 255,
    nombr: 16_777_215,
    qual: 63,
    shift: 31,
    pf: 3,
};

// Bytes of `HEADER` that are others, from a place on, and the fault that then comes first.
const FIELDS: [(&str, usize, &[u8], Option<PacketFault>); 45] = [
    ("type 0x81", 0, &[0x81], Some(PacketFault::NotIdent)),
    ("no theora", 6, b"A", Some(PacketFault::NotIdent)),
    ("VMAJ 2", 7, &[2], Some(PacketFault::Version)),
    ("VMAJ 4", 7, &[4], Some(PacketFault::Version)),
    ("VMIN 1", 8, &[1], Some(PacketFault::Version)),
    ("VMIN 3", 8, &[3], Some(PacketFault::Version)),
    ("VREV 255", 9, &[255], None),
    ("FMBW 0", 10, &[0, 0], Some(PacketFault::BadSize)),
    ("FMBH 0", 12, &[0, 0], Some(PacketFault::BadSize)),
    ("512 by 256 macro blocks", 10, &[2, 0, 1, 0], None),
    (
        "43691 by 3 macro blocks",
        10,
        &[0xAA, 0xAB, 0, 3],
        Some(PacketFault::TooLarge),
    ),
    (
        "3 by 43691 macro blocks",
        10,
        &[0, 3, 0xAA, 0xAB],
        Some(PacketFault::TooLarge),
    ),
    ("PICW 0", 14, &[0, 0, 0], Some(PacketFault::BadSize)),
    ("PICW 1", 14, &[0, 0, 1], None),
    ("PICW 17", 14, &[0, 0, 17], Some(PacketFault::BadSize)),
    ("PICW 2^16", 14, &[1, 0, 0], Some(PacketFault::BadSize)),
    ("PICH 0", 17, &[0, 0, 0], Some(PacketFault::BadSize)),
    ("PICH 1", 17, &[0, 0, 1], None),
    ("PICH 17", 17, &[0, 0, 17], Some(PacketFault::BadSize)),
    (
        "PICH 17 of 2 by 1",
        10,
        &[0, 2, 0, 1, 0, 0, 16, 0, 0, 17],
        Some(PacketFault::BadSize),
    ),
    (
        "PICH 32 of 1 by 2",
        10,
        &[0, 1, 0, 2, 0, 0, 16, 0, 0, 32],
        None,
    ),
    ("PICX 1", 20, &[1], Some(PacketFault::BadSize)),
    ("PICX 1 at PICW 15", 14, &[0, 0, 15, 0, 0, 16, 1, 0], None),
    (
        "PICX 1 at PICH 15",
        14,
        &[0, 0, 16, 0, 0, 15, 1, 0],
        Some(PacketFault::BadSize),
    ),
    ("PICY 1", 21, &[1], Some(PacketFault::BadSize)),
    ("PICY 1 at PICH 15", 17, &[0, 0, 15, 0, 1], None),
    (
        "PICY 255 of 17",
        12,
        &[0, 17, 0, 0, 16, 0, 0, 17, 0, 255],
        None,
    ),
    ("FRN 0", 22, &[0, 0, 0, 0], Some(PacketFault::BadRate)),
    ("FRN 2^32 - 1", 22, &[255, 255, 255, 255], None),
    ("FRD 0", 26, &[0, 0, 0, 0], Some(PacketFault::BadRate)),
    ("FRD 2^32 - 1", 26, &[255, 255, 255, 255], None),
    ("PARN and PARD 0", 30, &[0, 0, 0, 0, 0, 0], None),
    (
        "PARN and PARD 2^24 - 1",
        30,
        &[255, 255, 255, 255, 255, 255],
        None,
    ),
    ("CS 255", 36, &[255], None),
    ("NOMBR 2^24 - 1", 37, &[255, 255, 255], None),
    ("QUAL 63 and shift 31", 40, &[0xFF, 0xE0], None),
    ("QUAL 0 and shift 0", 40, &[0, 0], None),
    ("PF 1", 41, &[0xC8], Some(PacketFault::PixelFormat)),
    ("PF 2", 41, &[0xD0], None),
    ("PF 3", 41, &[0xD8], None),
    ("reserved 1", 41, &[0xC1], Some(PacketFault::Reserved)),
    ("reserved 2", 41, &[0xC2], Some(PacketFault::Reserved)),
    ("reserved 4", 41, &[0xC4], Some(PacketFault::Reserved)),
    (
        "PICW 0 and 65535 by 65535",
        10,
        &[255, 255, 255, 255, 0, 0, 0],
        Some(PacketFault::BadSize),
    ),
    (
        "PF 1 and reserved 7",
        41,
        &[0xCF],
        Some(PacketFault::PixelFormat),
    ),
];

// Two changes to `HEADER`, each of which is a fault of its own, and the fault that comes first.
const ORDER: [(&str, (usize, &[u8]), (usize, &[u8]), PacketFault); 6] = [
    ("name, version", (0, &[0]), (7, &[2]), PacketFault::NotIdent),
    (
        "version, size",
        (8, &[3]),
        (10, &[0, 0]),
        PacketFault::Version,
    ),
    (
        "size, rate",
        (21, &[1]),
        (22, &[0, 0, 0, 0]),
        PacketFault::BadSize,
    ),
    (
        "limit, rate",
        (10, &[255, 255, 255, 255]),
        (26, &[0, 0, 0, 0]),
        PacketFault::TooLarge,
    ),
    (
        "rate, format",
        (26, &[0, 0, 0, 0]),
        (41, &[0xC8]),
        PacketFault::BadRate,
    ),
    (
        "version, reserved",
        (7, &[0]),
        (41, &[0xC1]),
        PacketFault::Version,
    ),
];

// The comment header of a file made here, and one with two comments, the second empty.
const COMMENT: [u8; 21] = *b"\x81theora\x06\0\0\0oggcut\0\0\0\0";

const TWO_COMMENTS: [u8; 26] = *b"\x81theora\0\0\0\0\x02\0\0\0\x03\0\0\0a=b\0\0\0\0";

fn change(header: &mut [u8; 42], place: usize, bytes: &[u8]) {
    for (byte, new) in header.iter_mut().skip(place).zip(bytes) {
        *byte = *new;
    }
}

#[test]
fn the_header_of_the_smallest_frame_has_these_42_bytes(rt: HostRuntime) {
    let mut out = Vec::new(rt.alloc());
    assert_eq!(rt; out.push(7).is_ok(), true);
    assert_eq!(rt; write_ident(&SMALLEST, &mut out), Ok(()));
    assert!(rt; out.len() == 43 && out[0] == 7);
    assert!(rt; &out[1..] == HEADER.as_slice());
    assert_eq!(rt; read_ident(&HEADER), Ok(SMALLEST));
    let shape = SMALLEST.shape();
    assert_eq!(rt; (shape.fmbw, shape.fmbh, shape.pf), (1, 1, 0));
}

#[test]
fn each_field_stands_at_its_own_place_up_to_its_greatest_number(rt: HostRuntime) {
    let rows = [
        (VARIED, VARIED_SAYS),
        (WIDEST, WIDEST_SAYS),
        (HIGHEST, HIGHEST_SAYS),
    ];
    for (bytes, says) in rows {
        let mut out = Vec::new(rt.alloc());
        assert_eq!(rt; write_ident(&says, &mut out), Ok(()));
        assert!(rt; out.as_slice() == bytes.as_slice());
        assert_eq!(rt; read_ident(&bytes), Ok(says));
    }
    let shape = VARIED_SAYS.shape();
    assert_eq!(rt; (shape.fmbw, shape.fmbh, shape.pf), (300, 200, 3));
}

#[test]
fn each_field_is_accepted_at_its_bound_and_refused_behind_it(rt: HostRuntime) {
    for (name, place, bytes, want) in FIELDS {
        let mut header = HEADER;
        change(&mut header, place, bytes);
        assert_eq!(rt; read_ident(&header).err(), want, "{name}");
    }
}

#[test]
fn of_two_faults_the_first_in_the_header_is_told(rt: HostRuntime) {
    for (name, one, other, want) in ORDER {
        let mut header = HEADER;
        change(&mut header, one.0, one.1);
        change(&mut header, other.0, other.1);
        assert_eq!(rt; read_ident(&header).err(), Some(want), "{name}");
    }
}

#[test]
fn a_header_cut_before_its_42_bytes_has_ended(rt: HostRuntime) {
    let mut header = HEADER;
    change(&mut header, 7, &[9]);
    for length in 0..42 {
        let want = if length < 7 {
            PacketFault::NotIdent
        } else {
            PacketFault::Ended
        };
        assert_eq!(rt; read_ident(&HEADER[..length]).err(), Some(want), "{length}");
        assert_eq!(rt; read_ident(&header[..length]).err(), Some(want), "{length}");
    }
}

#[test]
fn a_comment_header_cut_anywhere_has_a_length_past_its_end(rt: HostRuntime) {
    for packet in [COMMENT.as_slice(), TWO_COMMENTS.as_slice()] {
        for length in 0..packet.len() {
            let want = if length < 7 {
                PacketFault::NotComment
            } else {
                PacketFault::CommentLength
            };
            assert_eq!(rt; read_comment(&packet[..length]), Err(want), "{length}");
        }
        assert_eq!(rt; read_comment(packet), Ok(()));
    }
}

#[test]
fn the_smallest_packets_that_are_no_headers(rt: HostRuntime) {
    assert_eq!(rt; read_ident(b"").err(), Some(PacketFault::NotIdent));
    assert_eq!(rt; read_ident(b"\x80theora").err(), Some(PacketFault::Ended));
    assert_eq!(rt; read_comment(b""), Err(PacketFault::NotComment));
    assert_eq!(rt;
        read_comment(b"\x81theora"),
        Err(PacketFault::CommentLength)
    );
}

#[test]
fn the_comment_header_of_streams_made_here_is_one(rt: HostRuntime) {
    assert!(rt; own_comment() == COMMENT.as_slice());
    assert_eq!(rt; read_comment(own_comment()), Ok(()));
}

#[test]
fn a_comment_header_holds_very_many_texts_and_long_ones(rt: HostRuntime) -> Result<(), Fail> {
    let mut packet = b"\x81theora".to_vec(rt.alloc())?;
    packet.extend_from_slice(&200_000u32.to_le_bytes())?;
    for _ in 0..200_000 {
        packet.push(0xFF)?;
    }
    packet.extend_from_slice(&100_000u32.to_le_bytes())?;
    for _ in 0..100_000 {
        packet.extend_from_slice(&[1, 0, 0, 0, b'='])?;
    }
    assert_eq!(rt; read_comment(&packet), Ok(()));
    let _ = packet.pop();
    assert_eq!(rt; read_comment(&packet), Err(PacketFault::CommentLength));
    Ok(())
}

#[test]
fn a_comment_header_is_judged_by_its_lengths_alone(rt: HostRuntime) {
    let rows: [(&[u8], Result<(), PacketFault>); 6] = [
        (b"\x81theora\0\0\0\0\0\0\0\0behind", Ok(())),
        (b"\x81theora\x01\0\0\0\xff\0\0\0\0", Ok(())),
        (b"\x80theora\0\0\0\0\0\0\0\0", Err(PacketFault::NotComment)),
        (
            b"\x81theora\0\0\0\0\xff\xff\xff\xff",
            Err(PacketFault::CommentLength),
        ),
        (
            b"\x81theora\xff\xff\xff\xff\0\0\0\0",
            Err(PacketFault::CommentLength),
        ),
        (
            b"\x81theora\0\0\0\x01\0\0\0\0",
            Err(PacketFault::CommentLength),
        ),
    ];
    for (packet, want) in rows {
        assert_eq!(rt; read_comment(packet), want);
    }
}
