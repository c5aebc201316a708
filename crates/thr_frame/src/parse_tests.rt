use crate::*;
use std::alloc::Global;
use std::process::Abort;
use std::test::Fail;
use thr_setup::{Setup, import_setup};
use vid_base::{PacketFault, Refusal, Shape, Vector};
use vid_geom::Geom;

// Frames of one macro block in 4:2:0, which has six blocks in three superblocks.
fn one_macro_block(rt: &impl Abort, alloc: Global) -> Geom {
    let shape = Shape::new(1, 1, 0).expect(rt, "no shape");
    Geom::new(alloc, shape).expect(rt, "no memory")
}

// Its trees of number 0 give token t the 5-bit code t.
fn setup_of(rt: &impl Abort, alloc: Global) -> Setup {
    import_setup(alloc).expect(rt, "no memory")
}

/// What a packet says: all blocks of these frames have one flag and one place, and all luma blocks one DC value.
struct Said {
    packet: &'static [u8],
    intra: bool,
    qis: &'static [u8],
    coded: bool,
    mode: u8,
    place: u8,
    luma_dc: i16,
    first_count: u8,
}

/// The packet of a grey key frame; one whose first block has the difference 1; one with two quantiser indices, in which all
/// blocks move up; and an inter frame without a coded block, which ends with its flags.
const PACKETS: [Said; 4] = [
    Said {
        packet: &[0x1e, 0x00, 0x01, 0xc0, 0x00],
        intra: true,
        qis: &[30],
        coded: true,
        mode: 1,
        place: 0,
        luma_dc: 0,
        first_count: 0,
    },
    Said {
        packet: &[0x3f, 0x00, 0x04, 0x8d, 0x00, 0x00],
        intra: true,
        qis: &[63],
        coded: true,
        mode: 1,
        place: 0,
        luma_dc: 1,
        first_count: 1,
    },
    Said {
        packet: &[0x00, 0x82, 0x1e, 0x00, 0x07, 0x00, 0x00],
        intra: true,
        qis: &[0, 1],
        coded: true,
        mode: 1,
        place: 1,
        luma_dc: 0,
        first_count: 0,
    },
    Said {
        packet: &[0x40, 0x2a, 0x80],
        intra: false,
        qis: &[0],
        coded: false,
        mode: 0,
        place: 0,
        luma_dc: 0,
        first_count: 0,
    },
];

// A frame says what the row says.
fn assert_says(rt: &impl Abort, coded: &Coded, said: &Said) {
    assert_eq!(rt; coded.intra, said.intra);
    assert!(rt; coded.qis.as_slice() == said.qis);
    assert_eq!(rt; coded.flags.len(), 6);
    assert!(rt; coded.flags.iter().all(|flag| *flag == said.coded));
    assert!(rt; coded.modes.as_slice() == [said.mode].as_slice());
    assert_eq!(rt; coded.vectors.len(), 6);
    assert!(rt; coded.vectors.iter().all(|v| *v == Vector { x: 0, y: 0 }));
    assert_eq!(rt; coded.places.len(), 6);
    assert!(rt; coded.places.iter().all(|place| *place == said.place));
    assert_eq!(rt; coded.coeffs.values.len(), 6);
    for (b, values) in coded.coeffs.values.iter().enumerate() {
        let dc = if b < 4 { said.luma_dc } else { 0 };
        assert_eq!(rt; values[0], dc);
        assert!(rt; values[1..].iter().all(|value| *value == 0));
    }
    assert!(rt; coded.coeffs.counts.as_slice() == [said.first_count, 0, 0, 0, 0, 0].as_slice());
}

#[test]
fn a_packet_says_its_fields(rt: HostRuntime) -> Result<(), Fail> {
    let geom = one_macro_block(&rt, rt.alloc());
    let setup = setup_of(&rt, rt.alloc());
    for said in &PACKETS {
        let coded = parse_frame(rt.alloc(), &geom, &setup, said.packet)?;
        assert_says(&rt, &coded, said);
    }
    Ok(())
}

// Two packets parsed into the same lists.
fn parse_both(
    rt: &impl Abort,
    alloc: Global,
    geom: &Geom,
    setup: &Setup,
    first: &Said,
    second: &Said,
) -> Result<(), Fail> {
    let mut coded = Coded::new(alloc, geom)?;
    let mut work = Work::new(alloc, geom)?;
    parse_into(geom, setup, first.packet, &mut coded, &mut work)?;
    parse_into(geom, setup, second.packet, &mut coded, &mut work)?;
    assert_says(rt, &coded, second);
    Ok(())
}

#[test]
fn lists_that_are_used_again_say_the_next_packet_alone(rt: HostRuntime) -> Result<(), Fail> {
    let geom = one_macro_block(&rt, rt.alloc());
    let setup = setup_of(&rt, rt.alloc());
    for first in &PACKETS {
        for second in &PACKETS {
            parse_both(&rt, rt.alloc(), &geom, &setup, first, second)?;
        }
    }
    Ok(())
}

/// Packets with their first faults: a first bit of 1; no bytes; no bit behind the first quantiser index; no whole second one;
/// reserved bits; a run of 4 for three superblocks, and a longer one that is not whole; equal ranks, and ranks that are not
/// whole; and 64 zeros behind place 0, and a count of them that is not whole.
const FAULTS: [(&[u8], PacketFault); 11] = [
    (&[0x80], PacketFault::NotData),
    (&[], PacketFault::Ended),
    (&[0x00], PacketFault::Ended),
    (&[0x00, 0x82], PacketFault::Ended),
    (&[0x00, 0x10], PacketFault::Reserved),
    (&[0x40, 0x30], PacketFault::RunTooLong),
    (&[0x40, 0x3f], PacketFault::Ended),
    (
        &[0x40, 0x2e, 0x80, 0x00, 0x00, 0x00],
        PacketFault::BadAlphabet,
    ),
    (&[0x40, 0x2e, 0x80, 0x00, 0x00], PacketFault::Ended),
    (
        &[0x3f, 0x00, 0x04, 0x8d, 0x00, 0x47, 0xe0],
        PacketFault::TokenPastEnd,
    ),
    (&[0x3f, 0x00, 0x04, 0x8d, 0x00, 0x47], PacketFault::Ended),
];

#[test]
fn a_packet_has_its_first_fault_in_reading_order(rt: HostRuntime) -> Result<(), Fail> {
    let geom = one_macro_block(&rt, rt.alloc());
    let setup = setup_of(&rt, rt.alloc());
    for (packet, fault) in FAULTS {
        match parse_frame(rt.alloc(), &geom, &setup, packet) {
            Ok(_) => panic!(rt; "{packet:?} was parsed"),
            Err(refusal) => assert_eq!(rt; refusal, Refusal::Bad(fault), "{packet:?}"),
        }
    }
    Ok(())
}

/// Packets judged where frames were decoded before them or none was.
const JUDGED: [(&[u8], bool, Result<(), PacketFault>); 9] = [
    (&[], true, Ok(())),
    (&[], false, Err(PacketFault::FirstNotKey)),
    (&[0x40], false, Err(PacketFault::FirstNotKey)),
    (&[0x40], true, Err(PacketFault::Ended)),
    (&[0x80], false, Err(PacketFault::NotData)),
    (&[0xc0], false, Err(PacketFault::NotData)),
    (&[0x40, 0x2a, 0x80], true, Ok(())),
    (&[0x1e, 0x00, 0x01, 0xc0, 0x00], false, Ok(())),
    (&[0x1e, 0x00, 0x01, 0xc0, 0x00], true, Ok(())),
];

// The verdict on a packet, twice in the same lists.
fn judge(
    rt: &impl Abort,
    alloc: Global,
    geom: &Geom,
    packet: &[u8],
    started: bool,
) -> Result<[Result<(), PacketFault>; 2], Fail> {
    let setup = setup_of(rt, alloc);
    let mut coded = Coded::new(alloc, geom)?;
    let mut work = Work::new(alloc, geom)?;
    let first = check_frame(geom, &setup, packet, started, &mut coded, &mut work);
    let second = check_frame(geom, &setup, packet, started, &mut coded, &mut work);
    Ok([first, second])
}

#[test]
fn the_first_packet_is_that_of_a_key_frame(rt: HostRuntime) -> Result<(), Fail> {
    let geom = one_macro_block(&rt, rt.alloc());
    for (packet, started, verdict) in JUDGED {
        let got = judge(&rt, rt.alloc(), &geom, packet, started)?;
        assert!(rt; got == [verdict; 2], "{packet:?}");
    }
    Ok(())
}
