ghost use Rattle.std.specs.Prelude.{◌<◌};

use crate::*;
use std::alloc::Global;
use std::process::Abort;
use vid_base::{BitReader, BitWriter, PacketFault, Refusal, Shape};
use vid_geom::Geom;

// A frame of one macro block in 4:2:0, which has six blocks.
fn one_macro_block(rt: &impl Abort, alloc: Global) -> Geom {
    let shape = Shape::new(1, 1, 0).expect(rt, "no shape");
    Geom::new(alloc, shape).expect(rt, "no memory")
}

/// Bits, whether the blocks are coded, and the mode of the macro block or the fault.
const READ: [(&[u8], bool, Result<u8, PacketFault>); 14] = [
    (&[0xe8], true, Ok(2)),
    (&[0xe0], true, Ok(0)),
    (&[0xff], true, Ok(7)),
    (&[0xe8], false, Ok(0)),
    (&[0x20], true, Ok(3)),
    (&[0x3f, 0xc0], true, Ok(7)),
    (&[0x3f, 0x80], true, Ok(6)),
    (&[0xd0], true, Ok(5)),
    (&[0x1f, 0x58, 0xd1, 0x00], true, Ok(7)),
    (&[], true, Err(PacketFault::Ended)),
    (&[0x3f], true, Err(PacketFault::Ended)),
    (&[0x00, 0x00, 0x00], true, Err(PacketFault::Ended)),
    (
        &[0x00, 0x00, 0x00, 0x00],
        true,
        Err(PacketFault::BadAlphabet),
    ),
    (
        &[0x1f, 0x58, 0xd1, 0x20],
        true,
        Err(PacketFault::BadAlphabet),
    ),
];

// The first mode or the fault, which both calls have to answer alike.
fn read(
    rt: &impl Abort,
    alloc: Global,
    geom: &Geom,
    bytes: &[u8],
    coded: bool,
) -> Result<u8, PacketFault> {
    let flags = vec![in alloc; coded; geom.blocks() as usize].expect(rt, "no memory");
    let mut modes = Vec::new(alloc);
    let answer = read_modes(&mut BitReader::new(bytes), geom, &flags, &mut modes);
    let again = vec![in alloc; 9u8; geom.macro_blocks() as usize];
    let mut again = again.expect(rt, "no memory");
    let second = read_modes_in(&mut BitReader::new(bytes), geom, &flags, &mut again);
    alike(rt, answer, &modes, second, &again)
}

// What both calls have answered: the first mode, or the fault and no modes.
fn alike(
    rt: &impl Abort,
    answer: Result<(), Refusal>,
    modes: &[u8],
    second: Result<(), PacketFault>,
    again: &[u8],
) -> Result<u8, PacketFault> {
    match second {
        Ok(()) => {
            assert_eq!(rt; answer, Ok(()));
            assert!(rt; again == modes);
            Ok(modes.first().copied().unwrap_or(9))
        }
        Err(fault) => {
            assert_eq!(rt; answer, Err(Refusal::Bad(fault)));
            assert!(rt; modes.is_empty());
            Err(fault)
        }
    }
}

#[test]
fn modes_by_rank_by_a_list_of_the_packet_or_as_three_bits(rt: HostRuntime) {
    let geom = one_macro_block(&rt, rt.alloc());
    for &(bytes, coded, mode) in &READ {
        let got = read(&rt, rt.alloc(), &geom, bytes, coded);
        is_read(&rt, bytes, got, mode);
    }
}

fn is_read(
    rt: &impl Abort,
    bytes: &[u8],
    got: Result<u8, PacketFault>,
    mode: Result<u8, PacketFault>,
) {
    assert!(rt; got == mode, "{bytes:?}");
}

// The bytes that are written of one mode.
fn written(rt: &impl Abort, alloc: Global, geom: &Geom, mode: u8) -> Vec<u8>
    requires { mode < 8 }
{
    let flags = vec![in alloc; true; geom.blocks() as usize].expect(rt, "no memory");
    assert!(rt; geom.macro_blocks() == 1);
    let mut w = BitWriter::new(alloc);
    assert_eq!(rt; write_modes(&mut w, geom, &flags, &[mode]), Ok(()));
    w.finish()
}

#[test]
fn a_mode_is_written_as_three_bits_behind_scheme_seven(rt: HostRuntime) {
    let geom = one_macro_block(&rt, rt.alloc());
    for mode in 0..8u8 {
        let bytes = written(&rt, rt.alloc(), &geom, mode);
        is_mode(&rt, &bytes, mode);
    }
}

fn is_mode(rt: &impl Abort, bytes: &[u8], mode: u8)
    requires { mode < 8 }
{
    assert!(rt; bytes == [0xe0 + 4 * mode].as_slice(), "mode {mode}");
}
