ghost use Rattle.std.specs.Prelude.{◌≤◌, length};

use crate::*;
use std::alloc::{AllocError, Global};
use std::test::Fail;
use vid_base::{BitReader, BitWriter, PacketFault, Refusal};

/// The values of a string: the first, and the lengths of its runs. A run of 0 stands where the next has the same value.
type Runs = (bool, &'static [usize]);

/// Long strings: bytes, how many values are wanted, and the runs with the bits left.
const LONG: [(&[u8], u32, Runs, usize); 5] = [
    (
        &[0xff, 0xff, 0xff, 0xff, 0xff, 0xff, 0xff, 0x80],
        12_387,
        (true, &[12_387]),
        7,
    ),
    (&[0xff, 0xff, 0xf0], 4_130, (true, &[4_130]), 3),
    (&[0xff, 0xff, 0xf0], 4_129, (true, &[4_129]), 5),
    (&[0xd8], 5, (true, &[3, 2]), 1),
    (&[0xff], 0, (true, &[]), 8),
];

/// Long strings that are refused.
const BAD_LONG: [(&[u8], u32, PacketFault); 7] = [
    (&[0xff, 0xff, 0xf0], 4_128, PacketFault::RunTooLong),
    (&[0xff, 0xff], 4_130, PacketFault::Ended),
    (&[0xff, 0xff], 1, PacketFault::Ended),
    (&[0xff, 0xff, 0xe0], 4_134, PacketFault::Ended),
    (&[0xd8], 4, PacketFault::RunTooLong),
    (&[0xd8], 7, PacketFault::Ended),
    (&[], 1, PacketFault::Ended),
];

/// Short strings, as the long ones.
const SHORT: [(&[u8], u32, Runs, usize); 3] = [
    (&[0xff, 0xfe, 0x00], 45, (true, &[30, 15]), 5),
    (&[0x40], 3, (false, &[3]), 4),
    (&[0xff], 0, (true, &[]), 8),
];

const BAD_SHORT: [(&[u8], u32, PacketFault); 3] = [
    (&[0xff, 0xfe, 0x00], 29, PacketFault::RunTooLong),
    (&[0xff], 1, PacketFault::Ended),
    (&[0xff, 0xfe], 45, PacketFault::Ended),
];

// How many bits are left, of at most 64.
fn left(r: &mut BitReader) -> usize {
    let mut count = 0usize;
    for _ in 0..64 {
        if r.bit().is_ok() {
            count = count.saturating_add(1);
        }
    }
    count
}

// Whether the values stand in these runs.
fn stand_in(values: &[bool], runs: Runs) -> bool {
    let (mut value, lengths) = runs;
    let mut at = 0usize;
    for length in lengths {
        for _ in 0..*length {
            if values.get(at) != Some(&value) {
                return false;
            }
            at = at.saturating_add(1);
        }
        value = !value;
    }
    at == values.len()
}

// Whether a list has the runs, and the reader so many bits behind it.
fn has_read(r: &mut BitReader, values: &[bool], runs: Runs, rest: usize) -> bool {
    stand_in(values, runs) && left(r) == rest
}

// Whether both calls read these runs of a long string.
fn reads_long(
    alloc: Global,
    bytes: &[u8],
    n: u32,
    runs: Runs,
    rest: usize,
) -> Result<bool, Refusal> {
    let mut values = Vec::new(alloc);
    let mut r = BitReader::new(bytes);
    read_long(&mut r, n, &mut values)?;
    let mut again = vec![in alloc; false; n as usize]?;
    let mut s = BitReader::new(bytes);
    read_long_in(&mut s, &mut again)?;
    Ok(has_read(&mut r, &values, runs, rest) && has_read(&mut s, &again, runs, rest))
}

// The same of a short string.
fn reads_short(
    alloc: Global,
    bytes: &[u8],
    n: u32,
    runs: Runs,
    rest: usize,
) -> Result<bool, Refusal> {
    let mut values = Vec::new(alloc);
    let mut r = BitReader::new(bytes);
    read_short(&mut r, n, &mut values)?;
    let mut again = vec![in alloc; false; n as usize]?;
    let mut s = BitReader::new(bytes);
    read_short_in(&mut s, &mut again)?;
    Ok(has_read(&mut r, &values, runs, rest) && has_read(&mut s, &again, runs, rest))
}

// Whether the values of a long string are read back from what is written of them.
fn comes_back(alloc: Global, bytes: &[u8], n: u32) -> Result<bool, Refusal> {
    let mut values = Vec::new(alloc);
    read_long(&mut BitReader::new(bytes), n, &mut values)?;
    let mut w = BitWriter::new(alloc);
    write_long(&mut w, &values)?;
    let written = w.finish();
    let mut back = Vec::new(alloc);
    read_long(&mut BitReader::new(&written), n, &mut back)?;
    Ok(back.as_slice() == values.as_slice())
}

#[test]
fn a_string_stands_in_its_runs_and_a_long_one_comes_back(rt: HostRuntime) {
    for (bytes, n, runs, rest) in LONG {
        assert!(rt;
            reads_long(rt.alloc(), bytes, n, runs, rest) == Ok(true),
            "{n}"
        );
        assert!(rt; comes_back(rt.alloc(), bytes, n) == Ok(true), "{n}");
    }
    for (bytes, n, runs, rest) in SHORT {
        assert!(rt;
            reads_short(rt.alloc(), bytes, n, runs, rest) == Ok(true),
            "{n}"
        );
    }
}

// What the two readers of long strings answer.
fn long_answers(
    alloc: Global,
    bytes: &[u8],
    n: u32,
) -> Result<(Result<(), Refusal>, Result<(), PacketFault>), AllocError> {
    let mut values = Vec::new(alloc);
    let answer = read_long(&mut BitReader::new(bytes), n, &mut values);
    let mut again = vec![in alloc; false; n as usize]?;
    Ok((answer, read_long_in(&mut BitReader::new(bytes), &mut again)))
}

// And those of short ones.
fn short_answers(
    alloc: Global,
    bytes: &[u8],
    n: u32,
) -> Result<(Result<(), Refusal>, Result<(), PacketFault>), AllocError> {
    let mut values = Vec::new(alloc);
    let answer = read_short(&mut BitReader::new(bytes), n, &mut values);
    let mut again = vec![in alloc; false; n as usize]?;
    Ok((
        answer,
        read_short_in(&mut BitReader::new(bytes), &mut again),
    ))
}

#[test]
fn the_bits_of_a_run_end_before_it_is_too_long(rt: HostRuntime) -> Result<(), Fail> {
    for (bytes, n, fault) in BAD_LONG {
        let answers = long_answers(rt.alloc(), bytes, n)?;
        assert!(rt; answers == (Err(Refusal::Bad(fault)), Err(fault)), "{n}");
    }
    for (bytes, n, fault) in BAD_SHORT {
        let answers = short_answers(rt.alloc(), bytes, n)?;
        assert!(rt; answers == (Err(Refusal::Bad(fault)), Err(fault)), "{n}");
    }
    Ok(())
}

/// Values of short strings, and their bytes.
const WRITTEN_SHORT: [(&[bool], &[u8]); 4] = [
    (&[false, false, false], &[0x40]),
    (&[true, true, false], &[0xa0]),
    (&[true; 30], &[0xff, 0xc0]),
    (&[], &[]),
];

// So few values have no run that is too long.
fn written_few(alloc: Global, values: &[bool]) -> Result<Vec<u8>, Refusal>
    requires { length values.now ≤ 30 }
{
    let mut w = BitWriter::new(alloc);
    write_short(&mut w, values)?;
    Ok(w.finish())
}

#[test]
fn a_short_string_is_written_with_the_bits_of_its_runs(rt: HostRuntime) {
    for (values, bytes) in WRITTEN_SHORT {
        if values.len() <= 30 {
            let written = written_few(rt.alloc(), values).expect(&rt, "no memory");
            assert!(rt; written.as_slice() == bytes);
        }
    }
}
