ghost use Rattle.std.specs.Prelude.{◌<◌, ◌≤◌};

use crate::*;

#[test]
fn takes_numbers_across_bytes(rt: HostRuntime) {
    let mut r = BitReader::new(&[0xa5, 0x0f]);
    assert_eq!(rt; (r.place(), r.left()), (0, 16));
    assert_eq!(rt; r.take(3), Ok(5));
    assert_eq!(rt; r.peek(8), Some(0x28));
    assert_eq!(rt; r.take(8), Ok(0x28));
    assert_eq!(rt; r.take(6), Err(Ended));
    assert_eq!(rt; (r.place(), r.left()), (11, 5));
    assert_eq!(rt; r.bit(), Ok(false));
    assert_eq!(rt; r.take(4), Ok(15));
    assert_eq!(rt; r.bit(), Err(Ended));
    assert_eq!(rt; (r.place(), r.left()), (16, 0));
}

/// A packet's bits as one number.
const PACKET: u128 = 0x0123_4567_89ab_cdef_8f1e_2d3c_4b5a_6978;

// The n bits of the packet behind the first few, by shifts of the whole.
fn bits_behind(few: u32, n: u32) -> u32
    requires few { few < 128 }
    requires n { n ≤ 32 }
{
    (((PACKET << few) >> 1 >> (127 - n)) % (1 << 32)) as u32
}

#[test]
fn takes_every_width_behind_every_bit_up_to_the_packets_end(rt: HostRuntime) {
    let bytes = PACKET.to_be_bytes();
    for len in 1..13usize {
        let bits = 8 * len as u32;
        for shift in 0..8u32 {
            for n in 0..33u32 {
                let mut r = BitReader::new(&bytes[..len]);
                assert_eq!(rt; r.take(shift), Ok(bits_behind(0, shift)));
                let there = shift + n <= bits;
                let want = if there {
                    Ok(bits_behind(shift, n))
                } else {
                    Err(Ended)
                };
                assert_eq!(rt; r.take(n), want, "{n} bits behind {shift} of {len} bytes");
                let taken = if there { shift + n } else { shift };
                let want = if taken + 17 <= bits {
                    Ok(bits_behind(taken, 17))
                } else {
                    Err(Ended)
                };
                assert_eq!(rt; r.take(17), want, "17 bits behind {taken} of {len} bytes");
            }
        }
    }
}

#[test]
fn puts_every_width_behind_every_bit(rt: HostRuntime) {
    for shift in 0..8u32 {
        for n in 0..33u32 {
            let value = bits_behind(40, n);
            assert!(rt; n == 32 || value < 1u32 << n);
            let mut w = BitWriter::new(rt.alloc());
            assert_eq!(rt;
                (w.put(0, shift), w.put(value, n), w.put(1, 1)),
                (Ok(()), Ok(()), Ok(()))
            );
            let all = ((u64::from(value) << 1) + 1) << (63 - shift - n);
            let want = &all.to_be_bytes()[..((shift + n) / 8 + 1) as usize];
            assert!(rt; w.finish().as_slice() == want, "{n} bits behind {shift}");
        }
    }
}

#[test]
fn puts_numbers_and_fills_the_last_byte(rt: HostRuntime) {
    let mut w = BitWriter::new(rt.alloc());
    let fields = [(5, 3), (0x28, 8), (0, 0), (0xdead_beef, 32), (1, 1)];
    for (value, n) in fields {
        assert!(rt; n <= 32 && (n == 32 || value < 1u32 << n));
        assert_eq!(rt; w.put(value, n), Ok(()));
    }
    let bytes = w.finish();
    let want = [0xa5, 0x1b, 0xd5, 0xb7, 0xdd, 0xf0];
    assert!(rt; bytes.as_slice() == want.as_slice());
}

#[test]
fn the_arithmetic_of_the_specification_at_its_edges(rt: HostRuntime) {
    assert_eq!(rt; [ilog(0), ilog(1), ilog(4), ilog(u32::MAX)], [0, 1, 3, 32]);
    assert_eq!(rt; [div_zero(-7, 2), div_zero(7, 2)], [-3, 3]);
    assert_eq!(rt;
        [trunc16(32_768), trunc16(-32_769), trunc16(37_120)],
        [-32_768, 32_767, -28_416]
    );
    let means = [
        round_half_out(2, 4),
        round_half_out(-2, 4),
        round_half_out(1, 4),
        round_half_out(-3, 2),
    ];
    assert_eq!(rt; means, [1, -1, 0, -2]);
}

// The bits that the specification codes and decodes as its example (Theora I, 5.2.2 and 5.2.3).
#[test]
fn the_example_of_the_specification_is_coded_and_decoded(rt: HostRuntime) {
    let mut w = BitWriter::new(rt.alloc());
    for (value, n) in [(12, 4), (7, 3), (17, 7), (6_969, 13)] {
        assert!(rt; n < 32 && value < 1u32 << n);
        assert_eq!(rt; w.put(value, n), Ok(()));
    }
    assert!(rt; w.finish().as_slice() == [0xce, 0x47, 0x67, 0x20].as_slice());
    let mut r = BitReader::new(&[0xce, 0x47, 0x67, 0x20]);
    assert_eq!(rt; (r.take(2), r.take(2)), (Ok(3), Ok(0)));
}
