ghost use Rattle.std.specs.Prelude.{◌≡◌, ◌-◌, false};

use crate::Mux;
use ogg_page::read_page;
use std::alloc::Global;
use std::process::Abort;

/// A muxer with shift 6, of which frames and the frames since the last key frame are counted.
#[derive(Drop)]
struct Fed {
    mux: Mux,
    frames: u32,
    gap: u32,
    ghost open: { mux.finished ≡ false },
    ghost shift: { mux.shift ≡ 6 },
    ghost counted: { frames ≡ mux.frames },
    ghost behind: { gap ≡ mux.frames - mux.key },
}

impl Fed {
    /// Headers of these sizes, serial number 1 and base 1.
    fn new(rt: &impl Abort, alloc: Global, ident: &[u8], comment: &[u8], setup: &[u8]) -> Fed {
        match Mux::new(alloc, ident, comment, setup, 1, 6, 1) {
            Ok(mux) => Fed {
                mux,
                frames: 0,
                gap: 0,
            },
            Err(_) => panic!(rt; "memory is found"),
        }
    }

    /// One packet more.
    fn packet(&mut self, rt: &impl Abort, bytes: &[u8]) {
        let key = !bytes.is_empty() && bytes[0] < 64;
        assert!(rt; self.frames < 1 << 24);
        assert!(rt; key || (self.frames > 0 && self.gap < 64));
        match self.mux.packet(bytes, key) {
            Ok(()) => {
                self.frames += 1;
                self.gap = if key { 1 } else { self.gap + 1 };
            }
            Err(_) => assert!(rt; false, "memory is found"),
        }
    }

    /// The bytes that are ready.
    fn taken(&mut self) -> Vec<u8> {
        self.mux.take_bytes()
    }

    /// The bytes with the last page.
    fn finished(self, rt: &impl Abort) -> Vec<u8> {
        let mut mux = self.mux;
        assert!(rt; mux.finish().is_ok());
        mux.take_bytes()
    }
}

/// The pages of bytes, in order: size, flags, granule position.
fn check_pages(rt: &impl Abort, name: &str, bytes: &[u8], wanted: &[(usize, u8, u64)]) {
    let mut at = 0usize;
    let mut number = 0u32;
    for (size, flags, granule) in wanted {
        assert!(rt; at < bytes.len(), "{name}: page {number} is there");
        match read_page(bytes, at) {
            Ok(page) => {
                assert_eq!(rt;
                    (page.size(), page.flags, page.granule),
                    (*size, *flags, *granule),
                    "{name}: page {number}"
                );
                assert_eq!(rt; (page.serial, page.number), (1, number), "{name}");
                at += page.size();
            }
            Err(fault) => panic!(rt; "{name}: page {number} is read: {}", fault.name()),
        }
        number = number.wrapping_add(1);
    }
    assert_eq!(rt; at, bytes.len(), "{name}: no byte is over");
}

/// So many bytes of this value.
fn filled(rt: &impl Abort, alloc: Global, size: usize, byte: u8) -> Vec<u8> {
    let mut bytes = Vec::new(alloc);
    assert!(rt; bytes.resize(size, byte).is_ok());
    bytes
}

/// All bytes of a stream with headers of 42, 21 and 2,490 bytes and these packets: how many, of which size, key frames or not.
/// They are taken after each packet.
fn muxed(rt: &(impl Abort + AllocGlobal), packets: &[(usize, usize, bool)]) -> Vec<u8> {
    let ident = filled(rt, rt.alloc(), 42, 0x80);
    let comment = filled(rt, rt.alloc(), 21, 0x81);
    let setup = filled(rt, rt.alloc(), 2490, 0x82);
    let mut fed = Fed::new(rt, rt.alloc(), &ident, &comment, &setup);
    let mut bytes = fed.taken();
    for (count, size, key) in packets {
        let packet = filled(rt, rt.alloc(), *size, if *key { 0x1e } else { 0x5e });
        for _ in 0..*count {
            fed.packet(rt, &packet);
            assert!(rt; bytes.extend_from_slice(&fed.taken()).is_ok());
        }
    }
    assert!(rt; bytes.extend_from_slice(&fed.finished(rt)).is_ok());
    bytes
}

/// On a page with this granule position no packet ends.
const NO_GRANULE: u64 = u64::MAX;

#[test]
fn pages_close_where_a_frame_ends_with_4096_bytes_or_at_255_lacing_values(rt: HostRuntime) {
    const ROWS: [(&str, &[(usize, usize, bool)], &[(usize, u8, u64)]); 15] = [
        ("a key frame of 5 bytes", &[(1, 5, true)], &[(33, 4, 64)]),
        (
            "an empty packet behind it",
            &[(1, 5, true), (1, 0, false)],
            &[(34, 4, 65)],
        ),
        ("three key frames", &[(3, 5, true)], &[(45, 4, 192)]),
        ("254 bytes", &[(1, 254, true)], &[(282, 4, 64)]),
        ("255 bytes", &[(1, 255, true)], &[(284, 4, 64)]),
        ("256 bytes", &[(1, 256, true)], &[(285, 4, 64)]),
        ("4,095 bytes", &[(1, 4095, true)], &[(4139, 4, 64)]),
        (
            "4,095 bytes do not close a page",
            &[(1, 4095, true), (1, 5, true)],
            &[(4145, 4, 128)],
        ),
        ("4,096 bytes", &[(1, 4096, true)], &[(4140, 4, 64)]),
        (
            "4,096 bytes close a page",
            &[(1, 4096, true), (1, 5, false)],
            &[(4140, 0, 64), (33, 4, 65)],
        ),
        (
            "a packet that goes on closes none",
            &[(1, 4000, true), (1, 10_000, false)],
            &[(14_083, 4, 65)],
        ),
        (
            "255 lacing values close a page, and it is the last",
            &[
                (1, 1, true),
                (60, 1, false),
                (1, 1, true),
                (60, 1, false),
                (1, 1, true),
                (60, 1, false),
                (1, 1, true),
                (60, 1, false),
                (1, 1, true),
                (10, 1, false),
            ],
            &[(537, 4, 15_690)],
        ),
        (
            "no packet goes on behind them",
            &[
                (1, 1, true),
                (60, 1, false),
                (1, 1, true),
                (60, 1, false),
                (1, 1, true),
                (60, 1, false),
                (1, 1, true),
                (60, 1, false),
                (1, 1, true),
                (11, 1, false),
            ],
            &[(537, 0, 15_690), (29, 4, 15_691)],
        ),
        (
            "65,025 bytes",
            &[(1, 65_025, true)],
            &[(65_307, 0, NO_GRANULE), (28, 5, 64)],
        ),
        (
            "200,000 bytes",
            &[(1, 200_000, true)],
            &[
                (65_307, 0, NO_GRANULE),
                (65_307, 1, NO_GRANULE),
                (65_307, 1, NO_GRANULE),
                (4972, 5, 64),
            ],
        ),
    ];
    for (name, packets, wanted) in ROWS {
        let bytes = muxed(&rt, packets);
        let mut pages = Vec::new(rt.alloc());
        assert!(&rt; pages.extend_from_slice(&[(70, 2, 0), (2549, 0, 0)]).is_ok());
        assert!(&rt; pages.extend_from_slice(wanted).is_ok());
        check_pages(&rt, name, &bytes, &pages);
    }
}

#[test]
fn headers_alone_have_no_last_flag(rt: HostRuntime) {
    // Sizes of the three headers, and their pages.
    const ROWS: [(&str, [usize; 3], &[(usize, u8, u64)]); 5] = [
        (
            "one page for two",
            [42, 21, 2490],
            &[(70, 2, 0), (2549, 0, 0)],
        ),
        (
            "an identification header of 300 bytes",
            [300, 0, 0],
            &[(329, 2, 0), (29, 0, 0)],
        ),
        (
            "the comment header fills its page",
            [42, 64_770, 300],
            &[(70, 2, 0), (65_052, 0, 0), (329, 0, 0)],
        ),
        (
            "the setup header goes on",
            [42, 64_500, 600],
            &[(70, 2, 0), (65_292, 0, 0), (118, 1, 0)],
        ),
        (
            "no header ends on a page",
            [42, 70_000, 2490],
            &[(70, 2, 0), (65_307, 0, NO_GRANULE), (7522, 1, 0)],
        ),
    ];
    for (name, sizes, wanted) in ROWS {
        let ident = filled(&rt, rt.alloc(), sizes[0], 0x80);
        let comment = filled(&rt, rt.alloc(), sizes[1], 0x81);
        let setup = filled(&rt, rt.alloc(), sizes[2], 0x82);
        let mut fed = Fed::new(&rt, rt.alloc(), &ident, &comment, &setup);
        check_pages(&rt, name, &fed.taken(), wanted);
        assert!(&rt; fed.taken().is_empty());
        assert!(&rt; fed.finished(&rt).is_empty());
    }
}

#[test]
fn a_page_has_the_bytes_of_its_packets(rt: HostRuntime) {
    const KEY: [u8; 5] = [0x1e, 0, 1, 0xc0, 0];
    let mut fed = Fed::new(&rt, rt.alloc(), b"\x80theora", b"\x81theora", b"\x82theora");
    fed.packet(&rt, &KEY);
    fed.packet(&rt, &[]);
    assert!(&rt; fed.taken().len() == 35 + 43);
    let bytes = fed.finished(&rt);
    assert!(&rt; !bytes.is_empty());
    match read_page(&bytes, 0) {
        Ok(page) => {
            assert!(&rt; page.lacing == [5, 0].as_slice() && page.body == KEY.as_slice());
            assert_eq!(&rt; (page.size(), page.granule), (34, 65));
        }
        Err(_) => assert!(&rt; false),
    }
}
