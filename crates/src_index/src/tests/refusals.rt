// Each fault of judging has a smallest file.
ghost use Rattle.vid_desk.specs.Counts.{untold};

use super::{
    COMMENT, Frame, IDENT, INTER, KEY, file_of, holds, is_refused, setup_packet, source_of,
};
use crate::{Source, SourceFault};
use ogg_link::LinkFault;
use ogg_page::PageFault;
use std::alloc::Global;
use std::process::Abort;
use vid_base::PacketFault;
use vid_desk::{Desk, DeskFault, Failed};

// The identification header of the other tests, but with shift 0.
const NO_SHIFT: [u8; 42] = [
    0x80, 0x74, 0x68, 0x65, 0x6f, 0x72, 0x61, 0x03, 0x02, 0x01, 0x00, 0x01, 0x00, 0x01, 0x00, 0x00,
    0x10, 0x00, 0x00, 0x10, 0x00, 0x00, 0x00, 0x00, 0x00, 0x19, 0x00, 0x00, 0x00, 0x01, 0x00, 0x00,
    0x01, 0x00, 0x00, 0x01, 0x00, 0x00, 0x00, 0x00, 0x78, 0x00,
];

// Whether a file with these headers and frames is refused for this.
fn file_is_refused(
    rt: &impl Abort,
    alloc: Global,
    ident: &[u8],
    comment: &[u8],
    setup: &[u8],
    frames: &[Frame],
    fault: SourceFault,
) -> bool {
    let bytes = file_of(rt, alloc, ident, comment, setup, frames);
    is_refused(rt, alloc, &bytes, None, fault)
}

#[test]
fn the_first_fault_of_the_frames_is_answered(rt: HostRuntime) {
    let setup = setup_packet(&rt, rt.alloc());
    const fn bad(packet: u32, fault: PacketFault) -> SourceFault {
        SourceFault::Bad {
            link: 1,
            packet,
            fault,
        }
    }
    let granule = SourceFault::Link {
        at: 2619,
        fault: LinkFault::BadGranule,
    };
    let rows: [(&str, &[u8; 42], &[Frame], SourceFault); 17] = [
        (
            "an inter frame first",
            &IDENT,
            &[(64, &[0x5e, 0])],
            bad(3, PacketFault::FirstNotKey),
        ),
        (
            "an empty frame first",
            &IDENT,
            &[(64, &[])],
            bad(3, PacketFault::FirstNotKey),
        ),
        (
            "no data packet",
            &IDENT,
            &[(64, &[0x9e, 0])],
            bad(3, PacketFault::NotData),
        ),
        (
            "no data packet, of no frame kind",
            &IDENT,
            &[(64, &[0xff])],
            bad(3, PacketFault::NotData),
        ),
        (
            "no data packet behind a key frame",
            &IDENT,
            &[(64, KEY), (65, &[0x80])],
            bad(4, PacketFault::NotData),
        ),
        (
            "too far from its key frame",
            &NO_SHIFT,
            &[(1, KEY), (2, INTER)],
            bad(4, PacketFault::KeyTooFar),
        ),
        (
            "cut and too far",
            &NO_SHIFT,
            &[(1, KEY), (2, &[0x40])],
            bad(4, PacketFault::Ended),
        ),
        (
            "cut to four bytes",
            &IDENT,
            &[(64, &[0x1e, 0x00, 0x01, 0xc0])],
            bad(3, PacketFault::Ended),
        ),
        (
            "reserved bits",
            &IDENT,
            &[(64, &[0x00, 0x10])],
            bad(3, PacketFault::Reserved),
        ),
        (
            "a run for more superblocks than there are",
            &IDENT,
            &[(64, KEY), (65, &[0x40, 0x30])],
            bad(4, PacketFault::RunTooLong),
        ),
        (
            "modes with equal ranks",
            &IDENT,
            &[(64, KEY), (65, &[0x40, 0x2e, 0x80, 0, 0, 0])],
            bad(4, PacketFault::BadAlphabet),
        ),
        (
            "a token past the last place",
            &IDENT,
            &[(64, &[0x3f, 0x00, 0x04, 0x8d, 0x00, 0x47, 0xe0])],
            bad(3, PacketFault::TokenPastEnd),
        ),
        (
            "empty and too far",
            &NO_SHIFT,
            &[(1, KEY), (2, KEY), (3, &[])],
            bad(5, PacketFault::KeyTooFar),
        ),
        ("another position", &IDENT, &[(65, KEY)], granule),
        (
            "another position behind no data packet",
            &IDENT,
            &[(65, &[0x80])],
            bad(3, PacketFault::NotData),
        ),
        (
            "the shift is the header's",
            &NO_SHIFT,
            &[(1, KEY), (3, KEY)],
            SourceFault::Link {
                at: 2652,
                fault: LinkFault::BadGranule,
            },
        ),
        ("a position of another shift", &IDENT, &[(1, KEY)], granule),
    ];
    for &(name, ident, frames, want) in &rows {
        let so = file_is_refused(&rt, rt.alloc(), ident, COMMENT, &setup, frames, want);
        holds(&rt, so, &name);
    }
}

#[test]
fn the_first_fault_of_the_headers_is_answered(rt: HostRuntime) {
    let alloc = rt.alloc();
    let setup = setup_packet(&rt, alloc);
    let (cut, _) = setup.split_at(2489);
    let mut other = IDENT;
    other[8] = 1;
    let rows: [(&[u8; 42], &[u8], &[u8], u32, PacketFault); 3] = [
        (&other, COMMENT, &setup, 0, PacketFault::Version),
        (&IDENT, b"\x81theora", &setup, 1, PacketFault::CommentLength),
        (&IDENT, COMMENT, cut, 2, PacketFault::Ended),
    ];
    for &(ident, comment, setup, packet, fault) in &rows {
        let want = SourceFault::Bad {
            link: 1,
            packet,
            fault,
        };
        let frames: [Frame; 1] = [(64, KEY)];
        let so = file_is_refused(&rt, alloc, ident, comment, setup, &frames, want);
        holds(&rt, so, &packet);
    }
    let bytes = file_of(&rt, alloc, &IDENT, COMMENT, &setup, &[]);
    assert!(rt; source_of(&rt, alloc, &bytes).frames() == 0);
}

#[test]
fn a_file_that_is_cut_or_changed_is_refused_at_its_page(rt: HostRuntime) {
    let alloc = rt.alloc();
    let setup = setup_packet(&rt, alloc);
    let mut bytes = file_of(&rt, alloc, &IDENT, COMMENT, &setup, &[(64, KEY)]);
    assert!(rt; bytes.push(0).is_ok());
    let rows = [
        (
            0,
            SourceFault::Link {
                at: 0,
                fault: LinkFault::NoTrack,
            },
        ),
        (
            69,
            SourceFault::Page {
                at: 0,
                fault: PageFault::Truncated,
            },
        ),
        (
            70,
            SourceFault::Link {
                at: 70,
                fault: LinkFault::UnfinishedPacket,
            },
        ),
        (
            2651,
            SourceFault::Page {
                at: 2619,
                fault: PageFault::Truncated,
            },
        ),
        (
            2653,
            SourceFault::Page {
                at: 2652,
                fault: PageFault::NotAPage,
            },
        ),
    ];
    for &(size, want) in &rows {
        assert!(rt; size <= bytes.len());
        let so = is_refused(&rt, alloc, &bytes[..size], None, want);
        holds(&rt, so, &size);
    }
    assert!(rt; bytes.len() == 2653);
    bytes[2600] ^= 1;
    let want = SourceFault::Page {
        at: 70,
        fault: PageFault::Checksum,
    };
    assert!(rt; is_refused(&rt, alloc, &bytes, None, want));
}

// A desk with one input and one output, of which nothing is told but the length of the input. No call gives bytes.
#[derive(Drop)]
struct LongInput {
    size: u64,
    read_faults: u64,
    write_faults: u64,
    asked: u64,
}

impl Desk for LongInput {
    ghost sees = { λ desk. untold (record {
      read_faults = desk.read_faults;
      write_faults = desk.write_faults;
      asked = desk.asked;
      found = 1;
      made = 1;
    }) };

    ghost use Rattle.std.proofs.Common.{rules};

    ghost found_in = { λ desk files told. Prim.search rules };

    ghost made_in = { λ desk files told. Prim.search rules };

    fn find(&mut self, _name: &str) -> Result<Option<u32>, DeskFault> {
        Ok(Some(0))
    }

    fn size(&mut self, _id: u32) -> Result<u64, Failed> {
        Ok(self.size)
    }

    fn read_at(&mut self, _id: u32, _pos: u64, buf: &mut [u8]) -> Result<(), Failed> {
        self.asked = self.asked.saturating_add(buf.len() as u64);
        self.read_faults = self.read_faults.saturating_add(1);
        Err(Failed)
    }

    fn create(&mut self, _name: &str) -> Result<u32, DeskFault> {
        self.write_faults = self.write_faults.saturating_add(1);
        Err(DeskFault::Failed)
    }

    fn append(&mut self, _id: u32, _piece: &[u8]) -> Result<(), DeskFault> {
        Err(DeskFault::NoMem)
    }

    fn say(&mut self, _piece: &[u8]) -> Result<(), DeskFault> {
        Err(DeskFault::NoMem)
    }
}

// Whether loading an input of this length is refused for this, and asks for so many bytes.
fn is_refused_unread(alloc: Global, size: u64, fault: SourceFault, asked: u64) -> bool {
    let mut desk = LongInput {
        size,
        read_faults: 0,
        write_faults: 0,
        asked: 0,
    };
    Source::load(alloc, &mut desk, 0).err() == Some(fault) && desk.asked == asked
}

#[test]
fn a_file_that_is_too_long_is_refused_unread(rt: HostRuntime) {
    const LONGEST: u64 = 1 << 40;
    for (size, fault, asked) in [
        (LONGEST + 1, SourceFault::TooLong { bytes: LONGEST + 1 }, 0),
        (LONGEST, SourceFault::ReadFault, 65_307),
    ] {
        holds(
            &rt,
            is_refused_unread(rt.alloc(), size, fault, asked),
            &size,
        );
    }
}
