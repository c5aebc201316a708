// Packets that are read again, and what an index tells of frames.
ghost use Rattle.std.specs.Prelude.{◌≡◌, ◌<◌};
ghost use Rattle.vid_desk.specs.Counts.{untold};

use super::{
    COMMENT, Frame, IDENT, KEY, add_page, add_pages, file_of, holds, key_frame, setup_packet,
    source_of,
};
use crate::{Source, SourceFault, same_page};
use ogg_page::PageHead;
use std::alloc::Global;
use std::process::Abort;
use vid_desk::{Desk, DeskFault, Failed, MemDesk};

// The packet of a frame, of a source that is loaded from an input.
fn gathered<D: Desk>(
    rt: &impl Abort,
    alloc: Global,
    desk: &mut D,
    id: u32,
    n: u32,
) -> Result<Vec<u8>, SourceFault>
    requires { id < (D.sees desk.old).found }
{
    let source = match Source::load(alloc, desk, id) {
        Ok(source) => source,
        Err(fault) => return Err(fault),
    };
    assert!(rt; n < source.frames());
    let mut into = Vec::new(alloc);
    match source.packet(desk, n, &mut into) {
        Ok(()) => Ok(into),
        Err(fault) => Err(fault),
    }
}

// The same of a file in memory.
pub(super) fn packet_of(
    rt: &impl Abort,
    alloc: Global,
    bytes: &[u8],
    n: u32,
) -> Result<Vec<u8>, SourceFault> {
    let mut desk = MemDesk::new(alloc);
    assert!(rt; desk.add_input("S", bytes).is_ok());
    let Ok(Some(id)) = desk.find("S") else {
        panic!(rt; "there is no input")
    };
    gathered(rt, alloc, &mut desk, id, n)
}

// A file with a key frame, a packet of three pages, between which a page of another stream stands, and two empty ones
// behind it.
fn file_of_pages(rt: &impl Abort, alloc: Global, frame: &[u8]) -> Vec<u8> {
    assert!(rt; frame.len() == 600);
    let setup = setup_packet(rt, alloc);
    let mut bytes = file_of(rt, alloc, &IDENT, COMMENT, &setup, &[(64, KEY)]);
    let (first, rest) = frame.split_at(255);
    let (middle, last) = rest.split_at(255);
    add_pages(
        rt,
        &mut bytes,
        &[
            (0, u64::MAX, 1, 3, &[255], first),
            (0, 0, 2, 0, &[5], b"other"),
            (1, u64::MAX, 1, 4, &[255], middle),
            (5, 130, 1, 5, &[90, 0, 0], last),
        ],
    );
    bytes
}

// Whether the packet of a frame is this.
pub(super) fn packet_is(rt: &impl Abort, alloc: Global, bytes: &[u8], n: u32, want: &[u8]) -> bool {
    let packet = packet_of(rt, alloc, bytes, n).expect(rt, "there is no packet");
    packet.as_slice() == want
}

#[test]
fn packets_are_gathered_from_their_pages(rt: HostRuntime) {
    let alloc = rt.alloc();
    let frame = key_frame(&rt, alloc, 600);
    let bytes = file_of_pages(&rt, alloc, &frame);
    let rows: [(u32, &[u8]); 4] = [(0, KEY), (1, &frame), (2, &[]), (3, &[])];
    for &(n, want) in &rows {
        holds(&rt, packet_is(&rt, alloc, &bytes, n, want), &n);
    }
}

fn quantiser(rt: &impl Abort, source: &Source, n: u32) -> u8 {
    assert!(rt; n < source.frames());
    source.quantiser(n)
}

#[test]
fn quantisers_are_those_of_the_latest_packets_with_bytes(rt: HostRuntime) {
    let alloc = rt.alloc();
    let setup = setup_packet(&rt, alloc);
    let frames: [Frame; 4] = [(64, KEY), (65, &[]), (66, &[0x7f, 0x2a, 0x80]), (67, &[])];
    let bytes = file_of(&rt, alloc, &IDENT, COMMENT, &setup, &frames);
    let source = source_of(&rt, alloc, &bytes);
    assert!(rt; source.seekable());
    for (n, want) in [(0, 30), (1, 30), (2, 63), (3, 63)] {
        holds(&rt, quantiser(&rt, &source, n) == want, &n);
    }
}

#[test]
fn a_page_is_the_same_by_its_checksum_and_its_lacing_values(rt: HostRuntime) {
    let mut page = Vec::new(rt.alloc());
    let head = PageHead {
        flags: 0,
        granule: 0,
        serial: 1,
        number: 0,
    };
    add_page(&rt, &mut page, &head, &[1, 1], b"ab");
    assert!(rt; page.len() == 31);
    let (cut, _) = page.split_at(30);
    let checksum = u32::from_le_bytes([page[22], page[23], page[24], page[25]]);
    assert!(rt; same_page(&page, checksum, &[1, 1]));
    assert!(rt; !same_page(&page, checksum ^ 1, &[1, 1]));
    assert!(rt; !same_page(&page, checksum, &[2]));
    assert!(rt; !same_page(cut, checksum, &[1, 1]));
    page[30] ^= 1;
    assert!(rt; !same_page(&page, checksum, &[1, 1]));
}

// A desk with one input, of which nothing is told. From its second read on it gives one other byte.
#[derive(Drop)]
struct Changing {
    bytes: Vec<u8>,
    other: u64,
    reads: u64,
    read_faults: u64,
    write_faults: u64,
    asked: u64,
}

impl Desk for Changing {
    ghost sees = { λ desk. untold (record {
      read_faults = desk.read_faults;
      write_faults = desk.write_faults;
      asked = desk.asked;
      found = 1;
      made = 1;
    }) };

    ghost use Rattle.std.proofs.Common.{rules};

    ghost found_in = { λ desk files told. Prim.search rules };

    ghost made_in = { λ desk files told. Prim.search rules };

    fn find(&mut self, _name: &str) -> Result<Option<u32>, DeskFault> {
        Ok(Some(0))
    }

    fn size(&mut self, _id: u32) -> Result<u64, Failed> {
        Ok(self.bytes.len() as u64)
    }

    fn read_at(&mut self, _id: u32, pos: u64, buf: &mut [u8]) -> Result<(), Failed> {
        self.asked = self.asked.saturating_add(buf.len() as u64);
        let size = self.bytes.len() as u64;
        if pos > size || buf.len() as u64 > size - pos {
            self.read_faults = self.read_faults.saturating_add(1);
            return Err(Failed);
        }
        let first = pos as usize;
        buf.copy_from_slice(&self.bytes[first..first + buf.len()]);
        self.reads = self.reads.saturating_add(1);
        if self.reads > 1 && self.other >= pos && self.other - pos < buf.len() as u64 {
            buf[(self.other - pos) as usize] ^= 1;
        }
        Ok(())
    }

    fn create(&mut self, _name: &str) -> Result<u32, DeskFault> {
        self.write_faults = self.write_faults.saturating_add(1);
        Err(DeskFault::Failed)
    }

    fn append(&mut self, _id: u32, _piece: &[u8]) -> Result<(), DeskFault> {
        Err(DeskFault::NoMem)
    }

    fn say(&mut self, _piece: &[u8]) -> Result<(), DeskFault> {
        Err(DeskFault::NoMem)
    }
}

// Why the frame of a file is not gathered, of which one byte is another from the second reading on.
fn fault_of_change(
    rt: &impl Abort,
    alloc: Global,
    setup: &[u8],
    other: u64,
) -> Option<SourceFault> {
    let mut desk = Changing {
        bytes: file_of(rt, alloc, &IDENT, COMMENT, setup, &[(64, KEY)]),
        other,
        reads: 0,
        read_faults: 0,
        write_faults: 0,
        asked: 0,
    };
    gathered(rt, alloc, &mut desk, 0, 0).err()
}

#[test]
fn a_page_that_changes_between_two_readings_is_told(rt: HostRuntime) {
    let setup = setup_packet(&rt, rt.alloc());
    // The frame's page is bytes 2,619 to 2,651.
    for (other, want) in [
        (2_618, None),
        (2_619, Some(SourceFault::Changed)),
        (2_651, Some(SourceFault::Changed)),
    ] {
        let fault = fault_of_change(&rt, rt.alloc(), &setup, other);
        holds(&rt, fault == want, &other);
    }
}
