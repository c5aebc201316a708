// Exports of files that are made here, over a desk in memory and over one that reads another file.
ghost use Rattle.std.specs.Prelude.{◌≡◌};
ghost use Rattle.vid_desk.specs.Counts.{untold};

use crate::oggcut;
use crate::tests::{KEY, add, headers};
use std::process::Abort;
use vid_desk::{Desk, DeskFault, Failed, MemDesk};

// The head of all pictures here.
const HEAD: &str = "YUV4MPEG2 W16 H16 F25:1 Ip A1:1 C420jpeg\n";

// A file with these frames, of which the first alone is a key frame.
fn film(rt: &(impl Abort + AllocGlobal), frames: &[&[u8]]) -> Vec<u8> {
    let mut file = headers(rt, &[], 0);
    let mut number = 2u32;
    for (n, frame) in frames.iter().enumerate() {
        let flags = if n.saturating_add(1) == frames.len() {
            4
        } else {
            0
        };
        let granule = 62u64.saturating_add(number.into());
        add(
            rt,
            &mut file,
            flags,
            number,
            granule,
            &[frame.len().min(254) as u8],
            frame,
        );
        number = number.saturating_add(1);
    }
    file
}

// The text of pictures, of which each has this luma all over, and chroma 128.
pub(crate) fn text_of(rt: &(impl Abort + AllocGlobal), lumas: &[u8]) -> Vec<u8> {
    let mut text = Vec::new(rt.alloc());
    assert!(rt; text.extend_from_slice(HEAD.as_bytes()).is_ok());
    for luma in lumas {
        assert!(rt; text.extend_from_slice(b"FRAME\n").is_ok());
        assert!(rt; text.extend_from_slice(&[*luma; 256]).is_ok());
        assert!(rt; text.extend_from_slice(&[128u8; 128]).is_ok());
    }
    text
}

#[test]
fn the_pictures_of_all_frames_are_written(rt: HostRuntime) {
    let rows: [(&[&[u8]], &[u8], &str); 4] = [
        (&[&KEY], &[128], "exported 1\n"),
        (&[&KEY, &[]], &[128, 128], "exported 2\n"),
        (
            &[&[0x3f, 0x00, 0x04, 0x8d, 0x00, 0x00]],
            &[128],
            "exported 1\n",
        ),
        (
            &[&[0x31, 0x00, 0x04, 0x8d, 0x00, 0x00]],
            &[129],
            "exported 1\n",
        ),
    ];
    for (frames, lumas, line) in rows {
        let file = film(&rt, frames);
        let text = text_of(&rt, lumas);
        let mut desk = MemDesk::new(rt.alloc());
        assert!(rt; desk.add_input("S", &file).is_ok());
        let end = oggcut(rt.alloc(), &["export", "S", "O"], &mut desk);
        assert_eq!(rt; end.number(), 0, "{line}");
        assert!(rt; desk.output("O") == Some(text.as_slice()), "{line}");
        assert!(rt; desk.said() == line.as_bytes(), "{line}");
    }
    assert_eq!(rt; text_of(&rt, &[128]).len(), 431);
}

#[test]
fn a_refused_export_creates_no_output(rt: HostRuntime) {
    let file = film(&rt, &[&KEY[..4]]);
    for (words, status, line) in [
        (
            ["export", "S", "O"],
            4,
            "fault 4 source 1 link 1 packet 3 Ended\n",
        ),
        (["export", "S", "S"], 15, "fault 15 name\n"),
        (["export", "X", "X"], 15, "fault 15 name\n"),
        (["export", "X", "O"], 3, "fault 3 input 1 missing\n"),
    ] {
        let mut desk = MemDesk::new(rt.alloc());
        assert!(rt; desk.add_input("S", &file).is_ok());
        assert_eq!(rt; oggcut(rt.alloc(), &words, &mut desk).number(), status);
        assert!(rt; desk.said() == line.as_bytes(), "{line}");
        assert!(rt; desk.output("O").is_none());
        assert!(rt; desk.output("S").is_none());
    }
}

#[test]
fn a_call_that_fails_leaves_a_first_part_of_the_pictures(rt: HostRuntime) {
    // The calls are a find, a size, a read, the creation, the head, a page read again, its picture in four pieces, and the line.
    let file = film(&rt, &[&KEY, &[]]);
    let text = text_of(&rt, &[128, 128]);
    for (call, part, status, left, line) in [
        (0, 0, 8, None, "fault 8 read\n"),
        (1, 0, 8, None, "fault 8 read\n"),
        (2, 0, 8, None, "fault 8 read\n"),
        (3, 0, 9, None, "fault 9 write\n"),
        (4, 0, 9, Some(0), "fault 9 write\n"),
        (4, 10, 9, Some(10), "fault 9 write\n"),
        (5, 0, 8, Some(41), "fault 8 read\n"),
        (6, 3, 9, Some(44), "fault 9 write\n"),
        (7, 100, 9, Some(147), "fault 9 write\n"),
        (8, 0, 9, Some(303), "fault 9 write\n"),
        (9, 63, 9, Some(430), "fault 9 write\n"),
        (10, 0, 8, Some(431), "fault 8 read\n"),
        (14, 63, 9, Some(820), "fault 9 write\n"),
        (15, 3, 9, Some(821), "expfault 9 write\n"),
        (16, 0, 0, Some(821), "exported 2\n"),
    ] {
        let mut desk = MemDesk::new(rt.alloc());
        assert!(rt; desk.add_input("S", &file).is_ok());
        assert!(rt; desk.fail_part_at(call, part).is_ok());
        let end = oggcut(rt.alloc(), &["export", "S", "O"], &mut desk);
        assert_eq!(rt; end.number(), status, "{call}");
        assert!(rt; desk.said() == line.as_bytes(), "{call}");
        let wanted = match left {
            Some(count) => text.get(..count),
            None => None,
        };
        assert!(rt; desk.output("O") == wanted, "{call}");
    }
}

// A desk of one file of which nothing is told. From the second reading on the last byte that is read is another.
#[derive(Drop)]
struct OtherFile {
    file: Vec<u8>,
    readings: u64,
    written: Vec<u8>,
    said: Vec<u8>,
    read_faults: u64,
    write_faults: u64,
    asked: u64,
}

impl Desk for OtherFile {
    ghost sees = { λ desk. untold (record {
      read_faults = desk.read_faults;
      write_faults = desk.write_faults;
      asked = desk.asked;
      found = 1;
      made = 1;
    }) };

    ghost use Rattle.std.proofs.Common.{rules};

    ghost found_in = { λ desk files told. Prim.search rules };

    ghost made_in = { λ desk files told. Prim.search rules };

    fn find(&mut self, _name: &str) -> Result<Option<u32>, DeskFault> {
        Ok(Some(0))
    }

    fn size(&mut self, _id: u32) -> Result<u64, Failed> {
        Ok(self.file.len() as u64)
    }

    fn read_at(&mut self, _id: u32, pos: u64, buf: &mut [u8]) -> Result<(), Failed> {
        self.asked = self.asked.saturating_add(buf.len() as u64);
        let first = pos as usize;
        if first > self.file.len() || buf.len() > self.file.len() - first {
            self.read_faults = self.read_faults.saturating_add(1);
            return Err(Failed);
        }
        buf.copy_from_slice(&self.file[first..first + buf.len()]);
        if self.readings > 0
            && let Some(byte) = buf.last_mut()
        {
            *byte ^= 1;
        }
        self.readings = self.readings.saturating_add(1);
        Ok(())
    }

    fn create(&mut self, _name: &str) -> Result<u32, DeskFault> {
        Ok(0)
    }

    fn append(&mut self, _id: u32, piece: &[u8]) -> Result<(), DeskFault> {
        self.written.extend_from_slice(piece)?;
        Ok(())
    }

    fn say(&mut self, piece: &[u8]) -> Result<(), DeskFault> {
        self.said.extend_from_slice(piece)?;
        Ok(())
    }
}

#[test]
fn a_file_that_is_another_when_it_is_read_again_is_told(rt: HostRuntime) {
    let mut desk = OtherFile {
        file: film(&rt, &[&KEY]),
        readings: 0,
        written: Vec::new(rt.alloc()),
        said: Vec::new(rt.alloc()),
        read_faults: 0,
        write_faults: 0,
        asked: 0,
    };
    let end = oggcut(rt.alloc(), &["export", "S", "O"], &mut desk);
    assert_eq!(rt; end.number(), 16);
    assert!(rt; desk.said.as_slice() == b"fault 16 changed\n".as_slice());
    assert!(rt; desk.written.as_slice() == HEAD.as_bytes());
}
