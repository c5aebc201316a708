use crate::oggcut;
use crate::tests::{KEY, add, headers};
use std::process::Abort;
use vid_desk::MemDesk;

// Lists over a source of 30 frames, of which 0, 10 and 20 are key frames: how `plan` ends, and what it says.
const LISTS: [(&str, u8, &str); 17] = [
    (
        "oggcut 1\nslice 1 5 25\n",
        0,
        "code 1 5 10\ncopy 1 10 25\ncopied 15 coded 5\n",
    ),
    (
        "oggcut 1\nslice 1 10 30",
        0,
        "copy 1 10 30\ncopied 20 coded 0\n",
    ),
    (
        "oggcut 1\nslice 1 12 15\n",
        0,
        "code 1 12 15\ncopied 0 coded 3\n",
    ),
    (
        "oggcut 1\nslice 1 0 5\nslice 1 5 10\n",
        0,
        "copy 1 0 10\ncopied 10 coded 0\n",
    ),
    (
        "oggcut 1\nslice 1 5 8\nslice 1 8 12\n",
        0,
        "code 1 5 10\ncopy 1 10 12\ncopied 2 coded 5\n",
    ),
    (
        "oggcut 1\nslice 1 0 1\nslice 1 0 1\n",
        0,
        "copy 1 0 1\ncopy 1 0 1\ncopied 2 coded 0\n",
    ),
    ("oggcut 1\n", 5, "fault 5 line 2 NoItem\n"),
    ("", 5, "fault 5 line 1 Head\n"),
    ("oggcut 2\nslice 1 0 1\n", 5, "fault 5 line 1 Head\n"),
    ("oggcut 1\nslice 1 4 4\n", 5, "fault 5 line 2 EmptySlice\n"),
    ("oggcut 1\n#\nslice  1 4\n", 5, "fault 5 line 3 Number\n"),
    ("oggcut 1\nslice 1 4\n", 5, "fault 5 line 2 Word\n"),
    (
        "oggcut 1\nslice 1 0 31\nslice\n",
        5,
        "fault 5 line 3 Word\n",
    ),
    ("oggcut 1\nslice 1 0 31\n", 6, "fault 6 line 2\n"),
    ("oggcut 1\nslice 0 0 1\n", 6, "fault 6 line 2\n"),
    (
        "oggcut 1\nslice 1 29 30\nslice 2 0 1\nslice 1 0 31\n",
        6,
        "fault 6 line 3\n",
    ),
    (
        "oggcut 1\nslice 1 29 30\n\nslice 1 30 31\n",
        6,
        "fault 6 line 4\n",
    ),
];

// The source: each key frame has a packet of 5 bytes, and each other frame one of none.
fn thirty(rt: &(impl Abort + AllocGlobal)) -> Vec<u8> {
    let mut file = headers(rt, &[], 0);
    for n in 0..30u32 {
        let flags = if n == 29 { 4 } else { 0 };
        let key = n / 10 * 10;
        let granule = u64::from((1 + key) * 64 + (n - key));
        if n == key {
            add(rt, &mut file, flags, n + 2, granule, &[5], &KEY);
        } else {
            add(rt, &mut file, flags, n + 2, granule, &[0], &[]);
        }
    }
    file
}

// What `plan` says of a list and a source.
fn planned(rt: &(impl Abort + AllocGlobal), list: &[u8], source: &[u8], status: u8, text: &str) {
    let mut desk = MemDesk::new(rt.alloc());
    assert!(rt; desk.add_input("L", list).is_ok());
    assert!(rt; desk.add_input("S", source).is_ok());
    let end = oggcut(rt.alloc(), &["plan", "L", "S"], &mut desk);
    assert_eq!(rt; end.number(), status, "{text}");
    assert!(rt; desk.said() == text.as_bytes(), "{text}");
}

#[test]
fn lists_have_their_lines(rt: HostRuntime) {
    let source = thirty(&rt);
    for (list, status, text) in LISTS {
        planned(&rt, list.as_bytes(), &source, status, text);
    }
}

#[test]
fn a_bad_source_comes_before_a_bad_list(rt: HostRuntime) {
    let mut source = thirty(&rt);
    source.truncate(2651);
    for list in ["", "oggcut 1\nslice 1 0 1\n", "oggcut 1\nslice 1 0 31\n"] {
        let line = "fault 4 source 1 byte 2619 Truncated\n";
        planned(&rt, list.as_bytes(), &source, 4, line);
    }
}

// A list of so many bytes, whose last line says nothing.
fn long_list(rt: &(impl Abort + AllocGlobal), count: usize) -> Vec<u8> {
    let text = b"oggcut 1\nslice 1 0 1\n";
    let Ok(rest) = Vec::from_elem(rt.alloc(), b'#', count.saturating_sub(text.len())) else {
        panic!(rt; "there is no list")
    };
    let mut list = Vec::new(rt.alloc());
    assert!(rt; list.extend_from_slice(text).is_ok());
    assert!(rt; list.extend_from_slice(&rest).is_ok());
    list
}

#[test]
fn a_list_of_1048577_bytes_is_too_long(rt: HostRuntime) {
    let source = thirty(&rt);
    let text = "copy 1 0 1\ncopied 1 coded 0\n";
    planned(&rt, &long_list(&rt, 1_048_576), &source, 0, text);
    let line = "fault 14 input 1 bytes 1048577\n";
    planned(&rt, &long_list(&rt, 1_048_577), &source, 14, line);
    planned(&rt, &long_list(&rt, 1_048_577), b"", 14, line);
}

#[test]
fn a_call_of_a_plan_that_fails_is_told(rt: HostRuntime) {
    // The calls are two finds, three sizes, a read of the source, one of the list, and the lines.
    let source = thirty(&rt);
    for call in 0..8u64 {
        let mut desk = MemDesk::new(rt.alloc());
        assert!(rt; desk.add_input("L", b"oggcut 1\nslice 1 5 25\n").is_ok());
        assert!(rt; desk.add_input("S", &source).is_ok());
        assert!(rt; desk.fail_at(call).is_ok());
        let end = oggcut(rt.alloc(), &["plan", "L", "S"], &mut desk);
        let (status, line) = if call == 7 {
            (9, "fault 9 write\n")
        } else {
            (8, "fault 8 read\n")
        };
        assert_eq!(rt; end.number(), status, "{call}");
        assert!(rt; desk.said() == line.as_bytes(), "{call}");
    }
}
