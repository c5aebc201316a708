use crate::*;
use std::alloc::{AllocError, Global};
use std::test::Fail;

/// Lists, and their slices: line, source, first frame and end.
const LISTS: [(&[u8], &[[u32; 4]]); 5] = [
    (b"oggcut 1\nslice 1 5 25\n", &[[2, 1, 5, 25]]),
    (b"oggcut 1\nslice 0 0 1", &[[2, 0, 0, 1]]),
    (
        b"oggcut 1\n\n# of two\nslice 2 0 1\n#\nslice 1 10 11\n\n\n",
        &[[4, 2, 0, 1], [6, 1, 10, 11]],
    ),
    (
        b"oggcut 1\nslice 2147483647 2147483646 2147483647\n",
        &[[2, 2_147_483_647, 2_147_483_646, 2_147_483_647]],
    ),
    // Bytes that are no text, and a NUL.
    (b"oggcut 1\n#\xff\x00\r\nslice 1 0 1", &[[3, 1, 0, 1]]),
];

/// Texts that are no lists: the first bad line, and the first why.
const BAD: [(&[u8], u32, Why); 26] = [
    (b"", 1, Why::Head),
    (b"\n", 1, Why::Head),
    (b"oggcut 2\nslice 1 0 1\n", 1, Why::Head),
    (b"oggcut 1\r\nslice 1 0 1\n", 1, Why::Head),
    (b" oggcut 1\nslice 1 0 1\n", 1, Why::Head),
    (b"oggcut 1", 2, Why::NoItem),
    (b"oggcut 1\n", 2, Why::NoItem),
    (b"oggcut 1\n\n#", 4, Why::NoItem),
    (b"oggcut 1\nslice 1 0\n", 2, Why::Word),
    (b"oggcut 1\nslice 1 0 1 2\n", 2, Why::Word),
    (b"oggcut 1\nslicex 1 0 1\n", 2, Why::Word),
    (b"oggcut 1\nslice\t1 0 1\n", 2, Why::Word),
    (b"oggcut 1\nslice 1  0 1\n", 2, Why::Word),
    (b"oggcut 1\n slice 1 0 1\n", 2, Why::Word),
    (b"oggcut 1\nslice 1 0 1 \n", 2, Why::Word),
    (b"oggcut 1\nslice 1 0 1\nSlice 1 0 1", 3, Why::Word),
    (b"oggcut 1\nslice 1  1\n", 2, Why::Number),
    (b"oggcut 1\nslice 1 00 1\n", 2, Why::Number),
    (b"oggcut 1\nslice 1 0 01\n", 2, Why::Number),
    (b"oggcut 1\nslice +1 0 1\n", 2, Why::Number),
    (b"oggcut 1\nslice 1 0 1\r\n", 2, Why::Number),
    (b"oggcut 1\nslice 1 0 2147483648\n", 2, Why::Number),
    (
        b"oggcut 1\nslice 1 9 99999999999999999999\n",
        2,
        Why::Number,
    ),
    (b"oggcut 1\nslice a 4 4\n", 2, Why::Number),
    (b"oggcut 1\nslice 1 4 4\n", 2, Why::EmptySlice),
    (b"oggcut 1\nslice 1 5 4\nslice 1\n", 2, Why::EmptySlice),
];

#[test]
fn lists_have_their_slices(rt: HostRuntime) -> Result<(), Fail> {
    for (text, rows) in LISTS {
        let list = read_list(rt.alloc(), text)?;
        assert_eq!(rt; list.slices.len(), rows.len());
        for (slice, row) in list.slices.iter().zip(rows) {
            let got = [slice.line, slice.src, slice.first, slice.past];
            assert_eq!(rt; got, *row);
        }
    }
    Ok(())
}

#[test]
fn the_first_bad_line_has_its_first_why(rt: HostRuntime) -> Result<(), Fail> {
    for (text, line, why) in BAD {
        let got = read_list(rt.alloc(), text);
        assert_eq!(rt; got.err(), Some(ListFault::Bad { line, why }));
    }
    Ok(())
}

// The head, and this line so many times.
fn repeated(alloc: Global, line: &[u8], count: u32) -> Result<Vec<u8>, AllocError> {
    let mut text = b"oggcut 1\n".to_vec(alloc)?;
    for _ in 0..count {
        text.extend_from_slice(line)?;
    }
    Ok(text)
}

#[test]
fn a_list_has_10_000_lines_at_most(rt: HostRuntime) -> Result<(), Fail> {
    let text = repeated(rt.alloc(), b"slice 1 0 1\n", 9_999)?;
    let list = read_list(rt.alloc(), &text)?;
    assert_eq!(rt; list.slices.len(), 9_999);
    let too_many = ListFault::Bad {
        line: 10_001,
        why: Why::TooMany,
    };
    let text = repeated(rt.alloc(), b"slice 1 0 1\n", 10_000)?;
    assert_eq!(rt; read_list(rt.alloc(), &text).err(), Some(too_many));
    let text = repeated(rt.alloc(), b"\n", 10_000)?;
    assert_eq!(rt; read_list(rt.alloc(), &text).err(), Some(too_many));
    let none = ListFault::Bad {
        line: 10_001,
        why: Why::NoItem,
    };
    let text = repeated(rt.alloc(), b"\n", 9_999)?;
    assert_eq!(rt; read_list(rt.alloc(), &text).err(), Some(none));
    Ok(())
}

// A line of a megabyte is a line like others.
#[test]
fn a_line_may_have_a_megabyte(rt: HostRuntime) -> Result<(), Fail> {
    let mut text = repeated(rt.alloc(), b"#", 1_048_576)?;
    text.extend_from_slice(b"\nslice 1 0 1")?;
    let list = read_list(rt.alloc(), &text)?;
    assert_eq!(rt; list.slices.len(), 1);
    let text = repeated(rt.alloc(), b"9", 1_048_576)?;
    let bad = ListFault::Bad {
        line: 2,
        why: Why::Word,
    };
    assert_eq!(rt; read_list(rt.alloc(), &text).err(), Some(bad));
    Ok(())
}
