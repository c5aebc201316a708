ghost use Rattle.std.specs.Prelude.{◌≡◌, ◌≤◌, ◌*◌, sum, length};
ghost use Rattle.ogg_page.specs.Page.{HasShape};

use crate::*;
use ogg_page::PageRef;
use std::alloc::Global;
use std::process::Abort;

// A page made by hand: flags, granule position, serial number, sequence number, lacing values, body.
type Made<'a> = (u8, u64, u32, u32, &'a [u8], &'a [u8]);

// The three headers, the first as short as it can be told, and a frame that is a key frame with no base.
const IDENT: Made = (2, 0, 1, 0, &[7], b"\x80theora");

const TABLES: Made = (0, 0, 1, 1, &[1, 1], &[0x81, 0x82]);

const KEY: Made = (0, 0, 1, 2, &[1], &[0]);

const FILL: [u8; 255] = [7; 255];

fn total(lacing: &[u8]) -> usize
    requires { length lacing.now ≤ 255 }
    ensures sum { result ≡ sum lacing.now }
    ensures bound { result ≤ 255 * 255 }
{
    let mut total = 0usize;
    for size in lacing {
        total += usize::from(*size);
    }
    total
}

fn page_of<'a>(rt: &impl Abort, made: &Made<'a>) -> PageRef<'a>
    ensures { HasShape result.lacing.now result.body.now }
{
    let (flags, granule, serial, number, lacing, body) = *made;
    assert!(rt; lacing.len() <= 255 && total(lacing) == body.len());
    PageRef {
        flags,
        granule,
        serial,
        number,
        lacing,
        body,
    }
}

// What a walk answers to a page and then to its granule position.
fn fault_of(rt: &impl Abort, walk: &mut Walk, made: &Made, shift: u8) -> Option<LinkFault>
    requires { shift ≤ 31 }
{
    match walk.page(&page_of(rt, made)) {
        Ok(_) => walk.settle(shift).err(),
        Err(LinkRefusal::Bad(fault)) => {
            assert!(rt; walk.settle(shift) == Err(fault));
            Some(fault)
        }
        Err(LinkRefusal::NoMem) => {
            assert!(rt; false, "memory is found");
            None
        }
    }
}

// The first fault of a file of these pages. The walk answers it again to each later page, and to the end.
fn judged(rt: &impl Abort, alloc: Global, shift: u8, pages: &[Made]) -> Option<LinkFault>
    requires { shift ≤ 31 }
{
    let mut walk = Walk::new(alloc);
    let mut found = None;
    for made in pages {
        let fault = fault_of(rt, &mut walk, made, shift);
        assert!(rt; found.is_none() || fault == found);
        found = fault;
    }
    let at_end = walk.end().err();
    assert!(rt; found.is_none() || at_end == found);
    assert!(rt; at_end.is_none() || fault_of(rt, &mut walk, &KEY, shift) == at_end);
    at_end
}

#[test]
fn each_fault_has_a_smallest_file_and_its_place_in_the_order(rt: HostRuntime) {
    const LAST: Made = (6, 0, 1, 0, &[7], b"\x80theora");
    const ROWS: [(&str, &[Made], LinkFault); 26] = [
        ("no page", &[], LinkFault::NoTrack),
        ("no first page", &[TABLES], LinkFault::NoTrack),
        (
            "another stream",
            &[(2, 0, 1, 0, &[7], b"\x81theora")],
            LinkFault::NoTrack,
        ),
        (
            "another seventh byte",
            &[(2, 0, 1, 0, &[7], b"\x80theorb")],
            LinkFault::NoTrack,
        ),
        (
            "six bytes",
            &[(2, 0, 1, 0, &[6], b"\x80theor")],
            LinkFault::NoTrack,
        ),
        ("one header", &[IDENT], LinkFault::UnfinishedPacket),
        (
            "two headers",
            &[IDENT, (0, 0, 1, 1, &[1], &[0x81])],
            LinkFault::UnfinishedPacket,
        ),
        (
            "three headers and more",
            &[IDENT, TABLES, (0, 0, 1, 2, &[255], &FILL)],
            LinkFault::UnfinishedPacket,
        ),
        (
            "a page too far",
            &[IDENT, (0, 0, 1, 2, &[1, 1], &[0x81, 0x82])],
            LinkFault::MissingPage,
        ),
        (
            "the same page again",
            &[IDENT, TABLES, TABLES],
            LinkFault::MissingPage,
        ),
        (
            "nothing to go on with",
            &[IDENT, (1, 0, 1, 1, &[1, 1], &[0x81, 0x82])],
            LinkFault::BadContinued,
        ),
        (
            "nothing before the first",
            &[(3, 0, 1, 0, &[7], b"\x80theora")],
            LinkFault::BadContinued,
        ),
        (
            "a packet left behind",
            &[IDENT, (0, 0, 1, 1, &[255], &FILL), (0, 0, 1, 2, &[1], &[0])],
            LinkFault::BadContinued,
        ),
        (
            "two packets",
            &[(2, 0, 1, 0, &[7, 0], b"\x80theora")],
            LinkFault::HeadersNotAlone,
        ),
        (
            "a first page again",
            &[IDENT, (2, 0, 1, 1, &[1, 1], &[0x81, 0x82])],
            LinkFault::HeadersNotAlone,
        ),
        (
            "a frame beside headers",
            &[IDENT, (0, 0, 1, 1, &[1, 1, 0], &[0x81, 0x82])],
            LinkFault::HeadersNotAlone,
        ),
        (
            "a page behind the last",
            &[LAST, TABLES],
            LinkFault::DataAfterEnd,
        ),
        (
            "a page behind an empty last one",
            &[
                IDENT,
                TABLES,
                (4, 0, 1, 2, &[], &[]),
                (0, 0, 1, 3, &[1], &[0]),
            ],
            LinkFault::DataAfterEnd,
        ),
        ("a second link", &[IDENT, TABLES, IDENT], LinkFault::Chained),
        (
            "frames since the key frame",
            &[IDENT, TABLES, (0, 1, 1, 2, &[1], &[0])],
            LinkFault::BadGranule,
        ),
        (
            "a base below 0",
            &[IDENT, TABLES, (0, 0, 1, 2, &[1, 1], &[0, 0])],
            LinkFault::BadGranule,
        ),
        (
            "no key frame",
            &[IDENT, TABLES, (0, 0, 1, 2, &[1], &[0x40])],
            LinkFault::BadGranule,
        ),
        (
            "Chained first",
            &[LAST, (0, 0, 2, 0, &[], &[]), (3, 0, 1, 5, &[1], &[0])],
            LinkFault::Chained,
        ),
        (
            "DataAfterEnd before MissingPage",
            &[LAST, (1, 0, 1, 5, &[1], &[0])],
            LinkFault::DataAfterEnd,
        ),
        (
            "MissingPage before BadContinued",
            &[IDENT, (3, 0, 1, 5, &[1], &[0])],
            LinkFault::MissingPage,
        ),
        (
            "BadContinued before HeadersNotAlone",
            &[IDENT, (3, 0, 1, 1, &[1], &[0])],
            LinkFault::BadContinued,
        ),
    ];
    for (name, pages, fault) in ROWS {
        assert!(rt; judged(&rt, rt.alloc(), 6, pages) == Some(fault), "{name}");
    }
    let mut body = [7; 262];
    body[..7].copy_from_slice(b"\x80theora");
    assert!(rt;
        judged(&rt, rt.alloc(), 6, &[(2, 0, 1, 0, &[7, 255], &body)])
            == Some(LinkFault::HeadersNotAlone),
        "a packet and the beginning of another"
    );
    assert!(rt;
        judged(&rt, rt.alloc(), 6, &[(2, 0, 1, 0, &[255], &body[..255])])
            == Some(LinkFault::HeadersNotAlone),
        "a packet that does not end"
    );
}

#[test]
fn files_without_a_fault(rt: HostRuntime) {
    const ROWS: [(&str, &[Made]); 6] = [
        ("headers alone", &[IDENT, TABLES]),
        ("one frame", &[IDENT, TABLES, KEY]),
        (
            "pages of other streams do not count",
            &[
                (2, 0, 9, 4, &[1], &[0]),
                IDENT,
                (2, 0, 9, 0, &[7], b"\x80theora"),
                (1, 5, 9, 8, &[1], &[0]),
                TABLES,
                (4, 9, 9, 0, &[], &[]),
                KEY,
            ],
        ),
        (
            "sequence numbers go on at 0",
            &[
                (2, 0, 1, 4294967295, &[7], b"\x80theora"),
                (0, 0, 1, 0, &[1, 1], &[0x81, 0x82]),
                (0, 0, 1, 1, &[1], &[0]),
            ],
        ),
        (
            "a page with nothing on it may have any flag 1",
            &[
                IDENT,
                (1, 0, 1, 1, &[], &[]),
                (0, 0, 1, 2, &[1, 1], &[0x81, 0x82]),
            ],
        ),
        (
            "empty packets are frames",
            &[IDENT, TABLES, (0, 2, 1, 2, &[1, 0, 0], &[63])],
        ),
    ];
    for (name, pages) in ROWS {
        assert!(rt; judged(&rt, rt.alloc(), 6, pages) == None, "{name}");
    }
}

// With no frame between key frames a position is the base and the key frame's number.
#[test]
fn the_first_position_tells_the_base_and_the_later_ones_are_compared_as_numbers(rt: HostRuntime) {
    const GREATEST: u64 = 18446744073709551615;
    const ROWS: [(&str, u8, u64, u64, Option<LinkFault>); 9] = [
        ("no base", 6, 0, 64, None),
        ("base 1", 6, 64, 128, None),
        (
            "the frame before counts",
            6,
            64,
            65,
            Some(LinkFault::BadGranule),
        ),
        (
            "the key frame before",
            6,
            64,
            64,
            Some(LinkFault::BadGranule),
        ),
        ("base 2^58 - 2", 6, GREATEST - 127, GREATEST - 63, None),
        (
            "base 2^58 - 1",
            6,
            GREATEST - 63,
            0,
            Some(LinkFault::BadGranule),
        ),
        ("2^64 - 1", 0, GREATEST - 1, GREATEST, None),
        ("2^64", 0, GREATEST, 0, Some(LinkFault::BadGranule)),
        ("shift 31", 31, 0, 2147483648, None),
    ];
    for (name, shift, first, second, fault) in ROWS {
        let pages: [Made; 4] = [
            IDENT,
            TABLES,
            (0, first, 1, 2, &[1], &[0]),
            (0, second, 1, 3, &[1], &[0]),
        ];
        assert!(rt; shift <= 31);
        assert!(rt; judged(&rt, rt.alloc(), shift, &pages) == fault, "{name}");
    }
    assert_eq!(rt; granule(1, 0, 0, 6), Some(64));
    assert_eq!(rt; granule(0, 3, 8, 6), Some(197));
    assert_eq!(rt; granule(GREATEST - 2, 1, 1, 0), Some(GREATEST - 1));
    assert_eq!(rt; granule(GREATEST - 1, 1, 1, 0), None);
    assert_eq!(rt; granule(GREATEST, 1, 1, 0), None);
}

// Whether the page has these parts where its own flag 1 tells what was unfinished.
fn are_parts_of(alloc: Global, page: &PageRef, parts: &[Part]) -> bool
    requires { HasShape page.now.lacing.now page.now.body.now }
{
    match parts_of(alloc, page, page.flags % 2 == 1) {
        Ok(found) => found.as_slice() == parts,
        Err(_) => false,
    }
}

// The parts that the last of these pages brings, with a walk or without.
fn last_parts(rt: &impl Abort, alloc: Global, pages: &[Made]) -> Vec<Part> {
    let mut walk = Walk::new(alloc);
    let mut last = Vec::new(alloc);
    for (i, made) in pages.iter().enumerate() {
        let page = page_of(rt, made);
        match walk.page(&page) {
            Ok(events) => {
                assert!(rt; events.new_link == (i == 0));
                assert!(rt; events.track == (made.2 == 1));
                assert!(rt; !events.track || are_parts_of(alloc, &page, &events.parts));
                last = events.parts;
            }
            Err(_) => assert!(rt; false, "the pages have no fault"),
        }
    }
    last
}

#[test]
fn a_packet_goes_on_from_page_to_page_until_a_lacing_value_below_255(rt: HostRuntime) {
    const BEGINS: Made = (0, 0, 1, 2, &[2, 255], &[7; 257]);
    const GOES_ON: Made = (1, 0, 1, 3, &[255], &FILL);
    const ENDS: Made = (1, 0, 1, 4, &[255, 0], &FILL);
    const ROWS: [(&str, &[Made], &[(u32, u32, bool, bool)]); 6] = [
        (
            "headers",
            &[IDENT, TABLES],
            &[(0, 1, true, true), (1, 2, true, true)],
        ),
        (
            "a packet begins behind one that ends",
            &[IDENT, TABLES, BEGINS],
            &[(0, 2, true, true), (2, 257, true, false)],
        ),
        (
            "the packet goes on",
            &[IDENT, TABLES, BEGINS, GOES_ON],
            &[(0, 255, false, false)],
        ),
        (
            "the packet of 765 bytes ends with a zero lacing",
            &[IDENT, TABLES, BEGINS, GOES_ON, ENDS],
            &[(0, 255, false, true)],
        ),
        (
            "an empty packet",
            &[IDENT, TABLES, (0, 0, 1, 2, &[0], &[])],
            &[(0, 0, true, true)],
        ),
        (
            "another stream",
            &[IDENT, TABLES, (0, 0, 2, 2, &[1], &[0])],
            &[],
        ),
    ];
    for (name, pages, parts) in ROWS {
        let found = last_parts(&rt, rt.alloc(), pages);
        assert!(rt; found.len() == parts.len(), "{name}");
        for (part, want) in found.iter().zip(parts) {
            assert!(rt;
                (part.first, part.past, part.starts, part.ends) == *want,
                "{name}"
            );
        }
    }
}

#[test]
fn a_page_has_at_most_255_parts_and_one_of_at_most_65025_bytes(rt: HostRuntime) {
    let empty: Made = (0, 0, 1, 2, &[0; 255], &[]);
    let found = last_parts(&rt, rt.alloc(), &[IDENT, TABLES, empty]);
    assert!(rt; found.len() == 255);
    for part in &found {
        assert!(rt; part.past == 0 && part.starts && part.ends);
    }
    let mut body = Vec::new(rt.alloc());
    for _ in 0..255 {
        assert!(rt; body.extend_from_slice(&FILL).is_ok());
    }
    let full: Made = (0, 0, 1, 2, &[255; 255], &body);
    let found = last_parts(&rt, rt.alloc(), &[IDENT, TABLES, full]);
    assert!(rt; found.len() == 1);
    for part in &found {
        assert!(rt; part.past == 65025 && part.starts && !part.ends);
    }
}

#[test]
fn faults_have_the_numbers_34_to_41(rt: HostRuntime) {
    const ROWS: [(LinkFault, u8, &str); 8] = [
        (LinkFault::MissingPage, 34, "MissingPage"),
        (LinkFault::BadContinued, 35, "BadContinued"),
        (LinkFault::BadGranule, 36, "BadGranule"),
        (LinkFault::NoTrack, 37, "NoTrack"),
        (LinkFault::HeadersNotAlone, 38, "HeadersNotAlone"),
        (LinkFault::UnfinishedPacket, 39, "UnfinishedPacket"),
        (LinkFault::DataAfterEnd, 40, "DataAfterEnd"),
        (LinkFault::Chained, 41, "Chained"),
    ];
    for (fault, number, name) in ROWS {
        assert_eq!(rt; fault.number(), number);
        assert!(rt; fault.name() == name);
    }
}
