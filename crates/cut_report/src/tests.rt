use crate::*;
use cut_list::Why;
use ogg_link::LinkFault;
use ogg_page::PageFault;
use thr_ident::Ident;
use vid_base::PacketFault;
use y4m_io::Y4mWhy;

// Each status but that of a bad source, with the smallest and the largest numbers; the number with which the program
// ends, and the line.
const STATUSES: [(Status, u8, &str); 22] = [
    (Status::Done, 0, ""),
    (Status::Usage, 2, "fault 2 usage\n"),
    (Status::NoFile { input: 0 }, 3, "fault 3 input 0 missing\n"),
    (
        Status::NoFile { input: u32::MAX },
        3,
        "fault 3 input 4294967295 missing\n",
    ),
    (
        Status::BadList {
            line: 1,
            why: Why::Head,
        },
        5,
        "fault 5 line 1 Head\n",
    ),
    (
        Status::BadList {
            line: 2,
            why: Why::Word,
        },
        5,
        "fault 5 line 2 Word\n",
    ),
    (
        Status::BadList {
            line: 3,
            why: Why::Number,
        },
        5,
        "fault 5 line 3 Number\n",
    ),
    (
        Status::BadList {
            line: 4,
            why: Why::EmptySlice,
        },
        5,
        "fault 5 line 4 EmptySlice\n",
    ),
    (
        Status::BadList {
            line: 10_001,
            why: Why::TooMany,
        },
        5,
        "fault 5 line 10001 TooMany\n",
    ),
    (
        Status::BadList {
            line: u32::MAX,
            why: Why::NoItem,
        },
        5,
        "fault 5 line 4294967295 NoItem\n",
    ),
    (Status::Range { line: 2 }, 6, "fault 6 line 2\n"),
    (
        Status::Range { line: u32::MAX },
        6,
        "fault 6 line 4294967295\n",
    ),
    (Status::ReadFault, 8, "fault 8 read\n"),
    (Status::WriteFault, 9, "fault 9 write\n"),
    (Status::NoMem, 10, "fault 10 memory\n"),
    (
        Status::TooLong { input: 0, bytes: 0 },
        14,
        "fault 14 input 0 bytes 0\n",
    ),
    (
        Status::TooLong {
            input: 2,
            bytes: 268_435_457,
        },
        14,
        "fault 14 input 2 bytes 268435457\n",
    ),
    (
        Status::TooLong {
            input: u32::MAX,
            bytes: u64::MAX,
        },
        14,
        "fault 14 input 4294967295 bytes 18446744073709551615\n",
    ),
    (Status::SameName, 15, "fault 15 name\n"),
    (Status::Changed, 16, "fault 16 changed\n"),
    (Status::InPointNotKey, 18, "fault 18 key\n"),
    (Status::NotYet, 19, "fault 19 form\n"),
];

// Bad sources: which one, what is wrong with it, and the line.
const BAD_SOURCES: [(u32, SourceWhat, &str); 6] = [
    (
        1,
        SourceWhat::Packet {
            link: 1,
            packet: 17,
            fault: PacketFault::Ended,
        },
        "fault 4 source 1 link 1 packet 17 Ended\n",
    ),
    (
        u32::MAX,
        SourceWhat::Packet {
            link: 4_294_967_294,
            packet: 4_294_967_293,
            fault: PacketFault::CommentLength,
        },
        "fault 4 source 4294967295 link 4294967294 packet 4294967293 CommentLength\n",
    ),
    (
        2,
        SourceWhat::Page {
            at: 0,
            fault: PageFault::NotAPage,
        },
        "fault 4 source 2 byte 0 NotAPage\n",
    ),
    (
        u32::MAX,
        SourceWhat::Page {
            at: u64::MAX,
            fault: PageFault::PageVersion,
        },
        "fault 4 source 4294967295 byte 18446744073709551615 PageVersion\n",
    ),
    (
        1,
        SourceWhat::Link {
            at: 2_619,
            fault: LinkFault::BadGranule,
        },
        "fault 4 source 1 byte 2619 BadGranule\n",
    ),
    (
        u32::MAX,
        SourceWhat::Link {
            at: u64::MAX,
            fault: LinkFault::UnfinishedPacket,
        },
        "fault 4 source 4294967295 byte 18446744073709551615 UnfinishedPacket\n",
    ),
];

// Departures of a stream of pictures: the whole frames before it, the why, and the line.
const DEPARTURES: [(u32, Y4mWhy, &str); 12] = [
    (0, Y4mWhy::Magic, "fault 11 frame 0 Magic\n"),
    (0, Y4mWhy::Field, "fault 11 frame 0 Field\n"),
    (0, Y4mWhy::Size, "fault 11 frame 0 Size\n"),
    (0, Y4mWhy::Rate, "fault 11 frame 0 Rate\n"),
    (0, Y4mWhy::Aspect, "fault 11 frame 0 Aspect\n"),
    (0, Y4mWhy::Colour, "fault 11 frame 0 Colour\n"),
    (0, Y4mWhy::Interlace, "fault 11 frame 0 Interlace\n"),
    (1, Y4mWhy::Line, "fault 11 frame 1 Line\n"),
    (2, Y4mWhy::Frame, "fault 11 frame 2 Frame\n"),
    (16_777_215, Y4mWhy::Short, "fault 11 frame 16777215 Short\n"),
    (0, Y4mWhy::Empty, "fault 11 frame 0 Empty\n"),
    (
        u32::MAX,
        Y4mWhy::TooMany,
        "fault 11 frame 4294967295 TooMany\n",
    ),
];

// Frames of 16 by 16 samples in 4:2:0, 25 a second.
const SMALLEST: Ident = Ident {
    vrev: 1,
    fmbw: 1,
    fmbh: 1,
    picw: 16,
    pich: 16,
    picx: 0,
    picy: 0,
    frn: 25,
    frd: 1,
    parn: 1,
    pard: 1,
    cs: 0,
    nombr: 0,
    qual: 30,
    shift: 6,
    pf: 0,
};

// Pictures at the right of a coded frame of the most macro blocks, in 4:2:2, just below 30 a second.
const MOST: Ident = Ident {
    vrev: 1,
    fmbw: 512,
    fmbh: 256,
    picw: 8_000,
    pich: 4_001,
    picx: 192,
    picy: 95,
    frn: 30_000,
    frd: 1_001,
    parn: 0,
    pard: 0,
    cs: 0,
    nombr: 0,
    qual: 63,
    shift: 31,
    pf: 2,
};

// Pictures one row high in the widest coded frame, in 4:4:4, at the largest numbers of a rate.
const WIDEST: Ident = Ident {
    vrev: 1,
    fmbw: 65_535,
    fmbh: 2,
    picw: 1_048_560,
    pich: 1,
    picx: 0,
    picy: 31,
    frn: 4_294_967_295,
    frd: 4_294_967_294,
    parn: 0,
    pard: 0,
    cs: 0,
    nombr: 0,
    qual: 0,
    shift: 0,
    pf: 3,
};

#[test]
fn each_status_has_its_number_and_its_line(rt: HostRuntime) {
    for (status, number, line) in STATUSES {
        assert_eq!(rt; status.number(), number, "{line}");
        assert!(rt; fault_line(&status).as_slice() == line.as_bytes(), "{line}");
    }
}

#[test]
fn a_departure_is_told_by_its_why_and_the_frames_before_it(rt: HostRuntime) {
    for (frame, why, line) in DEPARTURES {
        let status = Status::BadY4m { frame, why };
        assert_eq!(rt; status.number(), 11, "{line}");
        assert!(rt; fault_line(&status).as_slice() == line.as_bytes(), "{line}");
    }
}

#[test]
fn a_bad_source_is_told_by_its_fault_and_where_it_stands(rt: HostRuntime) {
    for (source, what, line) in BAD_SOURCES {
        let status = Status::BadSource { source, what };
        assert_eq!(rt; status.number(), 4, "{line}");
        assert!(rt; fault_line(&status).as_slice() == line.as_bytes(), "{line}");
    }
}

#[test]
fn lines_of_links_stand_behind_what_was_there(rt: HostRuntime) {
    let mut out = Vec::new(rt.alloc());
    assert!(rt; out.extend_from_slice(b"before\n").is_ok());
    assert_eq!(rt; link_line(&mut out, 1, &SMALLEST, 30, 3), Ok(()));
    assert_eq!(rt; link_line(&mut out, 20, &MOST, 0, 0), Ok(()));
    assert_eq!(rt;
        link_line(
            &mut out,
            4_294_967_295,
            &WIDEST,
            4_294_967_294,
            4_294_967_293
        ),
        Ok(())
    );
    assert_eq!(rt; seekable_line(&mut out, true), Ok(()));
    assert_eq!(rt; seekable_line(&mut out, false), Ok(()));
    assert_eq!(rt;
        out.as_slice(),
        b"before
link 1 picture 16x16 coded 16x16 pixels 420 rate 25:1 frames 30 keys 3
link 20 picture 8000x4001 coded 8192x4096 pixels 422 rate 30000:1001 frames 0 keys 0
link 4294967295 picture 1048560x1 coded 1048560x32 pixels 444 rate 4294967295:4294967294 frames 4294967294 keys 4294967293
seekable yes
seekable no
"
            .as_slice()
    );
}

#[test]
fn lines_of_plans_and_of_frames_stand_behind_what_was_there(rt: HostRuntime) {
    let mut out = Vec::new(rt.alloc());
    assert!(rt; out.extend_from_slice(b"before\n").is_ok());
    assert_eq!(rt; run_line(&mut out, false, 1, 5, 10), Ok(()));
    assert_eq!(rt;
        run_line(&mut out, true, u32::MAX, 4_294_967_294, 4_294_967_293),
        Ok(())
    );
    assert_eq!(rt; total_line(&mut out, 15, 5), Ok(()));
    assert_eq!(rt;
        total_line(&mut out, u64::MAX, 18_446_744_073_709_551_614),
        Ok(())
    );
    assert_eq!(rt; frame_line(&mut out, 0, 1, 5, 6, 789), Ok(()));
    assert_eq!(rt;
        frame_line(
            &mut out,
            u64::MAX,
            u32::MAX,
            4_294_967_294,
            255,
            18_446_744_073_709_551_614
        ),
        Ok(())
    );
    assert_eq!(rt; exported_line(&mut out, 47), Ok(()));
    assert_eq!(rt; imported_line(&mut out, 90), Ok(()));
    assert_eq!(rt; made_line(&mut out, 90, 10_368_583), Ok(()));
    assert_eq!(rt; made_line(&mut out, u32::MAX, u64::MAX), Ok(()));
    assert_eq!(rt;
        out.as_slice(),
        b"before
code 1 5 10
copy 4294967295 4294967294 4294967293
copied 15 coded 5
copied 18446744073709551615 coded 18446744073709551614
coded 0 source 1 frame 5 max 6 sum 789
coded 18446744073709551615 source 4294967295 frame 4294967294 max 255 sum 18446744073709551614
exported 47
imported 90
made 90 bytes 10368583
made 4294967295 bytes 18446744073709551615
"
            .as_slice()
    );
}
