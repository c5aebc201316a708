use crate::*;
use std::alloc::Global;
use std::process::Abort;
use std::test::Fail;
use vid_base::Shape;

/// Columns and rows of macro blocks.
const SIZES: [(u16, u16); 12] = [
    (1, 1),
    (1, 2),
    (2, 1),
    (2, 2),
    (3, 2),
    (2, 3),
    (5, 1),
    (1, 5),
    (4, 4),
    (7, 3),
    (3, 7),
    (8, 5),
];

/// 4:2:0, 4:2:2 and 4:4:4.
const FORMATS: [u8; 3] = [0, 2, 3];

fn geom(rt: &impl Abort, alloc: Global, fmbw: u16, fmbh: u16, pf: u8) -> Geom {
    let shape = Shape::new(fmbw, fmbh, pf).expect(rt, "no shape");
    Geom::new(alloc, shape).expect(rt, "no memory")
}

#[test]
fn three_by_two_macro_blocks_have_36_blocks_along_a_hilbert_curve(
    rt: HostRuntime,
) -> Result<(), Fail> {
    let geom = geom(&rt, rt.alloc(), 3, 2, 0);
    assert_eq!(rt; geom.shape().fmbw, 3);
    assert_eq!(rt; geom.blocks(), 36);
    assert_eq!(rt; geom.superblocks(), 4);
    assert_eq!(rt; geom.macro_blocks(), 6);
    for (place, pli, col, row) in [
        (0, 0, 0, 0),
        (1, 0, 1, 0),
        (2, 0, 1, 1),
        (3, 0, 0, 1),
        (16, 0, 4, 0),
        (24, 1, 0, 0),
        (28, 1, 2, 1),
        (35, 2, 2, 0),
    ] {
        if place < geom.blocks() {
            assert_eq!(rt; geom.at(place), Block { pli, col, row }, "at {place}");
        }
    }
    for (s, range) in [(0, (0, 16)), (1, (16, 24)), (2, (24, 30)), (3, (30, 36))] {
        if s < geom.superblocks() {
            assert!(rt; geom.superblock(s) == range, "superblock {s}");
        }
    }
    Ok(())
}

#[test]
fn macro_blocks_turn_clockwise_and_name_their_blocks_from_the_lower_left(
    rt: HostRuntime,
) -> Result<(), Fail> {
    let rows = [
        (3, 2, 0, 0, [0, 1, 3, 2], [24, 0, 0, 0], [30, 0, 0, 0], 1),
        (3, 2, 0, 1, [4, 7, 5, 6], [27, 0, 0, 0], [33, 0, 0, 0], 1),
        (3, 2, 0, 2, [8, 11, 9, 10], [26, 0, 0, 0], [32, 0, 0, 0], 1),
        (
            3,
            2,
            0,
            3,
            [14, 15, 13, 12],
            [25, 0, 0, 0],
            [31, 0, 0, 0],
            1,
        ),
        (
            3,
            2,
            0,
            4,
            [16, 17, 19, 18],
            [29, 0, 0, 0],
            [35, 0, 0, 0],
            1,
        ),
        (
            3,
            2,
            0,
            5,
            [20, 23, 21, 22],
            [28, 0, 0, 0],
            [34, 0, 0, 0],
            1,
        ),
        (2, 1, 2, 0, [0, 1, 3, 2], [8, 11, 0, 0], [12, 15, 0, 0], 2),
        (2, 1, 2, 1, [6, 7, 5, 4], [9, 10, 0, 0], [13, 14, 0, 0], 2),
        (1, 1, 3, 0, [0, 1, 3, 2], [4, 5, 7, 6], [8, 9, 11, 10], 4),
    ];
    for (fmbw, fmbh, pf, m, luma, cb, cr, chroma_count) in rows {
        let geom = geom(&rt, rt.alloc(), fmbw, fmbh, pf);
        if m < geom.macro_blocks() {
            let want = MacroBlock {
                luma,
                cb,
                cr,
                chroma_count,
            };
            assert_eq!(rt; geom.macro_block(m), want, "macro block {m} of format {pf}");
        }
    }
    Ok(())
}

// Of the last superblock, what the frame has is walked through in the order of the curve.
#[test]
fn the_largest_frames_end_with_the_last_block_of_their_last_superblock(
    rt: HostRuntime,
) -> Result<(), Fail> {
    let rows = [
        (512, 256, 1_572_864, 1023, 508),
        (256, 512, 1_572_864, 511, 1020),
        (65535, 2, 1_572_840, 131_069, 2),
        (2, 65535, 1_572_840, 3, 131_068),
    ];
    for (fmbw, fmbh, blocks, col, row) in rows {
        let geom = geom(&rt, rt.alloc(), fmbw, fmbh, 3);
        assert_eq!(rt; geom.blocks(), blocks);
        if 0 < geom.blocks() {
            let last = geom.at(geom.blocks() - 1);
            assert_eq!(rt; last, Block { pli: 2, col, row }, "{fmbw} by {fmbh}");
        }
    }
    Ok(())
}

#[test]
fn each_place_leads_to_its_block_and_back(rt: HostRuntime) -> Result<(), Fail> {
    for (fmbw, fmbh) in SIZES {
        for pf in FORMATS {
            let geom = geom(&rt, rt.alloc(), fmbw, fmbh, pf);
            for place in 0..geom.blocks() {
                let block = geom.at(place);
                assert_eq!(rt; geom.place(block), place);
            }
        }
    }
    Ok(())
}

fn count(counts: &mut [u8], places: &[u32], n: u8) {
    for (k, place) in places.iter().enumerate() {
        if k < usize::from(n) {
            if let Some(c) = counts.get_mut(*place as usize) {
                *c = c.saturating_add(1);
            }
        }
    }
}

#[test]
fn each_place_is_named_by_one_macro_block(rt: HostRuntime) -> Result<(), Fail> {
    for (fmbw, fmbh) in SIZES {
        for pf in FORMATS {
            let geom = geom(&rt, rt.alloc(), fmbw, fmbh, pf);
            let mut counts = vec![in rt.alloc(); 0u8; geom.blocks() as usize]?;
            for m in 0..geom.macro_blocks() {
                let named = geom.macro_block(m);
                count(&mut counts, &named.luma, 4);
                count(&mut counts, &named.cb, named.chroma_count);
                count(&mut counts, &named.cr, named.chroma_count);
            }
            assert!(rt;
                counts.iter().all(|c| *c == 1),
                "{fmbw} by {fmbh}, format {pf}"
            );
        }
    }
    Ok(())
}

// The frame that the specification numbers as its example: 240 by 48 samples (Theora I, 2.3 and 2.4). Coded places by row
// from the bottom: at the first four columns, at one in the middle, and at the last two.
const CODED: [[u32; 6]; 6] = [
    [0, 1, 14, 15, 112, 113],
    [3, 2, 13, 12, 115, 114],
    [4, 7, 8, 11, 116, 119],
    [5, 6, 9, 10, 117, 118],
    [120, 121, 126, 127, 176, 177],
    [123, 122, 125, 124, 179, 178],
];

// Its macro blocks in the same way, at the columns 0 to 3 and 12 to 14.
const MACRO: [[u32; 7]; 3] = [
    [0, 3, 4, 7, 24, 27, 28],
    [1, 2, 5, 6, 25, 26, 29],
    [30, 31, 32, 33, 42, 43, 44],
];

#[test]
fn the_example_of_the_specification_has_its_coded_places(rt: HostRuntime) -> Result<(), Fail> {
    let geom = geom(&rt, rt.alloc(), 15, 3, 0);
    for (places, row) in CODED.iter().zip([0u32, 1, 2, 3, 4, 5]) {
        for (place, col) in places.iter().zip([0u32, 1, 2, 3, 28, 29]) {
            assert!(rt; *place < geom.blocks());
            let want = Block { pli: 0, col, row };
            assert_eq!(rt; geom.at(*place), want, "at {place}");
        }
    }
    for (numbers, row) in MACRO.iter().zip([0u32, 2, 4]) {
        for (m, col) in numbers.iter().zip([0u32, 2, 4, 6, 24, 26, 28]) {
            assert!(rt; *m < geom.macro_blocks());
            let place = geom.luma_places(*m)[0];
            assert!(rt; place < geom.blocks());
            let want = Block { pli: 0, col, row };
            assert_eq!(rt; geom.at(place), want, "macro block {m}");
        }
    }
    Ok(())
}
