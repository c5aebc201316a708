use crate::*;
use std::alloc::Global;
use std::process::Abort;
use std::test::Fail;
use vid_base::Shape;

/// Macro blocks of a row and of a column, and the format: odd frames in 4:2:0, 4:2:2 and 4:4:4, and the greatest.
const SHAPES: [(u16, u16, u8); 4] = [(1, 1, 0), (3, 1, 2), (1, 5, 3), (512, 256, 3)];

fn store(rt: &impl Abort, alloc: Global, fmbw: u16, fmbh: u16, pf: u8) -> RefStore {
    let shape = Shape::new(fmbw, fmbh, pf).expect(rt, "no shape");
    RefStore::new(alloc, shape).expect(rt, "no memory")
}

fn frame(rt: &impl Abort, alloc: Global, fmbw: u16, fmbh: u16, pf: u8) -> Frame {
    let shape = Shape::new(fmbw, fmbh, pf).expect(rt, "no shape");
    Frame::new(alloc, shape).expect(rt, "no memory")
}

#[test]
fn memory_is_found_for_frames_of_every_size(rt: HostRuntime) -> Result<(), Fail> {
    for (fmbw, fmbh, pf) in SHAPES {
        let frame = frame(&rt, rt.alloc(), fmbw, fmbh, pf);
        assert_eq!(rt;
            frame.y.width(),
            16 * u32::from(fmbw),
            "width of {fmbw} by {fmbh}"
        );
        assert_eq!(rt;
            frame.y.height(),
            16 * u32::from(fmbh),
            "height of {fmbw} by {fmbh}"
        );
        assert!(rt; frame.y.sealed() && frame.cb.sealed() && frame.cr.sealed());
    }
    Ok(())
}

#[test]
fn memory_is_found_for_stores(rt: HostRuntime) -> Result<(), Fail> {
    for (fmbw, fmbh, pf) in [(1, 1, 0), (3, 1, 2), (1, 5, 3), (512, 256, 0)] {
        assert!(rt; !store(&rt, rt.alloc(), fmbw, fmbh, pf).started());
    }
    Ok(())
}

#[test]
fn windows_at_the_outermost_places_show_the_corners(rt: HostRuntime) -> Result<(), Fail> {
    let mut frame = frame(&rt, rt.alloc(), 2, 1, 0);
    for (x, y, v) in [(0, 0, 11), (31, 0, 22), (0, 15, 33), (31, 15, 44)] {
        assert!(rt; x < frame.y.width() && y < frame.y.height());
        frame.y.set(x, y, v);
    }
    assert!(rt; !frame.y.sealed());
    frame.y.seal();
    assert!(rt; frame.y.sealed() && frame.y.width() == 32 && frame.y.height() == 16);
    assert_eq!(rt; frame.y.window(-16, -16).at(0, 0), 11);
    assert_eq!(rt; frame.y.window(40, -16).at(7, 0), 22);
    assert_eq!(rt; frame.y.window(-16, 24).at(0, 7), 33);
    assert_eq!(rt; frame.y.window(40, 24).at(7, 7), 44);
    let row = frame.y.window(27, 20).row(3);
    assert_eq!(rt; row.as_slice(), [0, 0, 0, 0, 44, 44, 44, 44].as_slice());
    let block = frame.y.window(-4, -7).block();
    assert_eq!(rt;
        block[7].as_slice(),
        [11, 11, 11, 11, 11, 0, 0, 0].as_slice()
    );
    Ok(())
}

/// What a store shows: the lowest left samples of the previous and the golden frame.
fn shown(store: &RefStore) -> Option<(u8, u8)> {
    if !store.started() {
        return None;
    }
    let prev = store.prev();
    let golden = store.golden();
    if prev.y.width() == 0 || prev.y.height() == 0 {
        return None;
    }
    if golden.y.width() == 0 || golden.y.height() == 0 {
        return None;
    }
    Some((prev.y.sample(0, 0), golden.y.sample(0, 0)))
}

#[test]
fn frames_become_previous_and_golden_in_turn(rt: HostRuntime) -> Result<(), Fail> {
    let mut store = store(&rt, rt.alloc(), 1, 1, 0);
    let rows = [
        (1, true, (1, 1)),
        (2, false, (2, 1)),
        (3, false, (3, 1)),
        (4, true, (4, 4)),
        (5, true, (5, 5)),
        (6, false, (6, 5)),
        (7, true, (7, 7)),
    ];
    for (sample, intra, want) in rows {
        let painting = store.paint();
        let now = painting.now;
        assert!(rt; 0 < now.y.width() && 0 < now.y.height());
        now.y.set(0, 0, sample);
        assert!(rt; intra || store.started());
        store.commit(intra);
        assert!(rt; shown(&store) == Some(want), "frame {sample}");
    }
    Ok(())
}

#[test]
fn rows_and_blocks_stand_where_they_were_put(rt: HostRuntime) -> Result<(), Fail> {
    let mut frame = frame(&rt, rt.alloc(), 1, 1, 3);
    let y = &mut frame.y;
    assert!(rt; y.width() == 16 && y.height() == 16);
    y.set_block(8, 4, &[[7; 8]; 8]);
    y.put_row8(8, 5, [1, 2, 3, 4, 5, 6, 7, 8]);
    y.put_two(9, 11, [90, 91]);
    assert_eq!(rt;
        y.row8(8, 5).as_slice(),
        [1, 2, 3, 4, 5, 6, 7, 8].as_slice()
    );
    assert_eq!(rt; y.four(8, 11).as_slice(), [7, 90, 91, 7].as_slice());
    assert_eq!(rt;
        y.row8(4, 11).as_slice(),
        [0, 0, 0, 0, 7, 90, 91, 7].as_slice()
    );
    y.set_row(0, &[9; 16]);
    assert_eq!(rt; y.row(0), [9; 16].as_slice());
    assert_eq!(rt; y.sample(15, 0), 9);
    assert_eq!(rt; y.sample(15, 12), 0);
    Ok(())
}
