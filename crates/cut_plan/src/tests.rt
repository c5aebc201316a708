ghost use Rattle.std.specs.Prelude.{◌≡◌, IfOk, length};
ghost use Rattle.vid_plane.specs.Frames.{IsFrameOf, sealed_frame};

use crate::*;
use cut_list::read_list;
use std::alloc::{AllocError, Global};
use std::test::Fail;
use vid_base::Shape;
use vid_desk::{Desk, MemDesk};
use vid_plane::Frame;

/// A run as numbers: 1 where it is coded, and its source, first frame and end.
type Row = [u32; 4];

/// Lists over two sources of 30 frames with the key frames 0, 10 and 20, and their runs.
const PLANS: [(&str, &[Row]); 8] = [
    ("oggcut 1\nslice 1 5 25\n", &[[1, 1, 5, 10], [0, 1, 10, 25]]),
    ("oggcut 1\nslice 1 10 30", &[[0, 1, 10, 30]]),
    ("oggcut 1\nslice 1 12 15\n", &[[1, 1, 12, 15]]),
    ("oggcut 1\nslice 1 0 5\nslice 1 5 10\n", &[[0, 1, 0, 10]]),
    (
        "oggcut 1\nslice 1 5 8\nslice 1 8 12\n",
        &[[1, 1, 5, 10], [0, 1, 10, 12]],
    ),
    (
        "oggcut 1\nslice 1 0 1\nslice 1 0 1\n",
        &[[0, 1, 0, 1], [0, 1, 0, 1]],
    ),
    (
        "oggcut 1\nslice 1 0 5\nslice 2 5 6\n",
        &[[0, 1, 0, 5], [1, 2, 5, 6]],
    ),
    (
        "oggcut 1\nslice 1 20 22\nslice 1 21 23\n",
        &[[0, 1, 20, 22], [1, 1, 21, 23]],
    ),
];

/// Lists that are out of range over such sources, and the line.
const OUTSIDE: [(&str, u32); 4] = [
    ("oggcut 1\nslice 1 0 31\n", 2),
    ("oggcut 1\nslice 0 0 1\n", 2),
    ("oggcut 1\n#\nslice 1 0 1\nslice 3 0 1\nslice 1 0 31\n", 4),
    ("oggcut 1\nslice 2 29 30\nslice 2 30 31", 3),
];

fn row(run: &Run) -> Row {
    match *run {
        Run::Copy { src, first, past } => [0, src, first, past],
        Run::Code { src, first, past } => [1, src, first, past],
    }
}

// Which of 30 frames are key frames.
fn thirty(alloc: Global) -> Result<Vec<bool>, AllocError>
    ensures { IfOk result (λ keys. length keys.items ≡ 30) }
{
    let mut keys = vec![in alloc; false; 30]?;
    keys[0] = true;
    keys[10] = true;
    keys[20] = true;
    Ok(keys)
}

#[test]
fn lists_have_their_runs(rt: HostRuntime) -> Result<(), Fail> {
    let keys = [thirty(rt.alloc())?, thirty(rt.alloc())?];
    for (text, rows) in PLANS {
        let list = read_list(rt.alloc(), text.as_bytes())?;
        let runs = plan(rt.alloc(), &list, &[30, 30], &keys)?;
        assert_eq!(rt; runs.len(), rows.len(), "{text}");
        for (run, want) in runs.iter().zip(rows) {
            assert_eq!(rt; row(run), *want, "{text}");
        }
    }
    Ok(())
}

#[test]
fn lines_out_of_range_are_named(rt: HostRuntime) -> Result<(), Fail> {
    let keys = [thirty(rt.alloc())?, thirty(rt.alloc())?];
    for (text, line) in OUTSIDE {
        let list = read_list(rt.alloc(), text.as_bytes())?;
        let got = plan(rt.alloc(), &list, &[30, 30], &keys);
        assert_eq!(rt; got.err(), Some(PlanFault::Range { line }), "{text}");
    }
    Ok(())
}

// Half of the frames that a list may have, three times.
#[test]
fn a_list_of_2_to_the_24_frames_is_planned_and_one_more_is_not(
    rt: HostRuntime,
) -> Result<(), Fail> {
    let keys = [vec![in rt.alloc(); true; 8_388_608]?];
    let list = read_list(
        rt.alloc(),
        b"oggcut 1\nslice 1 0 8388608\nslice 1 0 8388608\n",
    )?;
    let runs = plan(rt.alloc(), &list, &[8_388_608], &keys)?;
    assert_eq!(rt; runs.len(), 2);
    let list = read_list(
        rt.alloc(),
        b"oggcut 1\nslice 1 0 8388608\nslice 1 0 8388608\n\nslice 1 7 8\n",
    )?;
    let got = plan(rt.alloc(), &list, &[8_388_608], &keys);
    assert_eq!(rt; got.err(), Some(PlanFault::Range { line: 5 }));
    Ok(())
}

// One picture for each frame.
#[derive(Drop)]
struct Still {
    shape: Shape,
    picture: Frame,
    ghost sized: { IsFrameOf shape picture },
    ghost sealed: { sealed_frame picture ≡ picture },
}

impl<D: Desk> Targets<D> for Still {
    ghost use Rattle.std.specs.Prelude.{true};
    ghost use Rattle.cut_plan.specs.Targets.{TargetMeaning};

    ghost shows = { λ still. record {
      above = 0;
      covers = λ src n. true;
      shape = λ src n. still.shape;
      picture = λ files src n. still.picture;
      made = λ files. true;
    } };

    fn target(
        &mut self,
        _desk: &mut D,
        _src: u32,
        _n: u32,
        into: &mut Frame,
    ) -> Result<(), TargetFault> {
        into.copy_from(&self.picture);
        Ok(())
    }
}

#[test]
fn a_still_picture_is_a_target(rt: HostRuntime) -> Result<(), Fail> {
    let Some(shape) = Shape::new(2, 1, 0) else {
        panic!(&rt; "there is no shape")
    };
    let mut still = Still {
        shape,
        picture: Frame::new(rt.alloc(), shape)?,
    };
    let mut into = Frame::new(rt.alloc(), shape)?;
    let mut desk = MemDesk::new(rt.alloc());
    assert_eq!(rt; still.target(&mut desk, 1, 0, &mut into), Ok(()));
    Ok(())
}
