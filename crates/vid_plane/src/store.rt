// The frames that a decoder keeps (Theora I, 7.1): one is painted while the previous and the golden one are read.
ghost use Rattle.std.specs.Prelude.{◌≡◌, ◌||◌, IfOk, IsTrue, false, true};
ghost use Rattle.std.specs.Bool.{OnTrue, OnFalse};
ghost use Rattle.std.specs.Borrow.{sem};
ghost use Rattle.vid_base.specs.declared.shape.Shape.{Shape};
ghost use Rattle.vid_plane.specs.Frames.{References, AreOf, blank_frame, sealed_frame};
ghost use Rattle.vid_plane.specs.Kept.{golden_of};
ghost use Rattle.vid_plane.specs.Lending.{EndsPainted, EndsKept};

use crate::frame::Frame;
use std::alloc::Global;
use std::marker::Model;
use std::mem::swap;
use vid_base::{NoMem, Shape};

/// What is lent while a frame is painted. The two frames that are read may be one; the one that is written is neither.
#[derive(Drop)]
pub struct Painting<'a> {
    pub now: &'a mut Frame,
    pub prev: &'a Frame,
    pub golden: &'a Frame,
}

/// Which of the frames that are kept is the golden one.
#[derive(Clone, Copy)]
enum GoldenIs {
    Prev,
    Spare,
}

/// Three frames, by what they are to the frame that is painted next.
#[derive(Drop)]
struct Kept {
    now: Frame,
    prev: Frame,
    spare: Frame,
    golden: GoldenIs,
}

impl Kept {
    fn paint_by_prev(&mut self) -> Painting<'_>
        ensures* writes { sem 𝓛 (EndsKept self.entry result) }
        ensures now { result.now.now ≡ self.old.now }
        ensures prev { result.prev.now ≡ self.old.prev }
        ensures golden { result.golden.now ≡ self.old.prev }
    {
        let both = &self.prev;
        Painting {
            now: &mut self.now,
            prev: both,
            golden: both,
        }
    }

    fn paint_by_spare(&mut self) -> Painting<'_>
        ensures* writes { sem 𝓛 (EndsKept self.entry result) }
        ensures now { result.now.now ≡ self.old.now }
        ensures prev { result.prev.now ≡ self.old.prev }
        ensures golden { result.golden.now ≡ self.old.spare }
    {
        Painting {
            now: &mut self.now,
            prev: &self.prev,
            golden: &self.spare,
        }
    }

    fn paint(&mut self) -> Painting<'_>
        ensures* writes { sem 𝓛 (EndsKept self.entry result) }
        ensures now { result.now.now ≡ self.old.now }
        ensures prev { result.prev.now ≡ self.old.prev }
        ensures golden { result.golden.now ≡ golden_of self.old }
    {
        match self.golden {
            GoldenIs::Prev => self.paint_by_prev(),
            GoldenIs::Spare => self.paint_by_spare(),
        }
    }
}

/// The three frames of a decoder, none of which is copied.
#[derive(Drop)]
pub struct RefStore {
    kept: Kept,
    started: bool,
}

impl Model for RefStore {
    ghost use Rattle.vid_plane.specs.Frames.{References};

    ghost Value = { References };

    ghost use Rattle.vid_plane.specs.Kept.{references_of};

    ghost view = { λ s. references_of s.kept s.started };
}

impl RefStore {
    /// Three frames of that shape, samples 0 and sealed, and no frame yet to be read.
    pub fn new(alloc: Global, shape: Shape) -> Result<RefStore, NoMem>
        ensures value { IfOk result (λ s. s ≡ record { now = blank_frame shape; prev = blank_frame shape; golden = blank_frame shape; spare = blank_frame shape; started = false }) }
        ensures sized { IfOk result (λ s. AreOf shape s) }
    {
        let now = Frame::new(alloc, shape)?;
        let prev = Frame::new(alloc, shape)?;
        let spare = Frame::new(alloc, shape)?;
        Ok(RefStore {
            kept: Kept {
                now,
                prev,
                spare,
                golden: GoldenIs::Prev,
            },
            started: false,
        })
    }

    /// Whether a frame was committed.
    pub fn started(&self) -> bool
        ensures { result ≡ self.now.started }
    {
        self.started
    }

    /// Lends the frame that is painted next, and the two that are read meanwhile. Only the first can be written.
    pub fn paint(&mut self) -> Painting<'_>
        ensures* writes { sem 𝓛 (EndsPainted self.entry result) }
        ensures now { result.now.now ≡ self.old.now }
        ensures prev { result.prev.now ≡ self.old.prev }
        ensures golden { result.golden.now ≡ self.old.golden }
    {
        self.kept.paint()
    }

    /// Seals the painted frame. It becomes the previous frame, and of an intra frame the golden one too.
    pub fn commit(&mut self, intra: bool)
        requires { IsTrue (intra || self.old.started) }
        ensures prev { self.new.prev ≡ sealed_frame self.old.now }
        ensures key { OnTrue intra (self.new.golden ≡ sealed_frame self.old.now) }
        ensures golden { OnFalse intra (self.new.golden ≡ self.old.golden) }
        ensures started { self.new.started ≡ true }
        ensures sized { (shape : Shape) → AreOf shape self.old → AreOf shape self.new }
    {
        self.kept.now.seal();
        if intra {
            self.kept.golden = GoldenIs::Prev;
        } else {
            if let GoldenIs::Prev = self.kept.golden {
                swap(&mut self.kept.prev, &mut self.kept.spare);
            }
            self.kept.golden = GoldenIs::Spare;
        }
        swap(&mut self.kept.now, &mut self.kept.prev);
        self.started = true;
    }

    /// The previous frame.
    pub fn prev(&self) -> &Frame
        requires { self.now.started ≡ true }
        ensures { result.now ≡ self.now.prev }
    {
        &self.kept.prev
    }

    /// The golden frame.
    pub fn golden(&self) -> &Frame
        requires { self.now.started ≡ true }
        ensures { result.now ≡ self.now.golden }
    {
        match self.kept.golden {
            GoldenIs::Prev => &self.kept.prev,
            GoldenIs::Spare => &self.kept.spare,
        }
    }
}
