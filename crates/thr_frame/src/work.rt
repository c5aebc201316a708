// The lists that a frame is parsed with (own).
ghost use Rattle.std.specs.Prelude.{IfOk};
ghost use Rattle.thr_frame.specs.Work.{IsWorkFor};

use std::alloc::Global;
use vid_base::NoMem;
use vid_geom::Geom;

/// Lists that parsing a frame works in, to be made once for frames of one shape. Their entries mean nothing between calls.
#[derive(Drop)]
pub struct Work {
    /// For run strings: two entries for each superblock, and one for each block.
    pub marks: Vec<bool>,
    /// For what each block is predicted from: one entry for each block.
    pub bytes: Vec<u8>,
    /// For the blocks that wait for tokens: one entry for each block.
    pub waiting: Vec<u32>,
}

impl Work {
    /// The lists for frames of that geometry.
    pub fn new(alloc: Global, geom: &Geom) -> Result<Work, NoMem>
        ensures { IfOk result (IsWorkFor geom.now) }
    {
        let blocks = geom.blocks() as usize;
        let mut marks = Vec::new(alloc);
        marks.resize(2 * geom.superblocks() as usize + blocks, false)?;
        let mut bytes = Vec::new(alloc);
        bytes.resize(blocks, 0)?;
        let mut waiting = Vec::new(alloc);
        waiting.resize(blocks, 0)?;
        Ok(Work {
            marks,
            bytes,
            waiting,
        })
    }
}
