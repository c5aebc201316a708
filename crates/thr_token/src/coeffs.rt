// The coefficients of a frame (Theora I, 7.7).
ghost use Rattle.std.specs.Prelude.{◌≡◌, [], length, pos, replicate, IfOk, OnErr, OnOk};

use std::alloc::Global;
use vid_base::NoMem;

/// The coefficients of a frame's blocks, one entry for each block in coded order.
#[derive(Drop)]
pub struct Coeffs {
    /// The 64 coefficients of a block in zigzag order.
    pub values: Vec<[i16; 64]>,
    /// The place at which a block's last token stood, or the end-of-block run that ended it.
    pub counts: Vec<u8>,
}

impl Coeffs {
    /// No coefficients; takes no memory.
    pub fn new(alloc: Global) -> Coeffs
        ensures values { result.values.items ≡ [] }
        ensures counts { result.counts.items ≡ [] }
    {
        Coeffs {
            values: Vec::new(alloc),
            counts: Vec::new(alloc),
        }
    }

    /// No coefficients any more.
    pub(crate) fn clear(&mut self)
        ensures values { self.new.values.items ≡ [] }
        ensures counts { self.new.counts.items ≡ [] }
    {
        self.values.clear();
        self.counts.clear();
    }

    /// Zeros for so many blocks, and a list of so many words; no coefficients after `NoMem`.
    pub(crate) fn size(&mut self, blocks: usize) -> Result<Vec<u32>, NoMem>
        ensures values { OnOk result (self.new.values.items ≡ replicate blocks (replicate 64 (pos 0))) }
        ensures counts { OnOk result (length self.new.counts.items ≡ blocks) }
        ensures list { IfOk result (λ list. length list.items ≡ blocks) }
        ensures emptied { OnErr result ((self.new.values.items ≡ []) × (self.new.counts.items ≡ [])) }
    {
        self.clear();
        let mut list = Vec::new(*self.values.allocator());
        list.resize(blocks, 0)?;
        self.values.resize(blocks, [0; 64])?;
        if self.counts.resize(blocks, 0).is_err() {
            self.clear();
            return Err(NoMem);
        }
        Ok(list)
    }
}
