// Blocks and macro blocks (Theora I, 2.3 and 2.4).

/// A block of a plane: 8 by 8 samples.
#[derive(Clone, Copy, Debug, PartialEq, Eq)]
pub struct Block {
    /// The plane: 0 is Y, 1 is Cb, 2 is Cr.
    pub pli: u8,
    /// How many blocks stand to the left of it.
    pub col: u32,
    /// How many blocks stand below it.
    pub row: u32,
}

/// The coded places of a macro block's blocks, in each plane in raster order from the lower left.
#[derive(Clone, Copy, Debug, PartialEq, Eq)]
pub struct MacroBlock {
    pub luma: [u32; 4],
    pub cb: [u32; 4],
    pub cr: [u32; 4],
    /// How many entries of `cb`, and of `cr`, count: 1, 2 or 4. The others are 0.
    pub chroma_count: u8,
}
