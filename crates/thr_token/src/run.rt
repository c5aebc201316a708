// End-of-block runs that are being made (own).
ghost use Rattle.std.specs.Prelude.{◌<◌, ◌≤◌};

/// An end-of-block run whose token is still held back, since more blocks may join it.
#[derive(Clone, Copy)]
pub(crate) struct Run {
    /// The place of its first block.
    pub(crate) place: u8,
    /// Whether that is one of luma.
    pub(crate) luma: bool,
    /// How many blocks it ends.
    pub(crate) blocks: u32,
    ghost at: { place < 64 },
    ghost some: { 0 < blocks },
    ghost few: { blocks ≤ 4095 },
}
