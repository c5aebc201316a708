// Which pictures a film is made of (own).

/// A film of generated pictures, in 4:2:0.
#[derive(Clone, Copy, Debug, PartialEq, Eq)]
pub struct Film {
    /// Where the first picture begins: the generator's pattern repeats every 16,384.
    pub start: u32,
    /// How many pictures there are.
    pub frames: u32,
    /// Samples in a row of luma.
    pub w: u32,
    /// Rows of luma.
    pub h: u32,
}
