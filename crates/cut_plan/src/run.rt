// The runs of a plan (own).

/// Frames `first` to `past` - 1 of a source, which are written in one way. Sources count from 1.
#[derive(Clone, Copy, Debug, PartialEq, Eq)]
pub enum Run {
    /// The packets of these frames are copied.
    Copy { src: u32, first: u32, past: u32 },
    /// These frames are coded again, the first as a key frame.
    Code { src: u32, first: u32, past: u32 },
}
