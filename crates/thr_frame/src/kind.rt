// Kinds of packets (Theora I, 7.1 and 7.11).

/// Which kind of packet a step was made by.
#[derive(Clone, Copy, Debug, PartialEq, Eq)]
pub enum Kind {
    /// An intra frame, which is a key frame.
    Intra,
    /// An inter frame.
    Inter,
    /// No bytes: the frame before is shown again.
    Repeat,
}
