// Tokens, as they are written (Theora I, 7.7.3).

/// One token of a frame.
#[derive(Clone, Copy, Debug, PartialEq, Eq)]
pub struct Token {
    /// The place at which its block stands, 0 to 63.
    pub place: u8,
    /// Whether that is a block of luma.
    pub luma: bool,
    /// The token's number, 0 to 31.
    pub token: u8,
    /// Its further bits as one number, the first the highest.
    pub extra: u32,
}

/// The numbers of the tables by which the tokens of a frame are written, each 0 to 15: those of place 0 and those of the
/// places from 1 on (Theora I, 7.7.3).
#[derive(Clone, Copy, Debug, PartialEq, Eq)]
pub struct Tables {
    /// That of the luma blocks at place 0.
    pub luma_dc: u8,
    /// That of the chroma blocks at place 0.
    pub chroma_dc: u8,
    /// That of the luma blocks at the other places.
    pub luma_ac: u8,
    /// That of the chroma blocks at the other places.
    pub chroma_ac: u8,
}
