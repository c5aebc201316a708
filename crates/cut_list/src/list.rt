// The slices of an edit list (own).
ghost use Rattle.std.specs.Prelude.{◌<◌};

/// The frames `first` to `past` - 1 of a source: at least one.
#[derive(Clone, Copy, Debug, PartialEq, Eq)]
pub struct Slice {
    /// The line of the list that says it. Lines count from 1.
    pub line: u32,
    /// The source. Sources count from 1.
    pub src: u32,
    pub first: u32,
    pub past: u32,
    ghost ordered: { first < past },
}

/// The slices of an edit list, in the order of its lines.
#[derive(Debug, Drop, PartialEq, Eq)]
pub struct List {
    pub slices: Vec<Slice>,
}
