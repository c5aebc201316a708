// The code of a token (Theora I, 6.4.4).
ghost use Rattle.std.specs.Prelude.{◌≤◌, ◌<◌, ◌^◌};

/// A code: its bits as a number, the first the highest, and how many they are.
#[derive(Clone, Copy, Debug, PartialEq, Eq)]
pub struct Code {
    pub bits: u32,
    pub len: u8,
    ghost short: { len ≤ 32 },
    ghost small: { bits < 2 ^ len },
}
