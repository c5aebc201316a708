// The constants of both transforms (Theora I, 7.9.3.1): 65536 times the cosine of that many sixteenths of a half turn.
pub const C1: u16 = 64_277;

pub const C2: u16 = 60_547;

pub const C3: u16 = 54_491;

pub const C4: u16 = 46_341;

pub const C5: u16 = 36_410;

pub const C6: u16 = 25_080;

pub const C7: u16 = 12_785;
