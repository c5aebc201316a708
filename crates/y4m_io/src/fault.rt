// What can be wrong with a YUV4MPEG2 stream (own).
ghost use Rattle.std.specs.Prelude.{◌≡◌};
ghost use Rattle.y4m_io.specs.Faults.{name_of};
ghost use Rattle.y4m_io.specs.declared.fault.Y4mFault.TheVariants.{NoMem as NoMemory, ReadFault as ReadFailed};

use std::alloc::{AllocError, AllocFailed};
use vid_desk::Failed;

/// Why a stream is no YUV4MPEG2 that is read here.
#[derive(Clone, Copy, Debug, PartialEq, Eq)]
pub enum Y4mWhy {
    /// The head does not begin with `YUV4MPEG2`, or goes on with neither a space nor a line feed.
    Magic,
    /// A field of the head is empty, of an unknown letter, or repeated.
    Field,
    /// A width or a height that is no number above 0, a missing one, or a coded frame of too many macro blocks.
    Size,
    /// A rate that is no `n:d` of numbers from 1 to 4,294,967,295, or none.
    Rate,
    /// An aspect that is no `n:d` of numbers to 16,777,215.
    Aspect,
    /// A format that is not read here.
    Colour,
    /// Neither progressive nor unknown.
    Interlace,
    /// A head of more than 1,024 bytes or without an end, or a frame's line of more than 256.
    Line,
    /// A frame's line does not begin with `FRAME` and a space or a line feed.
    Frame,
    /// The input ends in a frame.
    Short,
    /// There is no frame.
    Empty,
    /// Something stands behind frame 2^24.
    TooMany,
}

impl Y4mWhy {
    /// Its name, as it is printed: that of the variant.
    pub fn name(self) -> &'static str
        ensures { result.now ≡ name_of self }
    {
        match self {
            Y4mWhy::Magic => "Magic",
            Y4mWhy::Field => "Field",
            Y4mWhy::Size => "Size",
            Y4mWhy::Rate => "Rate",
            Y4mWhy::Aspect => "Aspect",
            Y4mWhy::Colour => "Colour",
            Y4mWhy::Interlace => "Interlace",
            Y4mWhy::Line => "Line",
            Y4mWhy::Frame => "Frame",
            Y4mWhy::Short => "Short",
            Y4mWhy::Empty => "Empty",
            Y4mWhy::TooMany => "TooMany",
        }
    }
}

/// Why a stream was not read: its first departure, with the number of whole frames before it; a read that failed; or want of
/// memory.
#[derive(Clone, Copy, Debug, PartialEq, Eq)]
pub enum Y4mFault {
    Bad { frame: u32, why: Y4mWhy },
    ReadFault,
    NoMem,
}

impl From<Failed> for Y4mFault {
    ghost from_gives = { λ _ fault. fault ≡ ReadFailed };

    fn from(_: Failed) -> Self {
        Y4mFault::ReadFault
    }
}

impl From<AllocError> for Y4mFault {
    ghost from_gives = { λ _ fault. fault ≡ NoMemory };

    fn from(_: AllocError) -> Self {
        Y4mFault::NoMem
    }
}

impl<T: Drop> From<AllocFailed<T>> for Y4mFault {
    ghost from_gives = { λ _ fault. fault ≡ NoMemory };

    fn from(_: AllocFailed<T>) -> Self {
        Y4mFault::NoMem
    }
}
