// What can be wrong with a packet, with their numbers and names (own).
ghost use Rattle.std.specs.Prelude.{◌≡◌};
ghost use Rattle.vid_base.specs.Faults.{number_of, name_of};
ghost use Rattle.vid_base.specs.declared.fault.PacketFault.TheVariants.{Ended as EndedFault};
ghost use Rattle.vid_base.specs.declared.fault.Refusal.TheVariants.{Bad, NoMem as NoMemory};

use std::alloc::{AllocError, AllocFailed};

/// No memory was found.
#[derive(Clone, Copy, Debug, PartialEq, Eq)]
pub struct NoMem;

/// Fewer bits are left than were asked for.
#[derive(Clone, Copy, Debug, PartialEq, Eq)]
pub struct Ended;

/// The first thing that is wrong with a packet.
#[derive(Clone, Copy, Debug, PartialEq, Eq)]
pub enum PacketFault {
    /// The packet's bits end first.
    Ended,
    /// The first bit of a frame packet is 1 (Theora I, 7.1).
    NotData,
    /// Reserved bits are not 0 (Theora I, 6.2 and 7.1).
    Reserved,
    /// A run of equal bits is longer than the bits that were wanted (Theora I, 7.2).
    RunTooLong,
    /// The eight ranks of mode scheme 0 are no permutation (Theora I, 7.4).
    BadAlphabet,
    /// A coefficient would stand past the last place of its block (Theora I, 7.7).
    TokenPastEnd,
    /// The first frame is not an intra frame.
    FirstNotKey,
    /// A frame stands further from its key frame than a granule position can say (Theora I, A.2.3).
    KeyTooFar,
    /// The packet is no identification header (Theora I, 6.1).
    NotIdent,
    /// The version is not 3.2 (Theora I, 6.2).
    Version,
    /// A size is 0, or the picture is not inside the coded frame (Theora I, 6.2).
    BadSize,
    /// A part of the frame rate is 0 (Theora I, 6.2).
    BadRate,
    /// The pixel format is the reserved one (Theora I, 6.2).
    PixelFormat,
    /// The packet is no comment header (Theora I, 6.1).
    NotComment,
    /// A length passes the comment header's end (Theora I, 6.3).
    CommentLength,
    /// The packet is no setup header (Theora I, 6.1).
    NotSetup,
    /// There are more than 384 base matrices (Theora I, 6.4.2).
    Matrices,
    /// An index names no base matrix (Theora I, 6.4.2).
    MatrixIndex,
    /// The sizes of the ranges of quantiser indices pass 63 (Theora I, 6.4.2).
    Ramp,
    /// A code is longer than 32 bits (Theora I, 6.4.4).
    TreeDeep,
    /// A tree has more than 32 leaves (Theora I, 6.4.4).
    TreeLeaves,
    /// The packet, the frame or the file passes a limit (own).
    TooLarge,
}

impl PacketFault {
    /// The fault's number, as printed documents list it (own).
    pub fn number(self) -> u8
        ensures { result ≡ number_of self }
    {
        match self {
            PacketFault::Ended => 1,
            PacketFault::NotData => 2,
            PacketFault::Reserved => 3,
            PacketFault::RunTooLong => 4,
            PacketFault::BadAlphabet => 5,
            PacketFault::TokenPastEnd => 6,
            PacketFault::FirstNotKey => 7,
            PacketFault::KeyTooFar => 8,
            PacketFault::NotIdent => 10,
            PacketFault::Version => 11,
            PacketFault::BadSize => 12,
            PacketFault::BadRate => 13,
            PacketFault::PixelFormat => 14,
            PacketFault::NotComment => 16,
            PacketFault::CommentLength => 17,
            PacketFault::NotSetup => 18,
            PacketFault::Matrices => 19,
            PacketFault::MatrixIndex => 20,
            PacketFault::Ramp => 21,
            PacketFault::TreeDeep => 22,
            PacketFault::TreeLeaves => 23,
            PacketFault::TooLarge => 24,
        }
    }

    /// The fault's name, as it is printed: that of the variant (own).
    pub fn name(self) -> &'static str
        ensures { result.now ≡ name_of self }
    {
        match self {
            PacketFault::Ended => "Ended",
            PacketFault::NotData => "NotData",
            PacketFault::Reserved => "Reserved",
            PacketFault::RunTooLong => "RunTooLong",
            PacketFault::BadAlphabet => "BadAlphabet",
            PacketFault::TokenPastEnd => "TokenPastEnd",
            PacketFault::FirstNotKey => "FirstNotKey",
            PacketFault::KeyTooFar => "KeyTooFar",
            PacketFault::NotIdent => "NotIdent",
            PacketFault::Version => "Version",
            PacketFault::BadSize => "BadSize",
            PacketFault::BadRate => "BadRate",
            PacketFault::PixelFormat => "PixelFormat",
            PacketFault::NotComment => "NotComment",
            PacketFault::CommentLength => "CommentLength",
            PacketFault::NotSetup => "NotSetup",
            PacketFault::Matrices => "Matrices",
            PacketFault::MatrixIndex => "MatrixIndex",
            PacketFault::Ramp => "Ramp",
            PacketFault::TreeDeep => "TreeDeep",
            PacketFault::TreeLeaves => "TreeLeaves",
            PacketFault::TooLarge => "TooLarge",
        }
    }
}

/// Why a packet was not read: its first fault, or want of memory.
#[derive(Clone, Copy, Debug, PartialEq, Eq)]
pub enum Refusal {
    Bad(PacketFault),
    NoMem,
}

impl From<Ended> for PacketFault {
    ghost from_gives = { λ _ fault. fault ≡ EndedFault };

    fn from(_: Ended) -> Self {
        PacketFault::Ended
    }
}

impl From<Ended> for Refusal {
    ghost from_gives = { λ _ refusal. refusal ≡ Bad EndedFault };

    fn from(_: Ended) -> Self {
        Refusal::Bad(PacketFault::Ended)
    }
}

impl From<PacketFault> for Refusal {
    ghost from_gives = { λ fault refusal. refusal ≡ Bad fault };

    fn from(fault: PacketFault) -> Self {
        Refusal::Bad(fault)
    }
}

impl From<NoMem> for Refusal {
    ghost from_gives = { λ _ refusal. refusal ≡ NoMemory };

    fn from(_: NoMem) -> Self {
        Refusal::NoMem
    }
}

impl From<AllocError> for Refusal {
    ghost from_gives = { λ _ refusal. refusal ≡ NoMemory };

    fn from(_: AllocError) -> Self {
        Refusal::NoMem
    }
}

impl<T: Drop> From<AllocFailed<T>> for Refusal {
    ghost from_gives = { λ _ refusal. refusal ≡ NoMemory };

    fn from(_: AllocFailed<T>) -> Self {
        Refusal::NoMem
    }
}

impl From<AllocError> for NoMem {
    fn from(_: AllocError) -> Self {
        NoMem
    }
}

impl<T: Drop> From<AllocFailed<T>> for NoMem {
    fn from(_: AllocFailed<T>) -> Self {
        NoMem
    }
}
