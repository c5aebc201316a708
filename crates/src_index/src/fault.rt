// Why a file gives no source (own).
ghost use Rattle.std.specs.Prelude.{◌≡◌};
ghost use Rattle.src_index.specs.Refusing.{source_fault};
ghost use Rattle.src_index.specs.declared.fault.Refusal.TheVariants.{NoMem, ReadFault};

use ogg_link::LinkFault;
use ogg_page::PageFault;
use std::alloc::{AllocError, AllocFailed};
use vid_base::PacketFault;
use vid_desk::Failed;

/// The first check of a file that fails.
#[derive(Clone, Copy, Debug, PartialEq, Eq)]
pub enum Fault {
    /// A packet of the track of a link, which shows on the page at a byte. Links count from 1, and the packets of a track
    /// from 0.
    InPacket {
        link: u32,
        packet: u32,
        at: u64,
        fault: PacketFault,
    },
    /// The page at a byte.
    InPage {
        at: u64,
        fault: PageFault,
    },
    /// The place of the page at a byte among the others, or at the file's size what is missing there.
    InLink {
        at: u64,
        fault: LinkFault,
    },
}

/// Why a source was not loaded, or could not be read again.
#[derive(Clone, Copy, Debug, PartialEq, Eq)]
pub enum SourceFault {
    /// A packet of the track has a fault. Links count from 1, and the packets of a track from 0.
    Bad {
        link: u32,
        packet: u32,
        fault: PacketFault,
    },
    /// The page that begins at a byte has a fault.
    Page {
        at: u64,
        fault: PageFault,
    },
    /// The page that begins at a byte has a fault in its place, or at the file's size something is missing.
    Link {
        at: u64,
        fault: LinkFault,
    },
    /// The file has so many bytes, which are more than 2^40.
    TooLong {
        bytes: u64,
    },
    /// A read failed.
    ReadFault,
    /// The file is not the one that was loaded.
    Changed,
    /// No memory was found.
    NoMem,
}

/// Why judging stopped before the end.
#[derive(Clone, Copy, Debug, PartialEq, Eq)]
pub(crate) enum Refusal {
    Bad(Fault),
    ReadFault,
    NoMem,
}

impl From<AllocError> for Refusal {
    ghost from_gives = { λ _ refusal. refusal ≡ NoMem };

    fn from(_: AllocError) -> Self {
        Refusal::NoMem
    }
}

impl<T: Drop> From<AllocFailed<T>> for Refusal {
    ghost from_gives = { λ _ refusal. refusal ≡ NoMem };

    fn from(_: AllocFailed<T>) -> Self {
        Refusal::NoMem
    }
}

impl From<Failed> for Refusal {
    ghost from_gives = { λ _ refusal. refusal ≡ ReadFault };

    fn from(_: Failed) -> Self {
        Refusal::ReadFault
    }
}

impl From<Refusal> for SourceFault {
    ghost from_gives = { λ refusal fault. fault ≡ source_fault refusal };

    fn from(refusal: Refusal) -> Self {
        match refusal {
            Refusal::Bad(
                Fault::InPacket {
                    link,
                    packet,
                    fault,
                    ..
                },
            ) => SourceFault::Bad {
                link,
                packet,
                fault,
            },
            Refusal::Bad(Fault::InPage { at, fault }) => SourceFault::Page { at, fault },
            Refusal::Bad(Fault::InLink { at, fault }) => SourceFault::Link { at, fault },
            Refusal::ReadFault => SourceFault::ReadFault,
            Refusal::NoMem => SourceFault::NoMem,
        }
    }
}
