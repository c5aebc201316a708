// What can be wrong with a page in its place, with their numbers and names (own).
ghost use Rattle.std.specs.Prelude.{◌≡◌};
ghost use Rattle.ogg_link.specs.Faults.{number_of, name_of};

use vid_base::NoMem;

/// The first thing that is wrong with a link.
#[derive(Clone, Copy, Debug, PartialEq, Eq)]
pub enum LinkFault {
    /// The sequence number does not follow that of the track's page before (RFC 3533, 6).
    MissingPage,
    /// The page goes on with a packet where none is unfinished, or does not where one is (RFC 3533, 6).
    BadContinued,
    /// The granule position is not that of the last frame that ends on the page (Theora I, A.2.3).
    BadGranule,
    /// No stream of the link begins with a Theora identification header.
    NoTrack,
    /// The identification header is not alone on the track's one first page, or another packet follows the setup header on
    /// its page (Theora I, A.2).
    HeadersNotAlone,
    /// The track ends within a packet or before its third.
    UnfinishedPacket,
    /// A page of the track follows its last page (RFC 3533, 6).
    DataAfterEnd,
    /// A stream begins behind the first pages of the link: the file is chained (RFC 3533, 4), which this profile refuses.
    Chained,
}

impl LinkFault {
    /// The fault's number, as printed documents list it (own).
    pub fn number(self) -> u8
        ensures { result ≡ number_of self }
    {
        match self {
            LinkFault::MissingPage => 34,
            LinkFault::BadContinued => 35,
            LinkFault::BadGranule => 36,
            LinkFault::NoTrack => 37,
            LinkFault::HeadersNotAlone => 38,
            LinkFault::UnfinishedPacket => 39,
            LinkFault::DataAfterEnd => 40,
            LinkFault::Chained => 41,
        }
    }

    /// The fault's name, as it is printed: that of the variant (own).
    pub fn name(self) -> &'static str
        ensures { result.now ≡ name_of self }
    {
        match self {
            LinkFault::MissingPage => "MissingPage",
            LinkFault::BadContinued => "BadContinued",
            LinkFault::BadGranule => "BadGranule",
            LinkFault::NoTrack => "NoTrack",
            LinkFault::HeadersNotAlone => "HeadersNotAlone",
            LinkFault::UnfinishedPacket => "UnfinishedPacket",
            LinkFault::DataAfterEnd => "DataAfterEnd",
            LinkFault::Chained => "Chained",
        }
    }
}

/// Why a page was refused: its first fault, or want of memory.
#[derive(Clone, Copy, Debug, PartialEq, Eq)]
pub enum LinkRefusal {
    Bad(LinkFault),
    NoMem,
}

impl From<NoMem> for LinkRefusal {
    ghost use Rattle.ogg_link.specs.declared.fault.LinkRefusal.TheVariants.{NoMem as WantsMemory};

    ghost from_gives = { λ _ refusal. refusal ≡ WantsMemory };

    fn from(_: NoMem) -> Self {
        LinkRefusal::NoMem
    }
}
