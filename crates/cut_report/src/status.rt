// How a command ends (own).
ghost use Rattle.std.specs.Prelude.{◌≡◌};
ghost use Rattle.cut_report.specs.Lines.{number_of};

use cut_list::Why;
use ogg_link::LinkFault;
use ogg_page::PageFault;
use vid_base::PacketFault;
use y4m_io::Y4mWhy;

/// The first fault of a source, and where it stands. Links count from 1; packets of a link's track from 0, its three
/// headers first; bytes from the source's first.
#[derive(Clone, Copy, Debug, PartialEq, Eq)]
pub enum SourceWhat {
    /// That packet of that link has the fault.
    Packet {
        link: u32,
        packet: u32,
        fault: PacketFault,
    },
    /// The page that begins at that byte has the fault.
    Page {
        at: u64,
        fault: PageFault,
    },
    /// The fault shows at that byte, where a page begins or the source ends.
    Link {
        at: u64,
        fault: LinkFault,
    },
}

/// The end of a command. A status other than `Done` says why its work was not done.
#[derive(Clone, Copy, Debug, PartialEq, Eq)]
pub enum Status {
    /// All of the work was done and every piece was written.
    Done,
    /// The words have no form of the command table.
    Usage,
    /// That input, counted from 1 in the order of the words, is the first that is not there.
    NoFile { input: u32 },
    /// Judging finds that fault in that source, the first bad one; sources count from 1 in the order of the words.
    BadSource { source: u32, what: SourceWhat },
    /// That line of the list, counted from 1, is the first bad one, for that why.
    BadList { line: u32, why: Why },
    /// That line of the list is the first out of range: it names no source, ends past its source's frames, or makes the
    /// frames of the list more than 2^24.
    Range { line: u32 },
    /// The desk failed to read.
    ReadFault,
    /// The desk failed to write.
    WriteFault,
    /// No memory was found.
    NoMem,
    /// The input departs from the grammar of YUV4MPEG2, first there and for that why; `frame` counts the whole frames before
    /// it.
    BadY4m { frame: u32, why: Y4mWhy },
    /// That input, counted from 1 in the order of the words, is the first that has more bytes than its limit; `bytes` is
    /// its size.
    TooLong { input: u32, bytes: u64 },
    /// The word of the output is that of an input.
    SameName,
    /// A source is read again, and is not the one that was judged.
    Changed,
    /// The frame at which the slice begins is no key frame, so it cannot be copied.
    InPointNotKey,
    /// The list or the source has a form that is not yet cut.
    NotYet,
}

impl Status {
    /// The number with which the program ends.
    pub fn number(&self) -> u8
        ensures value { result ≡ number_of self.now }
    {
        match self {
            Status::Done => 0,
            Status::Usage => 2,
            Status::NoFile { .. } => 3,
            Status::BadSource { .. } => 4,
            Status::BadList { .. } => 5,
            Status::Range { .. } => 6,
            Status::ReadFault => 8,
            Status::WriteFault => 9,
            Status::NoMem => 10,
            Status::BadY4m { .. } => 11,
            Status::TooLong { .. } => 14,
            Status::SameName => 15,
            Status::Changed => 16,
            Status::InPointNotKey => 18,
            Status::NotYet => 19,
        }
    }
}
