// What is known before a page.

/// How far the packets of the track have come.
#[derive(Clone, Copy, Debug, PartialEq, Eq)]
pub struct Progress {
    /// Packets that have ended, headers with them. The count stays at 2^64 - 1 once it is there.
    pub packets: u64,
    /// A packet has begun and not ended.
    pub unfinished: bool,
    /// The unfinished packet begins as a key frame does.
    pub key: bool,
    /// The last key frame that has ended. Frames count from 0.
    pub last_key: Option<u64>,
}

/// What the end of a packet tells.
#[derive(Clone, Copy, Debug, PartialEq, Eq)]
pub struct Counted {
    /// The packet's number. Packets count from 0, headers with them.
    pub number: u64,
    /// It begins as a key frame does.
    pub key: bool,
    /// The last key frame at or before the frame that it carries. Frames count from 0, behind three headers.
    pub last_key: Option<u64>,
}

/// What is known of a link before a page.
#[derive(Clone, Copy, Debug, PartialEq, Eq)]
pub struct State {
    /// A page was given.
    pub begun: bool,
    /// A page was given that is not the first of a stream. All first pages stand before it.
    pub past_first_pages: bool,
    /// The track's serial number, where a page of it was given.
    pub track: Option<u32>,
    /// The track's page before was its last.
    pub closed: bool,
    /// The sequence number of the track's page before.
    pub number: u32,
    /// The track's packets so far.
    pub progress: Progress,
    /// The page just given is of the track, and a frame ends on it.
    pub settles: bool,
    /// The granule position of the track's page before.
    pub granule: u64,
    /// What the first frame counts in granule positions, where a page has told it.
    pub base: Option<u64>,
}
