// What can be wrong with a page, with their numbers and names (own).
ghost use Rattle.std.specs.Prelude.{◌≡◌};
ghost use Rattle.ogg_page.specs.Faults.{number_of, name_of};

/// The first thing that is wrong with a page.
#[derive(Clone, Copy, Debug, PartialEq, Eq)]
pub enum PageFault {
    /// The bytes do not begin with `OggS` (RFC 3533, 6).
    NotAPage,
    /// The version is not 0 (RFC 3533, 6).
    PageVersion,
    /// The checksum field is not the page's checksum (RFC 3533, 6).
    Checksum,
    /// The bytes end before the page does.
    Truncated,
}

impl PageFault {
    /// The fault's number, as printed documents list it (own).
    pub fn number(self) -> u8
        ensures { result ≡ number_of self }
    {
        match self {
            PageFault::NotAPage => 30,
            PageFault::PageVersion => 31,
            PageFault::Checksum => 32,
            PageFault::Truncated => 33,
        }
    }

    /// The fault's name, as it is printed: that of the variant (own).
    pub fn name(self) -> &'static str
        ensures { result.now ≡ name_of self }
    {
        match self {
            PageFault::NotAPage => "NotAPage",
            PageFault::PageVersion => "PageVersion",
            PageFault::Checksum => "Checksum",
            PageFault::Truncated => "Truncated",
        }
    }
}
