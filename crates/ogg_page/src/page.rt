// The fields of a page (RFC 3533, 6).
ghost use Rattle.std.specs.Prelude.{◌≡◌};

/// A page that lies in memory. `lacing` has the length of each segment of the body, and `granule` is all ones where no
/// packet ends on the page.
#[derive(Clone, Copy, Debug)]
pub struct PageRef<'a> {
    pub flags: u8,
    pub granule: u64,
    pub serial: u32,
    pub number: u32,
    pub lacing: &'a [u8],
    pub body: &'a [u8],
}

impl<'a> PageRef<'a> {
    ghost use Rattle.ogg_page.specs.Page.{bytes_of_page, HasShape, view};

    /// How many bytes the whole page takes.
    pub fn size(&self) -> usize
        requires { HasShape self.now.lacing.now self.now.body.now }
        ensures { result ≡ bytes_of_page (view self.now) }
    {
        HEADER + self.lacing.len() + self.body.len()
    }
}

/// What stands at the head of a page that is to be written: flags (1 continued packet, 2 first page, 4 last page),
/// granule position, serial number of the stream and sequence number of the page.
#[derive(Clone, Copy, Debug, PartialEq, Eq)]
pub struct PageHead {
    pub flags: u8,
    pub granule: u64,
    pub serial: u32,
    pub number: u32,
}

/// The bytes of a page before its lacing bytes.
pub(crate) const HEADER: usize = 27;

/// With these bytes a page begins.
pub(crate) const CAPTURE: [u8; 4] = *b"OggS";
