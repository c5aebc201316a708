// Fields of an identification header, before any rule is looked at (Theora I, 6.2).
ghost use Rattle.std.specs.Prelude.{◌≡◌, ◌+◌, ◌*◌, ◌^◌, ◌<◌, ◌≤◌, length, take, drop};
ghost use Rattle.vid_base.specs.Bits.{bits_of, number};
ghost use Rattle.thr_ident.specs.Fields.{header_from};
ghost use Rattle.thr_ident.specs.Header.{header_in, ident_length, Fits};
ghost use Rattle.thr_ident.specs.Ident.{has_sound_sizes, header_rules};
ghost use Rattle.vid_base.specs.Rules.{first_fault};

use vid_base::{BitReader, MOST_MACRO_BLOCKS, PacketFault};

/// The first bytes of an identification header: its type, and the codec's name (Theora I, 6.1).
pub(crate) const IDENT_NAME: [u8; 7] = [0x80, b't', b'h', b'e', b'o', b'r', b'a'];

/// Bytes of an identification header.
pub(crate) const IDENT_BYTES: usize = 42;

/// Major and minor version of the format.
pub(crate) const VERSION: [u8; 2] = [3, 2];

/// The reserved pixel format.
const RESERVED_FORMAT: u8 = 1;

/// What the fields of an identification header say, under the standard's names.
#[derive(Clone, Copy)]
pub(crate) struct Fields {
    pub(crate) vmaj: u8,
    pub(crate) vmin: u8,
    pub(crate) vrev: u8,
    pub(crate) fmbw: u16,
    pub(crate) fmbh: u16,
    pub(crate) picw: u32,
    pub(crate) pich: u32,
    pub(crate) picx: u8,
    pub(crate) picy: u8,
    pub(crate) frn: u32,
    pub(crate) frd: u32,
    pub(crate) parn: u32,
    pub(crate) pard: u32,
    pub(crate) cs: u8,
    pub(crate) nombr: u32,
    pub(crate) qual: u8,
    pub(crate) shift: u8,
    pub(crate) pf: u8,
    pub(crate) reserved: u8,
}

/// A reader of the bits behind the name.
fn behind_name(bytes: &[u8]) -> BitReader<'_>
    requires { 7 ≤ length bytes.now }
    ensures left { result.left ≡ drop 56 (bits_of bytes.now) }
    ensures count { length result.left + 56 ≡ 8 * length bytes.now }
{
    BitReader::new(&bytes[IDENT_NAME.len()..])
}

/// The number of the next n bits, which are there.
fn field(r: &mut BitReader, n: u32) -> u32
    requires n { n ≤ 32 }
    requires there { n ≤ length r.old.left }
    ensures value { result ≡ number (take n r.old.left) }
    ensures left { r.new.left ≡ drop n r.old.left }
    ensures count { length r.new.left + n ≡ length r.old.left }
    ensures small { result < 2 ^ n }
{
    r.take(n).unwrap()
}

/// The next byte, which is there.
fn byte(r: &mut BitReader) -> u8
    requires { 8 ≤ length r.old.left }
    ensures value { result ≡ number (take 8 r.old.left) }
    ensures left { r.new.left ≡ drop 8 r.old.left }
    ensures count { length r.new.left + 8 ≡ length r.old.left }
{
    field(r, 8) as u8
}

impl Fields {
    /// The fields of a packet that has all of them.
    pub(crate) fn read(bytes: &[u8]) -> Fields
        requires { ident_length ≤ length bytes.now }
        ensures value { header_from result ≡ header_in bytes.now }
        ensures fits { Fits (header_from result) }
    {
        let mut r = behind_name(bytes);
        Fields {
            vmaj: byte(&mut r),
            vmin: byte(&mut r),
            vrev: byte(&mut r),
            fmbw: field(&mut r, 16) as u16,
            fmbh: field(&mut r, 16) as u16,
            picw: field(&mut r, 24),
            pich: field(&mut r, 24),
            picx: byte(&mut r),
            picy: byte(&mut r),
            frn: field(&mut r, 32),
            frd: field(&mut r, 32),
            parn: field(&mut r, 24),
            pard: field(&mut r, 24),
            cs: byte(&mut r),
            nombr: field(&mut r, 24),
            qual: field(&mut r, 6) as u8,
            shift: field(&mut r, 5) as u8,
            pf: field(&mut r, 2) as u8,
            reserved: field(&mut r, 3) as u8,
        }
    }

    /// No size is 0, and the picture lies inside the coded frame.
    fn has_sound_sizes(&self) -> bool
        ensures { result ≡ has_sound_sizes (header_from self.now) }
    {
        let across = u64::from(self.picx) + u64::from(self.picw);
        let upwards = u64::from(self.picy) + u64::from(self.pich);
        self.fmbw > 0
            && self.fmbh > 0
            && self.picw > 0
            && self.pich > 0
            && across <= 16 * u64::from(self.fmbw)
            && upwards <= 16 * u64::from(self.fmbh)
    }

    /// The fault of the first rule that the fields do not keep.
    #[tactic(auto, unfolding(crate::specs::Ident::header_rules, vid_base::specs::Rules::first_fault))]
    pub(crate) fn fault(&self) -> Option<PacketFault>
        ensures { result ≡ first_fault (header_rules (header_from self.now)) }
    {
        if [self.vmaj, self.vmin] != VERSION {
            return Some(PacketFault::Version);
        }
        if !self.has_sound_sizes() {
            return Some(PacketFault::BadSize);
        }
        if u32::from(self.fmbw) * u32::from(self.fmbh) > MOST_MACRO_BLOCKS {
            return Some(PacketFault::TooLarge);
        }
        if self.frn == 0 || self.frd == 0 {
            return Some(PacketFault::BadRate);
        }
        if self.pf == RESERVED_FORMAT {
            return Some(PacketFault::PixelFormat);
        }
        if self.reserved != 0 {
            return Some(PacketFault::Reserved);
        }
        None
    }
}
