// The identification header (Theora I, 6.2).
ghost use Rattle.std.specs.Prelude.{◌≡◌, ◌≢◌, ◌+◌, ◌*◌, ◌^◌, ◌<◌, ◌≤◌};

use crate::header::Fields;
use vid_base::Shape;

/// What an identification header says, under the standard's names. It keeps the rules of the standard, its sizes are
/// above 0, and it has at most 131,072 macro blocks.
#[derive(Clone, Copy, Debug, PartialEq, Eq)]
pub struct Ident {
    /// The revision of the format's version 3.2.
    pub vrev: u8,
    /// Macro blocks in a row of the coded frame.
    pub fmbw: u16,
    /// Rows of macro blocks of the coded frame.
    pub fmbh: u16,
    /// Samples in a row of the picture.
    pub picw: u32,
    /// Rows of samples of the picture.
    pub pich: u32,
    /// Samples between the left edges of the coded frame and the picture.
    pub picx: u8,
    /// Rows between the bottom edges of the coded frame and the picture.
    pub picy: u8,
    /// Frames in `frd` seconds.
    pub frn: u32,
    /// Seconds in which there are `frn` frames.
    pub frd: u32,
    /// The width of a sample, where its height is `pard`; 0 where it is not said.
    pub parn: u32,
    /// The height of a sample, where its width is `parn`; 0 where it is not said.
    pub pard: u32,
    /// The number of the colour space.
    pub cs: u8,
    /// Bits in a second, as they were meant; 0 where it is not said.
    pub nombr: u32,
    /// A hint at the quality, 0 to 63.
    pub qual: u8,
    /// How many low bits of a granule position count the frames behind a key frame (KFGSHIFT).
    pub shift: u8,
    /// The pixel format: 0 is 4:2:0, 2 is 4:2:2, 3 is 4:4:4.
    pub pf: u8,
    ghost coded: { (0 < fmbw) × (0 < fmbh) },
    ghost small: { fmbw * fmbh ≤ 131072 },
    ghost picture: { (0 < picw) × (0 < pich) },
    ghost across: { picx + picw ≤ 16 * fmbw },
    ghost upwards: { picy + pich ≤ 16 * fmbh },
    ghost rate: { (0 < frn) × (0 < frd) },
    ghost format: { (pf ≤ 3) × (pf ≢ 1) },
    // Each field fits its bits.
    ghost byte: { (vrev < 2 ^ 8) × (picx < 2 ^ 8) × (picy < 2 ^ 8) × (cs < 2 ^ 8) },
    ghost two_bytes: { (fmbw < 2 ^ 16) × (fmbh < 2 ^ 16) },
    ghost three_bytes: { (parn < 2 ^ 24) × (pard < 2 ^ 24) × (nombr < 2 ^ 24) },
    ghost four_bytes: { (frn < 2 ^ 32) × (frd < 2 ^ 32) },
    ghost bits: { (qual < 2 ^ 6) × (shift < 2 ^ 5) },
}

impl Ident {
    ghost use Rattle.thr_ident.specs.Fields.{header_from};
    ghost use Rattle.thr_ident.specs.Header.{Fits};
    ghost use Rattle.thr_ident.specs.Ident.{header_of, header_rules};
    ghost use Rattle.thr_ident.specs.Shape.{shape_of};
    ghost use Rattle.vid_base.specs.Rules.{first_fault};

    /// The coded frame's size and its pixel format.
    pub fn shape(&self) -> Shape
        ensures wide { result.fmbw ≡ self.now.fmbw }
        ensures high { result.fmbh ≡ self.now.fmbh }
        ensures format { result.pf ≡ self.now.pf }
        ensures shape { result ≡ shape_of (header_of self.now) }
    {
        Shape {
            fmbw: self.fmbw,
            fmbh: self.fmbh,
            pf: self.pf,
        }
    }

    /// What a header says that keeps all rules.
    pub(crate) fn of(fields: &Fields) -> Ident
        requires fits { Fits (header_from fields.now) }
        requires faultless { first_fault (header_rules (header_from fields.now)) ≡ None }
        ensures { header_of result ≡ header_from fields.now }
    {
        Ident {
            vrev: fields.vrev,
            fmbw: fields.fmbw,
            fmbh: fields.fmbh,
            picw: fields.picw,
            pich: fields.pich,
            picx: fields.picx,
            picy: fields.picy,
            frn: fields.frn,
            frd: fields.frd,
            parn: fields.parn,
            pard: fields.pard,
            cs: fields.cs,
            nombr: fields.nombr,
            qual: fields.qual,
            shift: fields.shift,
            pf: fields.pf,
        }
    }
}
