// The head of a YUV4MPEG2 stream (own).
ghost use Rattle.std.specs.Prelude.{◌≡◌};

use thr_ident::Ident;

/// What the head of a stream says.
#[derive(Clone, Copy, Debug, PartialEq, Eq)]
pub struct Head {
    /// Samples in a row.
    pub w: u32,
    /// Rows.
    pub h: u32,
    /// Frames in `frd` seconds.
    pub frn: u32,
    /// Seconds in which there are `frn` frames.
    pub frd: u32,
    /// The width of a sample, where its height is `pard`; 0 where it is not said.
    pub parn: u32,
    /// The height of a sample, where its width is `parn`; 0 where it is not said.
    pub pard: u32,
    /// The pixel format: 0 is 4:2:0, 2 is 4:2:2, 3 is 4:4:4.
    pub pf: u8,
}

impl Head {
    ghost use Rattle.y4m_io.specs.Generator.{generated_head};
    ghost use Rattle.y4m_io.specs.Heads.{head_of_ident};

    /// The head of the pictures of a Theora stream with this header.
    pub fn of(ident: &Ident) -> Head
        ensures { result ≡ head_of_ident ident.now }
    {
        Head {
            w: ident.picw,
            h: ident.pich,
            frn: ident.frn,
            frd: ident.frd,
            parn: ident.parn,
            pard: ident.pard,
            pf: ident.pf,
        }
    }

    /// The head of the pictures that `make_frame` gives: 25 in a second, square samples, in 4:2:0.
    pub fn generated(w: u32, h: u32) -> Head
        ensures { result ≡ generated_head w h }
    {
        Head {
            w,
            h,
            frn: 25,
            frd: 1,
            parn: 1,
            pard: 1,
            pf: 0,
        }
    }
}
