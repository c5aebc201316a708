// The headers of a track, parsed as they end and kept with their bytes (Theora I, 6).
ghost use Rattle.std.specs.Prelude.{◌≡◌, ◌<◌, ◌^◌, Ok};
ghost use Rattle.std.specs.Coded.{codes};
ghost use Rattle.thr_huff.specs.TreeCode.{forest_code};
ghost use Rattle.thr_ident.specs.Ident.{ident_of, header_of};
ghost use Rattle.thr_setup.specs.Setup.{setup_of, contents};
ghost use Rattle.thr_frame.specs.CodedFrame.{IsSized, frame_of};
ghost use Rattle.thr_frame.specs.Work.{IsWorkFor};
ghost use Rattle.thr_ident.specs.Shape.{shape_of};

use thr_frame::{Coded, Work};
use thr_ident::Ident;
use thr_setup::Setup;
use vid_geom::Geom;

/// An identification header and its packet.
#[derive(Drop)]
pub(crate) struct IdentHeader {
    pub(crate) header: Ident,
    pub(crate) packet: Vec<u8>,
    ghost told: { ident_of packet.items ≡ Ok (header_of header) },
}

/// A setup header and its packet.
#[derive(Drop)]
pub(crate) struct SetupHeader {
    pub(crate) header: Setup,
    pub(crate) packet: Vec<u8>,
    ghost told: { setup_of packet.items ≡ Ok (contents header) } by { Prim.hlevel (codes, forest_code) },
}

/// The headers before the setup header that have ended.
#[derive(Drop)]
pub(crate) enum Heads {
    Nothing,
    First(IdentHeader),
    Second(IdentHeader, Vec<u8>),
}

/// All three headers.
#[derive(Drop)]
pub(crate) struct AllHeaders {
    pub(crate) ident: IdentHeader,
    pub(crate) comment: Vec<u8>,
    pub(crate) setup: SetupHeader,
}

/// All three headers, and the lists in which frames are parsed: they are made once, and hold zeros between frames.
#[derive(Drop)]
pub(crate) struct Whole {
    pub(crate) headers: AllHeaders,
    pub(crate) geom: Geom,
    pub(crate) coded: Coded,
    pub(crate) work: Work,
    ghost shape: { geom ≡ shape_of (header_of headers.ident.header) },
    ghost sized: { IsSized geom (frame_of coded) },
    ghost room: { IsWorkFor geom work },
}

/// The headers that have ended.
#[derive(Drop)]
pub(crate) enum Headers {
    Begun(Heads),
    All(Whole),
}

impl Headers {
    ghost use Rattle.src_index.specs.Said.{shift_of};
    ghost use Rattle.src_index.specs.Headers.{said_of};

    // How many low bits of a granule position count the frames behind a key frame; 0 where it is not said.
    pub(crate) fn shift(&self) -> u8
        ensures value { result ≡ shift_of (said_of self.now) }
        ensures bound { result < 2 ^ 5 }
    {
        match self {
            Headers::Begun(Heads::Nothing) => 0,
            Headers::Begun(Heads::First(ident)) => ident.header.shift,
            Headers::Begun(Heads::Second(ident, _)) => ident.header.shift,
            Headers::All(whole) => whole.headers.ident.header.shift,
        }
    }
}
