// The headers of a stream that is made from pictures (own).
ghost use Rattle.std.specs.Prelude.{◌≡◌, ◌+◌, ◌/◌, ◌<◌, ◌≤◌, List, ℕ, IfOk, false};
ghost use Rattle.ogg_mux.specs.Muxing.{least_body, rest_of};
ghost use Rattle.ogg_mux.specs.OutputPages.{paged};
ghost use Rattle.thr_ident.specs.Comment.{own_comment};
ghost use Rattle.thr_ident.specs.Header.{header_bytes};
ghost use Rattle.thr_ident.specs.Ident.{header_of};
ghost use Rattle.thr_setup.specs.Setup.{contents, packet_of};
ghost use Rattle.y4m_io.specs.HeadLine.{IsHead};
ghost use Rattle.cut_import.specs.Imported.{import_header};

use ogg_mux::Mux;
use std::alloc::Global;
use thr_ident::{Ident, own_comment, write_ident};
use thr_setup::{Setup, write_setup};
use vid_base::NoMem;
use y4m_io::Head;

/// The serial number of the stream.
const SERIAL: u32 = 1;

/// How many low bits of a granule position count the frames behind a key frame (KFGSHIFT).
const SHIFT: u8 = 6;

/// What the first frame counts in a granule position, as it is from revision 1 on (Theora I, A.2.3).
const BASE: u64 = 1;

// Macro blocks that hold so many samples.
fn macro_blocks(samples: u32) -> u16
    requires { (samples + 15) / 16 ≤ 65535 }
    ensures { result ≡ (samples + 15) / 16 }
{
    ((samples + 15) / 16) as u16
}

/// The identification header for the pictures of a head: the least coded frame that holds them, with the picture at its lower
/// left.
pub(crate) fn ident_of(head: Head, qi: u8) -> Ident
    requires head { IsHead head }
    requires qi { qi < 64 }
    ensures { header_of result ≡ import_header head qi }
{
    Ident {
        vrev: 1,
        fmbw: macro_blocks(head.w),
        fmbh: macro_blocks(head.h),
        picw: head.w,
        pich: head.h,
        picx: 0,
        picy: 0,
        frn: head.frn,
        frd: head.frd,
        parn: head.parn,
        pard: head.pard,
        cs: 0,
        nombr: 0,
        qual: qi,
        shift: SHIFT,
        pf: head.pf,
    }
}

/// A stream with these headers, whose pages are ready.
pub(crate) fn stream_of(alloc: Global, ident: &Ident, setup: &Setup) -> Result<Mux, NoMem>
    ensures all { IfOk result (λ mux. (packets : List (List ℕ)) → rest_of mux packets
        ≡ paged least_body (record { ident = header_bytes (header_of ident.now); comment = own_comment; setup = packet_of (contents setup.now); serial = 1; shift = 6; base = 1 }) packets) }
    ensures frames { IfOk result (λ mux. mux.frames ≡ 0) }
    ensures shift { IfOk result (λ mux. mux.shift ≡ 6) }
    ensures open { IfOk result (λ mux. mux.finished ≡ false) }
{
    let mut first = Vec::new(alloc);
    write_ident(ident, &mut first)?;
    let mut last = Vec::new(alloc);
    write_setup(setup, &mut last)?;
    Mux::new(alloc, &first, own_comment(), &last, SERIAL, SHIFT, BASE)
}
