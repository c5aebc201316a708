// A header more (Theora I, 6).
ghost use Rattle.std.specs.Prelude.{◌≡◌, ◌<◌, ◌++◌, ◌∷◌, [], Ok, IfOk, IfErr, IfSome, IfNone, length};
ghost use Rattle.vid_base.specs.Reading.{Refuses};
ghost use Rattle.ogg_link.specs.declared.state.Counted.{Counted as CountedPacket};
ghost use Rattle.src_index.specs.Said.{shift_of};
ghost use Rattle.src_index.specs.Checks.{said_step};
ghost use Rattle.src_index.specs.Headers.{packets_before, packets_in, said_before, said_of};

use crate::headers::{AllHeaders, Headers, Heads, IdentHeader, SetupHeader, Whole};
use std::alloc::Global;
use thr_frame::{Coded, Work};
use thr_ident::{read_comment, read_ident};
use thr_setup::read_setup;
use vid_base::{NoMem, Refusal};
use vid_geom::Geom;

// All headers, with what their frames are parsed in.
fn whole_of(alloc: Global, headers: AllHeaders) -> Result<Whole, NoMem>
    ensures { IfOk result (λ whole. whole.headers ≡ headers) }
{
    let geom = Geom::new(alloc, headers.ident.header.shape())?;
    let coded = Coded::new(alloc, &geom)?;
    let work = Work::new(alloc, &geom)?;
    Ok(Whole {
        headers,
        geom,
        coded,
        work,
    })
}

// A header more.
pub(crate) fn with_header(alloc: Global, heads: Heads, packet: Vec<u8>) -> Result<Headers, Refusal>
    ensures said { IfOk result (λ next. (counted : CountedPacket) → said_step (said_before heads) counted packet.items ≡ Ok (said_of next)) }
    ensures packets { IfOk result (λ next. packets_in next ≡ packets_before heads ++ packet.items ∷ []) }
    ensures fault { IfErr result (λ refusal. (counted : CountedPacket) → Refuses refusal (said_step (said_before heads) counted packet.items)) }
{
    match heads {
        Heads::Nothing => {
            let header = read_ident(&packet)?;
            Ok(Headers::Begun(Heads::First(IdentHeader { header, packet })))
        }
        Heads::First(ident) => {
            read_comment(&packet)?;
            Ok(Headers::Begun(Heads::Second(ident, packet)))
        }
        Heads::Second(ident, comment) => {
            let header = read_setup(alloc, &packet)?;
            let setup = SetupHeader { header, packet };
            let headers = AllHeaders {
                ident,
                comment,
                setup,
            };
            Ok(Headers::All(whole_of(alloc, headers)?))
        }
    }
}

// The headers, where all have ended.
pub(crate) fn all_of(headers: Headers) -> Option<AllHeaders>
    ensures all { IfSome result (λ all. packets_in headers ≡ all.ident.packet.items ∷ all.comment.items ∷ all.setup.packet.items ∷ []) }
    ensures shift { IfSome result (λ all. shift_of (said_of headers) ≡ all.ident.header.shift) }
    ensures none { IfNone result (length (packets_in headers) < 3) }
{
    match headers {
        Headers::All(whole) => Some(whole.headers),
        Headers::Begun(_) => None,
    }
}
