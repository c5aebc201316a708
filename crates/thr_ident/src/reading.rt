// Reading an identification header (Theora I, 6.1 and 6.2).
ghost use Rattle.std.specs.Prelude.{◌≡◌, IfOk, IfErr};
ghost use Rattle.thr_ident.specs.Ident.{ident_of, header_of};

use crate::Ident;
use crate::header::{Fields, IDENT_BYTES, IDENT_NAME};
use vid_base::PacketFault;

/// What an identification header says, or its first fault, in this order: `NotIdent`, where the first 7 bytes are not
/// its; `Ended`, where fewer than 42 bytes are there; `Version`, `BadSize`, `TooLarge`, `BadRate`, `PixelFormat` and
/// `Reserved`. Bits and bytes behind the last field do not count.
#[tactic(auto, unfolding(crate::specs::Ident::ident_of, crate::specs::Ident::ident_rules, vid_base::specs::Rules::first_fault))]
pub fn read_ident(bytes: &[u8]) -> Result<Ident, PacketFault>
    ensures value { IfOk result (λ ident. ident_of bytes.now ≡ Ok (header_of ident)) }
    ensures fault { IfErr result (λ fault. ident_of bytes.now ≡ Err fault) }
{
    if !bytes.starts_with(&IDENT_NAME) {
        return Err(PacketFault::NotIdent);
    }
    if bytes.len() < IDENT_BYTES {
        return Err(PacketFault::Ended);
    }
    let fields = Fields::read(bytes);
    match fields.fault() {
        Some(fault) => Err(fault),
        None => Ok(Ident::of(&fields)),
    }
}
