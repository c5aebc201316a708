// Writing an identification header (Theora I, 6.1 and 6.2).
ghost use Rattle.std.specs.Prelude.{◌≡◌, ℕ, ◌+◌, ◌*◌, ◌^◌, ◌<◌, ◌≤◌, ◌++◌, List, OnOk, OnErr, length, vec_len, vec_capacity};
ghost use Rattle.thr_ident.specs.Header.{header_bytes, ident_length};
ghost use Rattle.thr_ident.specs.Ident.{ident_of, header_of};

use crate::Ident;
use crate::header::{IDENT_BYTES, IDENT_NAME, VERSION};
use vid_base::NoMem;

/// More bytes at the end, for which there is room.
fn add(out: &mut Vec<u8>, bytes: &[u8])
    requires { vec_len out.old + length bytes.now ≤ vec_capacity out.old }
    ensures items { out.new.items ≡ out.old.items ++ bytes.now }
    ensures len { vec_len out.new ≡ vec_len out.old + length bytes.now }
    ensures capacity { vec_capacity out.old ≤ vec_capacity out.new }
{
    let _ = out.extend_from_slice(bytes);
}

/// The last four fields in the bits of one number; the reserved bits are 0.
fn last_fields(ident: &Ident) -> u16
    ensures { result ≡ ident.now.qual * 2 ^ 10 + ident.now.shift * 2 ^ 5 + ident.now.pf * 2 ^ 3 }
{
    (u16::from(ident.qual) << 10) + (u16::from(ident.shift) << 5) + (u16::from(ident.pf) << 3)
}

/// Appends the 42 bytes of the header that says this. After `NoMem`, which comes only where there is no room for them, the
/// bytes are those that were there.
pub fn write_ident(ident: &Ident, out: &mut Vec<u8>) -> Result<(), NoMem>
    ensures written { OnOk result (out.new.items ≡ out.old.items ++ header_bytes (header_of ident.now)) }
    ensures memory { OnErr result (out.new.items ≡ out.old.items) }
    ensures full { OnErr result (vec_capacity out.old < vec_len out.old + ident_length) }
    ensures reads_back { (rest : List ℕ) → ident_of (header_bytes (header_of ident.now) ++ rest) ≡ Ok (header_of ident.now) }
{
    out.try_reserve(IDENT_BYTES)?;
    add(out, &IDENT_NAME);
    add(out, &VERSION);
    add(out, &[ident.vrev]);
    add(out, &ident.fmbw.to_be_bytes());
    add(out, &ident.fmbh.to_be_bytes());
    add(out, &ident.picw.to_be_bytes()[1..]);
    add(out, &ident.pich.to_be_bytes()[1..]);
    add(out, &[ident.picx, ident.picy]);
    add(out, &ident.frn.to_be_bytes());
    add(out, &ident.frd.to_be_bytes());
    add(out, &ident.parn.to_be_bytes()[1..]);
    add(out, &ident.pard.to_be_bytes()[1..]);
    add(out, &[ident.cs]);
    add(out, &ident.nombr.to_be_bytes()[1..]);
    add(out, &last_fields(ident).to_be_bytes());
    Ok(())
}
