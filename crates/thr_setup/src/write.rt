// Writing a setup header (Theora I, 6.4.5).
ghost use Rattle.std.specs.Prelude.{◌≡◌, ℕ, ◌+◌, ◌≤◌, ◌++◌, List, Ok, OnOk, OnErr, IfOk, length, vec_len, vec_capacity};
ghost use Rattle.vid_base.specs.Bits.{bits_of};
ghost use Rattle.thr_setup.specs.Setup.{bytes_of, contents, fields_bits, filled, packet_of, setup_of};

use crate::Setup;
use crate::laws::setup_fits_a_header;
use crate::setup::SETUP_NAME;
use std::alloc::Global;
use thr_huff::write_forest;
use thr_quant::{write_limits, write_ramps};
use vid_base::{BitWriter, NoMem};

/// Limits, quantisers and trees as bits behind those that were there.
#[tactic(auto, unfolding(crate::specs::Setup::fields_bits))]
fn write_fields(w: &mut BitWriter, setup: &Setup) -> Result<(), NoMem>
    ensures written { OnOk result (w.new ≡ w.old ++ fields_bits (contents setup.now)) }
{
    write_limits(w, &setup.limits)?;
    write_ramps(w, &setup.ramps)?;
    write_forest(w, &setup.forest)
}

/// The bytes behind the name, the last filled with 0 bits.
fn field_bytes(alloc: Global, setup: &Setup) -> Result<Vec<u8>, NoMem>
    ensures written { IfOk result (λ bytes. bits_of bytes.items ≡ filled (fields_bits (contents setup.now))) }
{
    let mut w = BitWriter::new(alloc);
    write_fields(&mut w, setup)?;
    Ok(w.finish())
}

/// More bytes at the end, for which there is room.
fn add(out: &mut Vec<u8>, bytes: &[u8])
    requires { vec_len out.old + length bytes.now ≤ vec_capacity out.old }
    ensures items { out.new.items ≡ out.old.items ++ bytes.now }
    ensures len { vec_len out.new ≡ vec_len out.old + length bytes.now }
    ensures capacity { vec_capacity out.old ≤ vec_capacity out.new }
    ensures packed { bytes_of (bits_of bytes.now) ≡ bytes.now }
{
    let _ = out.extend_from_slice(bytes);
}

/// Appends the packet of a setup header that says this, its last byte filled with 0 bits (Theora I, 6.4.5). After `NoMem` the
/// bytes are those that were there.
#[tactic(auto, using(crate::proofs::SetupLemmas::setup_back))]
pub fn write_setup(setup: &Setup, out: &mut Vec<u8>) -> Result<(), NoMem>
    ensures written { OnOk result (out.new.items ≡ out.old.items ++ packet_of (contents setup.now)) }
    ensures memory { OnErr result (out.new.items ≡ out.old.items) }
    ensures reads_back { (rest : List ℕ) → setup_of (packet_of (contents setup.now) ++ rest) ≡ Ok (contents setup.now) }
{
    setup_fits_a_header(setup);
    let fields = field_bytes(*out.allocator(), setup)?;
    out.try_reserve(SETUP_NAME.len() + fields.len())?;
    add(out, &SETUP_NAME);
    add(out, &fields);
    Ok(())
}
