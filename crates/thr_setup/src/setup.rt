// Reading a setup header (Theora I, 6.4.5).
ghost use Rattle.std.specs.Prelude.{◌≡◌, Ok, IsOk, IfOk, IfErr};
ghost use Rattle.thr_quant.specs.Limits.{limits_of};
ghost use Rattle.vid_base.specs.Reading.{GivesOrNoMem, Refuses};
ghost use Rattle.thr_setup.specs.Setup.{HasLimits, contents, fields_of, setup_of};

use std::alloc::{AllocError, Global};
use thr_huff::{Forest, read_forest};
use thr_quant::{Limits, Ramps, read_limits, read_ramps};
use vid_base::{BitReader, PacketFault, Refusal};

/// The first bytes of a setup header: its type, and the codec's name (Theora I, 6.1).
pub(crate) const SETUP_NAME: [u8; 7] = [0x82, b't', b'h', b'e', b'o', b'r', b'a'];

/// What a setup header says: the limits of the loop filter, the quantisers, and the 80 trees of the tokens' codes.
#[derive(Drop)]
pub struct Setup {
    pub limits: Limits,
    pub ramps: Ramps,
    pub forest: Forest,
}

/// A copy is equal, and has memory of its own.
impl Clone for Setup {
    ghost is_clone = { λ v w. w ≡ v };

    fn clone(&self) -> Result<Self, AllocError> {
        Ok(Setup {
            limits: self.limits,
            ramps: self.ramps.clone()?,
            forest: self.forest.clone()?,
        })
    }
}

/// Limits, quantisers and trees, in the order in which they stand.
#[tactic(auto, unfolding(crate::specs::Setup::fields_of))]
fn read_fields(alloc: Global, r: &mut BitReader) -> Result<Setup, Refusal>
    ensures value { GivesOrNoMem contents result r.new.left (fields_of r.old.left) }
    ensures needed { result ≡ Err Refusal.NoMem → IsOk (limits_of r.old.left) }
{
    let limits = read_limits(r)?;
    let ramps = read_ramps(alloc, r)?;
    let forest = read_forest(alloc, r)?;
    Ok(Setup {
        limits,
        ramps,
        forest,
    })
}

/// What a setup header says, or its first fault in reading order (Theora I, 6.4.5): `NotSetup`, where the first 7 bytes are
/// not its; `Ended`; `Matrices`, `MatrixIndex` and `Ramp` of the quantisers; `TreeDeep` and `TreeLeaves` of the trees. Bits
/// and bytes behind the last tree do not count. No memory is taken before the name and the limits are read.
#[tactic(auto, unfolding(crate::specs::Setup::setup_of))]
pub fn read_setup(alloc: Global, bytes: &[u8]) -> Result<Setup, Refusal>
    ensures value { IfOk result (λ setup. setup_of bytes.now ≡ Ok (contents setup)) }
    ensures fault { IfErr result (λ refusal. Refuses refusal (setup_of bytes.now)) }
    ensures needed { result ≡ Err Refusal.NoMem → HasLimits bytes.now }
{
    if !bytes.starts_with(&SETUP_NAME) {
        return Err(Refusal::Bad(PacketFault::NotSetup));
    }
    let mut r = BitReader::new(&bytes[SETUP_NAME.len()..]);
    read_fields(alloc, &mut r)
}
