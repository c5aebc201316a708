// Why there is no encoder (own).
use vid_base::NoMem;

/// Why a stream cannot be coded.
#[derive(Clone, Copy, Debug, PartialEq, Eq)]
pub enum EncFault {
    /// No row of the setup header's trees holds all tokens in each of the five groups, so some frames could not be written.
    NoFullTables,
    /// Memory was lacking.
    NoMem,
}

impl From<NoMem> for EncFault {
    ghost use Rattle.std.specs.Prelude.{◌≡◌};
    ghost use Rattle.enc_frame.specs.declared.fault.EncFault.TheVariants.{NoMem};

    ghost from_gives = { λ _ fault. fault ≡ NoMem };

    fn from(_: NoMem) -> Self {
        EncFault::NoMem
    }
}
