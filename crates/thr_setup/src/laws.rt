// Laws of the definitions that contracts here cite, and of each setup. These functions change nothing: they are there for
// their clauses, which the proofs of crates above cite.
ghost use Rattle.std.specs.Prelude.{◌≡◌, ◌++◌, ℕ, List, Ok};
ghost use Rattle.vid_base.specs.Fronts.{ReadsFront};
ghost use Rattle.thr_setup.specs.Setup.{Contents, IsSetup, contents, fields_of, packet_of, setup_of};
ghost use Rattle.thr_setup.specs.Import.{imported};

use crate::Setup;
use thr_huff::trees_fit_a_header;
use thr_quant::{limits_fit_a_header, quantisers_fit_a_header};

/// What was read of a setup header is what one can say, and so is the setup of streams that are made here; whatever one can
/// say is read back from its packet; and of the first bits of the fields alone they are read as the same, or with the same
/// fault, or are `Ended`.
pub fn setups_of_a_header()
    ensures sound { (setup : Contents) (bytes : List ℕ) → setup_of bytes ≡ Ok setup → IsSetup setup }
    ensures own { IsSetup imported }
    ensures reads_back { (setup : Contents) (rest : List ℕ) → IsSetup setup → setup_of (packet_of setup ++ rest) ≡ Ok setup }
    ensures front { ReadsFront fields_of }
{}

/// A setup is such as a setup header can say.
pub fn setup_fits_a_header(setup: &Setup)
    ensures { IsSetup (contents setup.now) }
{
    limits_fit_a_header(&setup.limits);
    quantisers_fit_a_header(&setup.ramps);
    trees_fit_a_header(&setup.forest);
}
