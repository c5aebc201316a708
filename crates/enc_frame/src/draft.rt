// A packet made for a target (own).
ghost use Rattle.std.specs.Prelude.{◌≡◌, ◌<◌, All, IfOk, length, map, replicate, true, false};
ghost use Rattle.vid_geom.specs.CodedOrder.{order_of};
ghost use Rattle.vid_geom.specs.MacroBlocks.{macro_blocks};
ghost use Rattle.thr_modes.specs.Chosen.{AreChosen};
ghost use Rattle.thr_modes.specs.Vectors.{offset_of, still};
ghost use Rattle.thr_setup.specs.Setup.{contents};
ghost use Rattle.thr_frame.specs.CodedFrame.{intra_mode};
ghost use Rattle.enc_frame.specs.Drafted.{IsDraft};
ghost use Rattle.enc_frame.specs.Sources.{refs_of};

use crate::sources::Sources;
use enc_near::nearest_values;
use enc_packet::{Head, write_packet};
use std::alloc::Global;
use thr_frame::fill_kinds;
use thr_token::Coeffs;
use vid_base::NoMem;

impl Sources<'_> {
    /// Makes the packet of a frame with all blocks coded. Which reference each block has is left in `kinds`; nothing is known
    /// of the coefficients afterwards.
    pub(crate) fn packet(
        &self,
        alloc: Global,
        head: &Head<'_>,
        flags: &[bool],
        kinds: &mut [u8],
        coeffs: &mut Coeffs,
    ) -> Result<Vec<u8>, NoMem>
        requires qi { head.now.qi < 64 }
        requires flags { flags.now ≡ replicate (length (order_of self.now.geom.now)) true }
        requires kinds { length kinds.old ≡ length (order_of self.now.geom.now) }
        requires modes { length head.now.modes.now ≡ length (macro_blocks self.now.geom.now) }
        requires small { All (λ mode. mode < 8) head.now.modes.now }
        requires vectors { length head.now.vectors.now ≡ length (order_of self.now.geom.now) }
        requires intra { head.now.intra ≡ true → head.now.modes.now ≡ replicate (length (macro_blocks self.now.geom.now)) intra_mode }
        requires still { head.now.intra ≡ true → map offset_of head.now.vectors.now ≡ replicate (length (order_of self.now.geom.now)) still }
        requires inter { head.now.intra ≡ false → AreChosen self.now.geom.now flags.now head.now.modes.now (map offset_of head.now.vectors.now) }
        requires values { length coeffs.old.values.items ≡ length (order_of self.now.geom.now) }
        requires counts { length coeffs.old.counts.items ≡ length (order_of self.now.geom.now) }
        ensures draft { IfOk result (λ packet. IsDraft (contents self.now.setup.now) self.now.geom.now (refs_of self.now) self.now.target.now head.now.intra head.now.qi head.now.modes.now (map offset_of head.now.vectors.now) packet.items) }
        ensures values { length coeffs.new.values.items ≡ length (order_of self.now.geom.now) }
        ensures counts { length coeffs.new.counts.items ≡ length (order_of self.now.geom.now) }
    {
        fill_kinds(self.geom, head.modes, kinds);
        nearest_values(
            self.geom,
            self.setup,
            self.target,
            self.prev,
            self.golden,
            head.qi,
            flags,
            kinds,
            head.modes,
            head.vectors,
            coeffs,
        );
        let (geom, setup) = (self.geom, self.setup);
        Ok(write_packet(alloc, geom, setup, self.rows, head, flags, kinds, coeffs)?)
    }
}
