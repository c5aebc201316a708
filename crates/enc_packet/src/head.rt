// What a packet says before its coefficients, and its first bits (Theora I, 7.1).
ghost use Rattle.std.specs.Prelude.{◌≡◌, ◌+◌, ◌<◌, ◌≤◌, ◌∷◌, ◌++◌, [], OnOk, length};
ghost use Rattle.vid_base.specs.Writing.{AddsBit, ReadsBack};
ghost use Rattle.thr_frame.specs.FrameHead.{head_of, head_with};
ghost use Rattle.enc_packet.specs.WrittenHead.{end_code};

use vid_base::{BitWriter, NoMem, Vector};

/// What a packet says of a frame before its coefficients. An intra frame has mode 1 and no motion everywhere.
#[derive(Clone, Copy)]
pub struct Head<'a> {
    /// Whether the frame is predicted from no other.
    pub intra: bool,
    /// The quantiser index of all blocks, 0 to 63.
    pub qi: u8,
    /// The mode of each macro block in coded order (Theora I, 7.4).
    pub modes: &'a [u8],
    /// The vector of each block in coded order (Theora I, 7.5).
    pub vectors: &'a [Vector],
}

/// The first bit of the packet of a frame.
const DATA: bool = false;

/// What stands behind the last quantiser index (MOREQIS).
const LAST_INDEX: bool = false;

/// Adds one bit.
#[tactic(auto, unfolding(vid_base::specs::Bits::digits))]
fn write_bit(w: &mut BitWriter, bit: bool) -> Result<(), NoMem>
    ensures { OnOk result (AddsBit bit w.old w.new) }
{
    w.put(u32::from(bit), 1)
}

/// Adds what stands behind the quantiser index: there is no other, and three reserved bits of an intra frame are 0.
#[tactic(auto, unfolding(crate::specs::WrittenHead::end_code))]
fn write_end(w: &mut BitWriter, intra: bool) -> Result<(), NoMem>
    ensures { OnOk result (w.new ≡ w.old ++ end_code intra) }
{
    write_bit(w, LAST_INDEX)?;
    if intra { w.put(0, 3) } else { Ok(()) }
}

/// Adds the head of a frame's packet, with one quantiser index.
#[tactic(auto, using(crate::proofs::HeadLemmas::head_back, crate::proofs::HeadLemmas::head_few))]
pub(crate) fn write_head(w: &mut BitWriter, intra: bool, qi: u8) -> Result<(), NoMem>
    requires { qi < 64 }
    ensures reads_back { OnOk result (ReadsBack head_of (head_with intra (qi ∷ [])) w.old w.new) }
    ensures few { OnOk result (length w.new ≤ length w.old + 12) }
{
    write_bit(w, DATA)?;
    write_bit(w, !intra)?;
    w.put(u32::from(qi), 6)?;
    write_end(w, intra)
}
