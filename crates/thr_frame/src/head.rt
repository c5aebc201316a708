// The head of a frame's packet (Theora I, 7.1).
ghost use Rattle.std.specs.Prelude.{◌<◌, IfOk, OnOk};
ghost use Rattle.vid_base.specs.Reading.{Gives, SameEnd, field};
ghost use Rattle.thr_frame.specs.FrameHead.{IsQis, head_of, head_with, qis_of, reserved_of};

use arrayvec::ArrayVec;
use vid_base::{BitReader, PacketFault};

// The next quantiser index.
fn read_qi(r: &mut BitReader) -> Result<u8, PacketFault>
    ensures value { Gives (λ qi. qi) result r.new.left (field 6 r.old.left) }
    ensures small { IfOk result (λ qi. qi < 64) }
    ensures end { SameEnd r.old r.new }
{
    Ok(r.take(6)? as u8)
}

// One to three quantiser indices: a bit before each but the first tells that it is there.
#[tactic(auto, unfolding(crate::specs::FrameHead::qis_of, crate::specs::FrameHead::more_qis, vid_base::specs::Reading::one_bit))]
fn read_qis(r: &mut BitReader, qis: &mut ArrayVec<u8, 3>) -> Result<(), PacketFault>
    ensures value { Gives (λ _. qis.new.items) result r.new.left (qis_of r.old.left) }
    ensures small { OnOk result (IsQis qis.new.items) }
    ensures end { SameEnd r.old r.new }
{
    qis.clear();
    qis.push(read_qi(r)?);
    if r.bit()? {
        qis.push(read_qi(r)?);
        if r.bit()? {
            qis.push(read_qi(r)?);
        }
    }
    Ok(())
}

// The reserved bits of an intra frame are 0.
#[tactic(auto, unfolding(crate::specs::FrameHead::reserved_of))]
fn read_reserved(r: &mut BitReader, intra: bool) -> Result<(), PacketFault>
    ensures value { Gives (λ _. 0) result r.new.left (reserved_of intra r.old.left) }
    ensures end { SameEnd r.old r.new }
{
    if intra && r.take(3)? != 0 {
        return Err(PacketFault::Reserved);
    }
    Ok(())
}

/// Reads the head of a frame's packet: whether the frame is intra, and its quantiser indices in place of those that are
/// there. `NotData`, `Ended` or `Reserved`; the indices are then open.
#[tactic(auto, unfolding(crate::specs::FrameHead::head_of, vid_base::specs::Reading::one_bit))]
pub(crate) fn read_head(r: &mut BitReader, qis: &mut ArrayVec<u8, 3>) -> Result<bool, PacketFault>
    ensures value { Gives (λ intra. head_with intra qis.new.items) result r.new.left (head_of r.old.left) }
    ensures small { OnOk result (IsQis qis.new.items) }
    ensures end { SameEnd r.old r.new }
{
    if r.bit()? {
        return Err(PacketFault::NotData);
    }
    let intra = !r.bit()?;
    read_qis(r, qis)?;
    read_reserved(r, intra)?;
    Ok(intra)
}
