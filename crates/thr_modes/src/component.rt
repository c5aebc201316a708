// Motion vectors and their components in a packet (Theora I, 7.5.1).
ghost use Rattle.std.specs.Prelude.{◌≡◌, ◌+◌, ◌<◌, ◌≤◌, ◌^◌, ◌∷◌, ◌++◌, [], Bool, List, IfOk, OnOk, OnErr};
ghost use Rattle.vid_base.specs.Reading.{Gives, SameEnd};
ghost use Rattle.vid_base.specs.Writing.{AddsBit, Grows};
ghost use Rattle.thr_modes.specs.Vectors.{signed, sized, prefixed, component, vector_in, offset_of, IsComponent};
ghost use Rattle.thr_modes.specs.WrittenVectors.{component_code, vector_code};
ghost use Rattle.thr_modes.specs.Views.{vector_form};

use crate::field::read_field;
use vid_base::{BitReader, BitWriter, NoMem, PacketFault, Vector};

/// How the components of vectors are coded: by a prefix of 3 bits, or by 5 bits and a sign.
#[derive(Clone, Copy)]
pub enum VectorCoding {
    Prefixed,
    Fixed,
}

/// A size with its sign.
#[tactic(auto, unfolding(crate::specs::Vectors::signed))]
fn signed(negative: bool, size: u8) -> i8
    requires { size < 32 }
    ensures value { result ≡ signed negative size }
    ensures small { IsComponent result }
{
    if negative { -(size as i8) } else { size as i8 }
}

/// A component whose size is counted from the least one by so many bits, with its sign behind them.
#[tactic(auto, unfolding(crate::specs::Vectors::sized, vid_base::specs::Reading::one_bit))]
fn read_sized(r: &mut BitReader, least: u8, width: u32) -> Result<i8, PacketFault>
    requires width { width ≤ 5 }
    requires size { least + 2 ^ width ≤ 32 }
    ensures value { Gives (λ component. component) result r.new.left (sized least width r.old.left) }
    ensures small { IfOk result IsComponent }
    ensures end { SameEnd r.old r.new }
{
    let size = least + read_field(r, width)?;
    Ok(signed(r.bit()?, size))
}

/// A component under MVMODE 0.
#[tactic(auto, unfolding(crate::specs::Vectors::prefixed))]
fn read_prefixed(r: &mut BitReader) -> Result<i8, PacketFault>
    ensures value { Gives (λ component. component) result r.new.left (prefixed r.old.left) }
    ensures small { IfOk result IsComponent }
    ensures end { SameEnd r.old r.new }
{
    match r.take(3)? {
        0 => Ok(0),
        1 => Ok(1),
        2 => Ok(-1),
        3 => read_sized(r, 2, 0),
        4 => read_sized(r, 3, 0),
        5 => read_sized(r, 4, 2),
        6 => read_sized(r, 8, 3),
        _ => read_sized(r, 16, 4),
    }
}

/// A component.
#[tactic(auto, unfolding(crate::specs::Vectors::component))]
fn read_component(r: &mut BitReader, coding: VectorCoding) -> Result<i8, PacketFault>
    ensures value { Gives (λ component. component) result r.new.left (component (vector_form coding) r.old.left) }
    ensures small { IfOk result IsComponent }
    ensures end { SameEnd r.old r.new }
{
    match coding {
        VectorCoding::Prefixed => read_prefixed(r),
        VectorCoding::Fixed => read_sized(r, 0, 5),
    }
}

/// A vector: its component to the right, and then the one upwards.
#[tactic(auto, unfolding(crate::specs::Vectors::vector_in, crate::specs::Vectors::offset_of))]
pub fn read_vector(r: &mut BitReader, coding: VectorCoding) -> Result<Vector, PacketFault>
    ensures value { Gives offset_of result r.new.left (vector_in (vector_form coding) r.old.left) }
    ensures end { SameEnd r.old r.new }
{
    let x = read_component(r, coding)?;
    let y = read_component(r, coding)?;
    Ok(Vector { x, y })
}

/// Adds a bit.
pub fn write_bit(w: &mut BitWriter, bit: bool) -> Result<(), NoMem>
    ensures written { OnOk result (AddsBit bit w.old w.new) }
    ensures memory { OnErr result (Grows w.old w.new) }
{
    w.put(u32::from(bit), 1)
}

/// A component in 5 bits and a sign.
#[tactic(auto, unfolding(crate::specs::WrittenVectors::component_code))]
fn write_component(w: &mut BitWriter, component: i8) -> Result<(), NoMem>
    requires { IsComponent component }
    ensures written { OnOk result (w.new ≡ w.old ++ component_code component) }
    ensures memory { OnErr result (Grows w.old w.new) }
{
    w.put(u32::from(component.unsigned_abs()), 5)?;
    write_bit(w, component < 0)
}

/// A vector in two components of 5 bits and a sign.
#[tactic(auto, unfolding(crate::specs::WrittenVectors::vector_code, crate::specs::Vectors::offset_of))]
pub fn write_vector(w: &mut BitWriter, vector: Vector) -> Result<(), NoMem>
    ensures written { OnOk result (w.new ≡ w.old ++ vector_code (offset_of vector)) }
    ensures memory { OnErr result (Grows w.old w.new) }
{
    write_component(w, vector.x)?;
    write_component(w, vector.y)
}
