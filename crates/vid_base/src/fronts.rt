// What fields of a packet that is cut are read as (Theora I, 5.2 and 7).
ghost use Rattle.std.specs.Prelude.{ℕ, Bool, List, Result};
ghost use Rattle.vid_base.specs.declared.fault.PacketFault.{PacketFault};
ghost use Rattle.vid_base.specs.Reading.{field, one_bit};
ghost use Rattle.vid_base.specs.Items.{items};
ghost use Rattle.vid_base.specs.Fronts.{chained, ReadsCut, ReadsFront};

/// Fields one behind another are read from the front: of the first bits of a packet alone they are read as the same, or
/// are `Ended` because they want more. There is nothing to run.
pub fn fields_read_from_the_front()
    ensures field { (n : ℕ) → ReadsFront (field n) }
    ensures bit { ReadsFront one_bit }
    ensures chain { (read : List Bool → Result (ℕ × List Bool) PacketFault) (next : ℕ × List Bool → Result (ℕ × List Bool) PacketFault) → ReadsFront read → ((v : ℕ) → ReadsFront (λ bits. next (v, bits))) → ReadsFront (chained read next) }
    ensures row { (item : List Bool → Result (ℕ × List Bool) PacketFault) (n : ℕ) → ReadsFront item → ReadsFront (items item n) }
    ensures cut { (read : List Bool → Result (ℕ × List Bool) PacketFault) → ReadsFront read → ReadsCut read }
{}
