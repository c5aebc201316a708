// A writer of the bits of a packet (Theora I, 5.2).
ghost use Rattle.std.specs.Prelude.{◌≡◌, ◌+◌, ◌*◌, ◌/◌, ◌^◌, ◌<◌, ◌≤◌, ◌∷◌, ◌++◌, [], ℕ, Bool, List, Some, OnOk, OnErr, length, vec_len, vec_capacity};
ghost use Rattle.vid_base.specs.Bits.{digits, bits_of, zeros, to_byte, take_bits};
ghost use Rattle.vid_base.specs.Writing.{Grows};

use crate::NoMem;
use std::alloc::Global;
use std::marker::Model;

/// Puts bits at the end of a packet, the most significant of each byte first.
#[derive(Debug, Drop)]
pub struct BitWriter {
    bytes: Vec<u8>,
    part: u8,
    count: u8,
}

impl Model for BitWriter {
    ghost use Rattle.std.specs.Prelude.{◌≡◌, ◌<◌, ◌^◌, ◌++◌, List, Bool, vec_len, vec_capacity};
    ghost use Rattle.vid_base.specs.Bits.{bits_of, digits};

    ghost Value = { List Bool };

    ghost view = { λ w. bits_of w.bytes.items ++ digits w.count w.part };

    // A byte that was begun has its room, so that ending it takes no memory.
    ghost invariant = { λ w. (w.count < 8) × (w.part < 2 ^ w.count) × (0 < w.count → vec_len w.bytes < vec_capacity w.bytes) };
}

/// One more byte, for which there is room.
fn add_byte(bytes: &mut Vec<u8>, byte: u8)
    requires { vec_len bytes.old < vec_capacity bytes.old }
    ensures items { bytes.new.items ≡ bytes.old.items ++ byte ∷ [] }
    ensures len { vec_len bytes.new ≡ vec_len bytes.old + 1 }
    ensures capacity { vec_capacity bytes.old ≤ vec_capacity bytes.new }
{
    let _ = bytes.push(byte);
}

/// The lowest `count` bits of a number, as far as they fill bytes, for which there is room. Says how many bits are over;
/// the byte that they begin has its room too.
fn add_bytes(bytes: &mut Vec<u8>, bits: u64, count: u32) -> u32
    requires count { count < 64 }
    requires room { vec_len bytes.old + (count + 7) / 8 ≤ vec_capacity bytes.old }
    ensures written { bits_of bytes.new.items ++ digits result bits ≡ bits_of bytes.old.items ++ digits count bits }
    ensures over { result < 8 }
    ensures room { 0 < result → vec_len bytes.new < vec_capacity bytes.new }
{
    let mut left = count;
    while left >= 8 {
        left -= 8;
        add_byte(bytes, ((bits >> left) % 256) as u8);
    }
    left
}

impl BitWriter {
    /// No bits yet.
    pub fn new(alloc: Global) -> BitWriter
        ensures { result ≡ [] }
    {
        BitWriter {
            bytes: Vec::new(alloc),
            part: 0,
            count: 0,
        }
    }

    /// Adds the lowest n bits of the value, the highest first. After `NoMem`, which comes only where the byte that was
    /// begun does not hold them, the bits that were there are followed by some of them.
    pub fn put(&mut self, value: u32, n: u32) -> Result<(), NoMem>
        requires n { n ≤ 32 }
        requires value { value < 2 ^ n }
        ensures written { OnOk result (self.new ≡ self.old ++ digits n value) }
        ensures memory { OnErr result (Grows self.old self.new) }
        ensures needed { OnErr result (to_byte (length self.old) < n) }
        ensures reads_back { OnOk result ((rest : List Bool) → take_bits n (digits n value ++ rest) ≡ Some (value, rest)) }
    {
        let count = u32::from(self.count) + n;
        self.bytes.try_reserve(((count + 7) / 8) as usize)?;
        let bits = (u64::from(self.part) << n) + u64::from(value);
        let over = add_bytes(&mut self.bytes, bits, count);
        self.part = (bits % (1 << over)) as u8;
        self.count = over as u8;
        Ok(())
    }

    /// All bytes, the last filled with 0 bits. Takes no memory.
    pub fn finish(self) -> Vec<u8>
        ensures { bits_of result.items ≡ self ++ zeros (to_byte (length self)) }
    {
        let mut bytes = self.bytes;
        if self.count > 0 {
            add_byte(&mut bytes, self.part << (8 - self.count));
        }
        bytes
    }
}
