// A reader of the bits of a packet (Theora I, 5.2).
ghost use Rattle.std.specs.Prelude.{◌≡◌, ◌+◌, ◌*◌, ◌^◌, ◌<◌, ◌≤◌, ◌++◌, OnOk, OnErr, IfOk, IfSome, IsTrue, ◌↔◌, length, take, drop};
ghost use Rattle.vid_base.specs.Bits.{take_bits, bits_of, digits, number_in};
ghost use Rattle.vid_base.specs.Reading.{SameEnd, Taken, TakesBit};
ghost use Rattle.vid_base.specs.Places.{left_at};

use crate::Ended;
use std::marker::Model;

/// Takes bits from the front of a packet, the most significant of each byte first.
#[derive(Debug, Drop)]
pub struct BitReader<'a> {
    bytes: &'a [u8],
    at: usize,
    shift: u8,
}

impl<'a> Model for BitReader<'a> {
    ghost use Rattle.std.specs.Prelude.{◌+◌, ◌*◌, ◌<◌, ◌≤◌, length};
    ghost use Rattle.vid_base.specs.Reading.{Reading};
    ghost use Rattle.vid_base.specs.Places.{left_at};

    ghost Value = { Reading };

    ghost view = { λ r. record { place = 8 * r.at + r.shift; left = left_at r.bytes.now r.at r.shift } };

    ghost invariant = { λ r. (r.at ≤ length r.bytes.now) × (r.shift < 8) × (8 * r.at + r.shift ≤ 8 * length r.bytes.now) };
}

/// Bits of one byte as a number, how many they are, and the place behind them.
#[derive(Clone, Copy)]
struct Piece {
    value: u32,
    count: u32,
    at: usize,
    shift: u8,
}

/// The bits that a byte still has behind a place of it, and at most so many.
fn piece_at(bytes: &[u8], at: usize, shift: u8, most: u32) -> Piece
    requires at { at < length bytes.now }
    requires shift { shift < 8 }
    requires most { 0 < most }
    ensures bits { left_at bytes.now at shift ≡ digits result.count result.value ++ left_at bytes.now result.at result.shift }
    ensures small { result.value < 2 ^ result.count }
    ensures count { (0 < result.count) × (result.count ≤ most) × (result.count ≤ 8) }
    ensures place { 8 * result.at + result.shift ≡ 8 * at + shift + result.count }
    ensures shift { result.shift < 8 }
{
    let room = 8 - u32::from(shift);
    let count = room.min(most);
    let value = (u32::from(bytes[at]) >> (room - count)) % (1 << count);
    if count == room {
        Piece {
            value,
            count,
            at: at + 1,
            shift: 0,
        }
    } else {
        Piece {
            value,
            count,
            at,
            shift: shift + count as u8,
        }
    }
}

/// Eight bytes behind a place as one number, where so many are there.
#[inline]
fn word_at(bytes: &[u8], at: usize) -> Option<u64>
    requires { at ≤ length bytes.now }
    ensures bits { IfSome result (λ word. bits_of (take 8 (drop at bytes.now)) ≡ digits 64 word) }
    ensures there { IfSome result (λ word. at + 8 ≤ length bytes.now) }
{
    let eight = bytes[at..].first_chunk::<8>()?;
    Some(u64::from_be_bytes(*eight))
}

/// The n bits of a word behind its first few. They go up to the word's end, and then down to the low end.
#[inline]
fn bits_in(word: u64, shift: u8, n: u32) -> u32
    requires n { n ≤ 32 }
    requires shift { shift < 8 }
    ensures bits { digits n result ≡ take n (drop shift (digits 64 word)) }
    ensures small { result < 2 ^ n }
{
    ((word << shift) >> 1 >> (63 - n)) as u32
}

/// The number of the n bits behind a place, and the place behind them.
#[inline]
fn bits_at(bytes: &[u8], at: usize, shift: u8, n: u32) -> (u32, usize, u8)
    requires n { n ≤ 32 }
    requires shift { shift < 8 }
    requires there { 8 * at + shift + n ≤ 8 * length bytes.now }
    ensures bits { left_at bytes.now at shift ≡ digits n result.0 ++ left_at bytes.now result.1 result.2 }
    ensures small { result.0 < 2 ^ n }
    ensures place { 8 * result.1 + result.2 ≡ 8 * at + shift + n }
    ensures shift { result.2 < 8 }
{
    match word_at(bytes, at) {
        Some(word) => {
            let end = u32::from(shift) + n;
            (
                bits_in(word, shift, n),
                at + (end / 8) as usize,
                (end % 8) as u8,
            )
        }
        None => bits_by_bytes(bytes, at, shift, n),
    }
}

/// The same byte by byte, where the packet ends within eight bytes.
fn bits_by_bytes(bytes: &[u8], at: usize, shift: u8, n: u32) -> (u32, usize, u8)
    requires n { n ≤ 32 }
    requires shift { shift < 8 }
    requires there { 8 * at + shift + n ≤ 8 * length bytes.now }
    ensures bits { left_at bytes.now at shift ≡ digits n result.0 ++ left_at bytes.now result.1 result.2 }
    ensures small { result.0 < 2 ^ n }
    ensures place { 8 * result.1 + result.2 ≡ 8 * at + shift + n }
    ensures shift { result.2 < 8 }
{
    let mut value = 0u32;
    let mut byte = at;
    let mut bit = shift;
    let mut left = n;
    'pieces: while left > 0 {
        let piece = piece_at(bytes, byte, bit, left);
        value = joined(value, n - left, piece.value, piece.count);
        byte = piece.at;
        bit = piece.shift;
        left -= piece.count;
    }
    (value, byte, bit)
}

/// The digits of two numbers one behind the other, as one number.
fn joined(value: u32, width: u32, more: u32, count: u32) -> u32
    requires value { value < 2 ^ width }
    requires more { more < 2 ^ count }
    requires room { width + count ≤ 32 }
    requires count { count ≤ 8 }
    ensures joined { digits (width + count) result ≡ digits width value ++ digits count more }
    ensures small { result < 2 ^ (width + count) }
{
    (value << count) + more
}

impl<'a> BitReader<'a> {
    /// A reader of all bits of these bytes.
    pub fn new(bytes: &'a [u8]) -> BitReader<'a>
        ensures left { result.left ≡ bits_of bytes.now }
        ensures count { length result.left ≡ 8 * length bytes.now }
        ensures place { result.place ≡ 0 }
    {
        BitReader {
            bytes,
            at: 0,
            shift: 0,
        }
    }

    /// Another reader at the same place, to come back to.
    pub fn copy(&self) -> BitReader<'a>
        ensures { result ≡ self.now }
    {
        BitReader {
            bytes: self.bytes,
            at: self.at,
            shift: self.shift,
        }
    }

    /// How many bits were taken.
    pub fn place(&self) -> u64
        requires { self.now.place < 2 ^ 64 }
        ensures { result ≡ self.now.place }
    {
        8 * (self.at as u64) + u64::from(self.shift)
    }

    /// How many bits are left.
    pub fn left(&self) -> u64
        requires { length self.now.left < 2 ^ 64 }
        ensures { result ≡ length self.now.left }
    {
        if self.at == self.bytes.len() {
            return 0;
        }
        let behind = self.bytes.len() - self.at - 1;
        8 * (behind as u64) + u64::from(8 - self.shift)
    }

    /// Whether n bits are left. No product here passes 64 bits, however long the packet is.
    fn has(&self, n: u32) -> bool
        requires { n ≤ 32 }
        ensures { IsTrue result ↔ (n ≤ length self.now.left) }
    {
        let whole = self.bytes.len() - self.at;
        whole >= 5 || 8 * (whole as u32) >= n + u32::from(self.shift)
    }

    /// The number of the next n bits, the first the highest. Where fewer are left it is `Ended`, and the reader is as it
    /// was.
    pub fn take(&mut self, n: u32) -> Result<u32, Ended>
        requires { n ≤ 32 }
        ensures value { Taken result self.new.left (take_bits n self.old.left) }
        ensures place { OnOk result (self.new.place ≡ self.old.place + n) }
        ensures ended { OnErr result (self.new ≡ self.old) }
        ensures end { SameEnd self.old self.new }
        ensures small { IfOk result (λ v. v < 2 ^ n) }
    {
        if !self.has(n) {
            return Err(Ended);
        }
        let (value, at, shift) = bits_at(self.bytes, self.at, self.shift, n);
        self.at = at;
        self.shift = shift;
        Ok(value)
    }

    /// The next bit. Where none is left it is `Ended`.
    pub fn bit(&mut self) -> Result<bool, Ended>
        ensures value { TakesBit result self.new.left self.old.left }
        ensures place { OnOk result (self.new.place ≡ self.old.place + 1) }
        ensures ended { OnErr result (self.new ≡ self.old) }
        ensures end { SameEnd self.old self.new }
    {
        if self.at == self.bytes.len() {
            return Err(Ended);
        }
        let bit = (self.bytes[self.at] >> (7 - self.shift)) % 2 == 1;
        if self.shift == 7 {
            self.at += 1;
            self.shift = 0;
        } else {
            self.shift += 1;
        }
        Ok(bit)
    }

    /// The number of the next n bits where so many are left. The reader stays where it is.
    pub fn peek(&self, n: u32) -> Option<u32>
        requires { n ≤ 32 }
        ensures value { result ≡ number_in (take_bits n self.now.left) }
        ensures small { IfSome result (λ v. v < 2 ^ n) }
    {
        if !self.has(n) {
            return None;
        }
        let (value, _, _) = bits_at(self.bytes, self.at, self.shift, n);
        Some(value)
    }
}
