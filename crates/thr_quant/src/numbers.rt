// 64 numbers of equal width, one behind the other.
ghost use Rattle.std.specs.Prelude.{◌≡◌, ℕ, ◌^◌, ◌<◌, ◌≤◌, ◌++◌, Bool, List, OnOk, OnErr, IfOk};
ghost use Rattle.std.specs.List.{All};
ghost use Rattle.vid_base.specs.Items.{items, all_digits};
ghost use Rattle.vid_base.specs.Reading.{GivesOrEnded, SameEnd, field};
ghost use Rattle.thr_quant.specs.Limits.{width_of};

use vid_base::{BitReader, BitWriter, Ended, NoMem, ilog};

/// Reads 64 numbers of that many bits, at most 8.
pub fn read_bytes(r: &mut BitReader, width: u32) -> Result<[u8; 64], Ended>
    requires { width ≤ 8 }
    ensures value { GivesOrEnded (λ numbers. numbers) result r.new.left (items (field width) 64 r.old.left) }
    ensures small { IfOk result (λ numbers. All (λ v. v < 2 ^ width) numbers) }
    ensures end { SameEnd r.old r.new }
{
    let mut numbers = [0; 64];
    for number in numbers.iter_mut() {
        *number = r.take(width)? as u8;
    }
    Ok(numbers)
}

/// Reads 64 numbers of that many bits, at most 16.
pub fn read_words(r: &mut BitReader, width: u32) -> Result<[u16; 64], Ended>
    requires { width ≤ 16 }
    ensures value { GivesOrEnded (λ numbers. numbers) result r.new.left (items (field width) 64 r.old.left) }
    ensures end { SameEnd r.old r.new }
{
    let mut numbers = [0; 64];
    for number in numbers.iter_mut() {
        *number = r.take(width)? as u16;
    }
    Ok(numbers)
}

/// Puts numbers of that many bits, at most 8.
pub fn put_bytes(w: &mut BitWriter, numbers: &[u8], width: u32) -> Result<(), NoMem>
    requires width { width ≤ 8 }
    requires small { All (λ v. v < 2 ^ width) numbers.now }
    ensures written { OnOk result (w.new ≡ w.old ++ all_digits width numbers.now) }
    ensures memory { OnErr result ((more : List Bool) × (w.new ≡ w.old ++ more)) }
{
    for number in numbers {
        w.put(u32::from(*number), width)?;
    }
    Ok(())
}

/// The least width in bits that holds all of these numbers.
pub fn width_of_bytes(numbers: &[u8; 64]) -> u32
    ensures value { result ≡ width_of numbers.now }
    ensures small { All (λ v. v < 2 ^ result) numbers.now }
    ensures least { (k : ℕ) → All (λ v. v < 2 ^ k) numbers.now → result ≤ k }
{
    let mut greatest = 0;
    for number in numbers {
        greatest = greatest.max(*number);
    }
    ilog(u32::from(greatest))
}

/// Puts numbers of that many bits, at most 16.
pub fn put_words(w: &mut BitWriter, numbers: &[u16], width: u32) -> Result<(), NoMem>
    requires width { width ≤ 16 }
    requires small { All (λ v. v < 2 ^ width) numbers.now }
    ensures written { OnOk result (w.new ≡ w.old ++ all_digits width numbers.now) }
    ensures memory { OnErr result ((more : List Bool) × (w.new ≡ w.old ++ more)) }
{
    for number in numbers {
        w.put(u32::from(*number), width)?;
    }
    Ok(())
}

/// The least width in bits that holds all of these numbers.
pub fn width_of_words(numbers: &[u16; 64]) -> u32
    ensures value { result ≡ width_of numbers.now }
    ensures bound { result ≤ 16 }
    ensures small { All (λ v. v < 2 ^ result) numbers.now }
    ensures least { (k : ℕ) → All (λ v. v < 2 ^ k) numbers.now → result ≤ k }
{
    let mut greatest = 0;
    for number in numbers {
        greatest = greatest.max(*number);
    }
    ilog(u32::from(greatest))
}
