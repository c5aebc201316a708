// Run strings are read (Theora I, 7.2).
ghost use Rattle.std.specs.Prelude.{◌≡◌, ◌≤◌, ◌<◌, ◌+◌, ◌^◌, ◌++◌, [], length, replicate, take, OnErr, OnOk, Err};
ghost use Rattle.vid_base.specs.Reading.{Gives, GivesOrNoMem, KeptOnNoMem, SameEnd};
ghost use Rattle.vid_base.specs.declared.fault.Refusal.TheVariants.{NoMem};
ghost use Rattle.thr_flags.specs.RunStrings.{long_string, run_string, short_string, values};
ghost use Rattle.thr_flags.specs.Views.{run_form};

use crate::runs::RunCode;
use vid_base::{BitReader, PacketFault, Refusal};

/// Sets a run of values.
pub(crate) fn fill_run(into: &mut [bool], at: usize, run: usize, value: bool)
    requires { at + run ≤ length into.old }
    ensures front { take (at + run) into.new ≡ take at into.old ++ replicate run value }
    ensures len { length into.new ≡ length into.old }
{
    into[at..at + run].fill(value);
}

/// Reads the values from the first run on.
fn read_runs(
    r: &mut BitReader,
    code: RunCode,
    into: &mut [bool],
    first: bool,
    first_run: u32,
) -> Result<(), PacketFault>
    requires some { 0 < length into.old }
    requires small { first_run < 2 ^ 16 }
    requires run { 0 < first_run }
    ensures value { Gives (λ _. into.new) result r.new.left (values (run_form code) (length into.old) first_run first_run first r.old.left) }
    ensures end { SameEnd r.old r.new }
{
    let mut value = first;
    let mut run = first_run;
    let mut at = 0usize;
    'runs: while run as usize <= into.len() - at {
        fill_run(into, at, run as usize, value);
        at += run as usize;
        if at == into.len() {
            return Ok(());
        }
        value = code.next_value(r, run, value)?;
        run = code.read_run(r)?;
    }
    Err(PacketFault::RunTooLong)
}

/// Reads as many values as the slice is long.
pub(crate) fn read_string(
    r: &mut BitReader,
    code: RunCode,
    into: &mut [bool],
) -> Result<(), PacketFault>
    ensures value { Gives (λ _. into.new) result r.new.left (run_string (run_form code) (length into.old) r.old.left) }
    ensures end { SameEnd r.old r.new }
{
    if into.is_empty() {
        return Ok(());
    }
    let value = code.first_value(r)?;
    let run = code.read_run(r)?;
    read_runs(r, code, into, value, run)
}

/// Reads a long run string of as many values as the slice is long (Theora I, 7.2.1). The first fault is `Ended`, or
/// `RunTooLong` where a run whose bits were all read passes the end of the slice; then the slice's values are open.
pub fn read_long_in(r: &mut BitReader, into: &mut [bool]) -> Result<(), PacketFault>
    ensures value { Gives (λ _. into.new) result r.new.left (long_string (length into.old) r.old.left) }
    ensures end { SameEnd r.old r.new }
{
    read_string(r, RunCode::Long, into)
}

/// Reads a short run string (Theora I, 7.2.2), otherwise as `read_long_in`.
pub fn read_short_in(r: &mut BitReader, into: &mut [bool]) -> Result<(), PacketFault>
    ensures value { Gives (λ _. into.new) result r.new.left (short_string (length into.old) r.old.left) }
    ensures end { SameEnd r.old r.new }
{
    read_string(r, RunCode::Short, into)
}

/// Makes the list as many values long. Those that it has stay, to be read over.
pub(crate) fn size(into: &mut Vec<bool>, n: usize) -> Result<(), Refusal>
    ensures sized { OnOk result (length into.new.items ≡ n) }
    ensures emptied { OnErr result (into.new.items ≡ []) }
    ensures memory { OnErr result (result ≡ Err NoMem) }
{
    if into.resize(n, false).is_err() {
        into.clear();
        return Err(Refusal::NoMem);
    }
    Ok(())
}

/// A reader of a string fills a list in place of a slice.
fn read_string_into(
    r: &mut BitReader,
    code: RunCode,
    n: u32,
    into: &mut Vec<bool>,
) -> Result<(), Refusal>
    ensures value { GivesOrNoMem (λ _. into.new.items) result r.new.left (run_string (run_form code) n r.old.left) }
    ensures emptied { OnErr result (into.new.items ≡ []) }
    ensures memory { KeptOnNoMem result r.old r.new }
    ensures end { SameEnd r.old r.new }
{
    size(into, n as usize)?;
    if let Err(fault) = read_string(r, code, into) {
        into.clear();
        return Err(Refusal::Bad(fault));
    }
    Ok(())
}

/// Reads a long run string of n values into the list in place of those that it has (Theora I, 7.2.1). The first fault is
/// `Ended`, or `RunTooLong` where a run whose bits were all read passes n. After a refusal the list is empty.
pub fn read_long(r: &mut BitReader, n: u32, into: &mut Vec<bool>) -> Result<(), Refusal>
    ensures value { GivesOrNoMem (λ _. into.new.items) result r.new.left (long_string n r.old.left) }
    ensures emptied { OnErr result (into.new.items ≡ []) }
    ensures memory { KeptOnNoMem result r.old r.new }
    ensures end { SameEnd r.old r.new }
{
    read_string_into(r, RunCode::Long, n, into)
}

/// Reads a short run string of n values (Theora I, 7.2.2), otherwise as `read_long`.
pub fn read_short(r: &mut BitReader, n: u32, into: &mut Vec<bool>) -> Result<(), Refusal>
    ensures value { GivesOrNoMem (λ _. into.new.items) result r.new.left (short_string n r.old.left) }
    ensures emptied { OnErr result (into.new.items ≡ []) }
    ensures memory { KeptOnNoMem result r.old r.new }
    ensures end { SameEnd r.old r.new }
{
    read_string_into(r, RunCode::Short, n, into)
}
