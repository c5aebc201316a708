// Run strings are written (Theora I, 7.2).
ghost use Rattle.std.specs.Prelude.{◌≡◌, ◌≤◌, ◌<◌, ◌+◌, ◌++◌, ◌∷◌, [], Bool, List, not, false, length, IfOk, IfSome, OnErr, OnOk, Some};
ghost use Rattle.thr_flags.specs.RunStrings.{HasRunsUpTo, is_renewed, long_string, short_string, RunForm, Short};
ghost use Rattle.vid_base.specs.Writing.{AddsBit, Grows, ReadsBack};
ghost use Rattle.thr_flags.specs.Writing.{AddsString, Fits, Holds, IsRun, most_bits};
ghost use Rattle.thr_flags.specs.Views.{run_form};

use crate::runs::RunCode;
use vid_base::{BitWriter, NoMem};

/// The last run of a string that is being written: its length is written when its end is known.
#[derive(Clone, Copy)]
pub(crate) struct Run {
    pub(crate) value: bool,
    pub(crate) length: u32,
}

/// One bit.
fn put_bit(w: &mut BitWriter, bit: bool) -> Result<(), NoMem>
    ensures written { OnOk result (AddsBit bit w.old w.new) }
    ensures memory { OnErr result (Grows w.old w.new) }
{
    w.put(u32::from(bit), 1)
}

/// The first value of a string.
fn begin(w: &mut BitWriter, value: bool) -> Result<Run, NoMem>
    ensures written { IfOk result (λ run. (code : RunForm) → Holds code w.old w.new (value ∷ []) (Some run)) }
    ensures length { IfOk result (λ run. run.length ≡ 1) }
    ensures memory { OnErr result (Grows w.old w.new) }
{
    put_bit(w, value)?;
    Ok(Run { value, length: 1 })
}

/// The run ends, and a value begins the next.
fn turn(w: &mut BitWriter, code: RunCode, run: Run, value: bool) -> Result<Run, NoMem>
    requires run { IsRun (run_form code) run }
    requires other { is_renewed (run_form code) run.length ≡ false → value ≡ not run.value }
    ensures written { IfOk result (λ next. (old xs : List Bool) → Holds (run_form code) old w.old xs (Some run) → Holds (run_form code) old w.new (xs ++ value ∷ []) (Some next)) }
    ensures length { IfOk result (λ next. next.length ≡ 1) }
    ensures memory { OnErr result (Grows w.old w.new) }
{
    code.write_run(w, run.length)?;
    if code.is_renewed(run.length) {
        put_bit(w, value)?;
    }
    Ok(Run { value, length: 1 })
}

/// One value more of a string.
pub(crate) fn push(
    w: &mut BitWriter,
    code: RunCode,
    last: Option<Run>,
    value: bool,
) -> Result<Option<Run>, NoMem>
    requires run { IfSome last (IsRun (run_form code)) }
    requires fits { IfSome last (λ run. Fits (run_form code) run value) }
    ensures written { IfOk result (λ next. (old xs : List Bool) → Holds (run_form code) old w.old xs last → Holds (run_form code) old w.new (xs ++ value ∷ []) next) }
    ensures run { IfOk result (λ next. IfSome next (IsRun (run_form code))) }
    ensures memory { OnErr result (Grows w.old w.new) }
{
    match last {
        None => Ok(Some(begin(w, value)?)),
        Some(run) => {
            if run.value == value && run.length < code.longest() {
                Ok(Some(Run {
                    value,
                    length: run.length + 1,
                }))
            } else {
                Ok(Some(turn(w, code, run, value)?))
            }
        }
    }
}

/// The end of a string.
pub(crate) fn close(w: &mut BitWriter, code: RunCode, last: Option<Run>) -> Result<(), NoMem>
    requires run { IfSome last (IsRun (run_form code)) }
    ensures reads_back { OnOk result ((old xs : List Bool) → Holds (run_form code) old w.old xs last → AddsString (run_form code) xs old w.new) }
    ensures few { OnOk result ((old xs : List Bool) → Holds (run_form code) old w.old xs last → length w.new ≤ length old + most_bits (length xs)) }
    ensures memory { OnErr result (Grows w.old w.new) }
{
    match last {
        None => Ok(()),
        Some(run) => code.write_run(w, run.length),
    }
}

/// Writes a string of these values.
fn write_string(w: &mut BitWriter, code: RunCode, bits: &[bool]) -> Result<(), NoMem>
    requires { run_form code ≡ Short → HasRunsUpTo 30 bits.now }
    ensures reads_back { OnOk result (AddsString (run_form code) bits.now w.old w.new) }
    ensures few { OnOk result (length w.new ≤ length w.old + most_bits (length bits.now)) }
    ensures memory { OnErr result (Grows w.old w.new) }
{
    let mut last = None;
    'values: for value in bits {
        last = push(w, code, last, *value)?;
    }
    close(w, code, last)
}

/// Writes a long run string of these values (Theora I, 7.2.1). After `NoMem` the bits that were there are followed by
/// others.
pub fn write_long(w: &mut BitWriter, bits: &[bool]) -> Result<(), NoMem>
    ensures reads_back { OnOk result (ReadsBack (long_string (length bits.now)) bits.now w.old w.new) }
    ensures few { OnOk result (length w.new ≤ length w.old + most_bits (length bits.now)) }
    ensures memory { OnErr result (Grows w.old w.new) }
{
    write_string(w, RunCode::Long, bits)
}

/// Writes a short run string of these values, of which no more than 30 equal ones stand in a row (Theora I, 7.2.2). After
/// `NoMem` the bits that were there are followed by others.
pub fn write_short(w: &mut BitWriter, bits: &[bool]) -> Result<(), NoMem>
    requires { HasRunsUpTo 30 bits.now }
    ensures reads_back { OnOk result (ReadsBack (short_string (length bits.now)) bits.now w.old w.new) }
    ensures few { OnOk result (length w.new ≤ length w.old + most_bits (length bits.now)) }
    ensures memory { OnErr result (Grows w.old w.new) }
{
    write_string(w, RunCode::Short, bits)
}
