// Reading an edit list (own).
ghost use Rattle.std.specs.Prelude.{◌≡◌, ◌<◌, ◌≤◌, ◌++◌, Err, IfErr, IfOk, Ok, OnOk, Option, length};
ghost use Rattle.cut_list.specs.Answers.{IsBad, IsBadLine, said_behind_head};
ghost use Rattle.cut_list.specs.EditList.{BadLine, bad_before, line_of, lines_of, list_of, slice_before, slices_from, slices_in};
ghost use Rattle.cut_list.specs.Slices.{Slices, slices_view};
ghost use Rattle.cut_list.specs.declared.fault.ListFault.TheVariants.{NoMem};

use crate::fault::{ListFault, Why};
use crate::line::{first_line, read_line};
use crate::list::{List, Slice};
use std::alloc::Global;

/// The first line of every list.
const HEAD: &[u8] = b"oggcut 1";

// Reads a line behind the head, and adds the slice that it says, where it says one.
fn add_line(slices: &mut Vec<Slice>, line: u32, bytes: &[u8]) -> Result<(), ListFault>
    ensures slice { OnOk result ((later : Slices) →
        slices_view slices.new.items ++ later ≡ slices_view slices.old.items ++ slice_before (line_of line bytes.now) later) }
    ensures good { OnOk result ((later : Option BadLine) → bad_before line (line_of line bytes.now) later ≡ later) }
    ensures few { OnOk result (line ≤ 10000) }
    ensures bad { IfErr result (λ fault. (later : Option BadLine) → IsBadLine fault (bad_before line (line_of line bytes.now) later)) }
    ensures needed { result ≡ Err NoMem → (later : Slices) → 0 < length (slice_before (line_of line bytes.now) later) }
{
    match read_line(line, bytes) {
        Err(why) => Err(ListFault::Bad { line, why }),
        Ok(None) => Ok(()),
        Ok(Some(slice)) => Ok(slices.push(slice)?),
    }
}

// The slices of the lines behind the head.
fn read_slices(alloc: Global, text: &[u8]) -> Result<List, ListFault>
    ensures value { IfOk result (λ list. said_behind_head (lines_of text.now) ≡ Ok (slices_view list.slices.items)) }
    ensures first_bad { IfErr result (λ fault. IsBad fault (said_behind_head (lines_of text.now))) }
    ensures needed { result ≡ Err NoMem → 0 < length (slices_from 2 (lines_of text.now)) }
{
    let mut slices = Vec::new(alloc);
    let mut line = 1;
    let mut rest = text;
    'lines: while !rest.is_empty() {
        let next = first_line(rest);
        line += 1;
        add_line(&mut slices, line, next.bytes)?;
        rest = next.behind;
    }
    if slices.is_empty() {
        return Err(ListFault::Bad {
            line: line + 1,
            why: Why::NoItem,
        });
    }
    Ok(List { slices })
}

/// The slices that a text says, or its first bad line with the first why. The text may have any bytes and any length.
pub fn read_list(alloc: Global, text: &[u8]) -> Result<List, ListFault>
    ensures value { IfOk result (λ list. list_of text.now ≡ Ok (slices_view list.slices.items)) }
    ensures first_bad { IfErr result (λ fault. IsBad fault (list_of text.now)) }
    // Memory is taken for slices alone.
    ensures needed { result ≡ Err NoMem → 0 < length (slices_in (lines_of text.now)) }
{
    let no_head = ListFault::Bad {
        line: 1,
        why: Why::Head,
    };
    if text.is_empty() {
        return Err(no_head);
    }
    let head = first_line(text);
    if head.bytes != HEAD {
        return Err(no_head);
    }
    read_slices(alloc, head.behind)
}
