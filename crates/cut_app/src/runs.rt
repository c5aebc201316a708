// The runs of a list, and the text of a plan (own).
ghost use Rattle.std.specs.Prelude.{◌≡◌, ◌+◌, ◌^◌, ◌≤◌, ◌++◌, ◌∷◌, [], Ok, IfErr, IfOk, OnErr, OnOk};
ghost use Rattle.src_index.specs.Index.{frame_count, keys_of};
ghost use Rattle.cut_list.specs.Slices.{slices_view};
ghost use Rattle.cut_plan.specs.Runs.{coded_by, copied_by, frames_coded, frames_copied, plan_of};
ghost use Rattle.cut_app.specs.Plans.{line_of_run, plan_text};
ghost use Rattle.cut_app.specs.Steps.{RefusesRange};

use cut_list::List;
use cut_plan::{PlanFault, Run, plan};
use cut_report::{Status, run_line, total_line};
use src_index::Source;
use std::alloc::Global;
use vid_base::NoMem;

// Which frames of a source are key frames.
fn keys(alloc: Global, source: &Source) -> Result<Vec<bool>, NoMem>
    ensures { IfOk result (λ keys. keys.items ≡ keys_of source.now) }
{
    let mut keys = Vec::new(alloc);
    'frames: for n in 0..source.frames() {
        keys.push(source.is_key(n))?;
    }
    Ok(keys)
}

/// The runs of a list over its one source.
pub(crate) fn runs_of(alloc: Global, list: &List, source: &Source) -> Result<Vec<Run>, Status>
    ensures runs { IfOk result (λ runs. plan_of (frame_count source.now ∷ []) (keys_of source.now ∷ []) (slices_view list.now.slices.items) ≡ Ok runs.items) }
    ensures few { IfOk result (λ runs. frames_copied runs.items + frames_coded runs.items ≤ 2 ^ 24) }
    ensures refused { IfErr result (RefusesRange source.now (slices_view list.now.slices.items)) }
{
    let Ok(keys) = keys(alloc, source) else {
        return Err(Status::NoMem);
    };
    match plan(alloc, list, &[source.frames()], &[keys]) {
        Ok(runs) => Ok(runs),
        Err(PlanFault::Range { line }) => Err(Status::Range { line }),
        Err(PlanFault::NoMem) => Err(Status::NoMem),
    }
}

// How many frames a run copies.
fn copied_by(run: &Run) -> u64
    ensures { result ≡ copied_by run.now }
{
    match *run {
        Run::Copy { first, past, .. } => past.saturating_sub(first).into(),
        Run::Code { .. } => 0,
    }
}

// How many frames a run codes.
fn coded_by(run: &Run) -> u64
    ensures { result ≡ coded_by run.now }
{
    match *run {
        Run::Copy { .. } => 0,
        Run::Code { first, past, .. } => past.saturating_sub(first).into(),
    }
}

// Adds the line of a run.
fn add_line(text: &mut Vec<u8>, run: &Run) -> Result<(), NoMem>
    ensures text { OnOk result (text.new.items ≡ text.old.items ++ line_of_run run.now) }
{
    match *run {
        Run::Copy { src, first, past } => run_line(text, true, src, first, past),
        Run::Code { src, first, past } => run_line(text, false, src, first, past),
    }
}

/// The lines of a plan's runs, and how many frames they copy and code.
pub(crate) fn text_of(alloc: Global, runs: &[Run]) -> Result<Vec<u8>, NoMem>
    requires few { frames_copied runs.now + frames_coded runs.now ≤ 2 ^ 24 }
    ensures { IfOk result (λ text. text.items ≡ plan_text runs.now) }
{
    let mut text = Vec::new(alloc);
    let mut copied = 0u64;
    let mut coded = 0u64;
    'runs: for run in runs {
        add_line(&mut text, run)?;
        copied += copied_by(run);
        coded += coded_by(run);
    }
    total_line(&mut text, copied, coded)?;
    Ok(text)
}
