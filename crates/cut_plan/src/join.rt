// The runs of joined slices (own).
ghost use Rattle.std.specs.Prelude.{◌≡◌, ◌<◌, ◌≤◌, ◌∷◌, ◌++◌, Err, IfOk, OnErr, OnOk, length, map};
ghost use Rattle.cut_list.specs.Slices.{slice_view, slices_view};
ghost use Rattle.cut_plan.specs.Forced.{marks_of};
ghost use Rattle.cut_plan.specs.Runs.{all_runs, runs_of};
ghost use Rattle.cut_plan.specs.Spans.{Spans, join, joined, span_of};
ghost use Rattle.cut_plan.specs.Views.{AreInside, IsSpan, marks_view, span_view};
ghost use Rattle.cut_plan.specs.declared.fault.PlanFault.TheVariants.{NoMem};

use crate::fault::PlanFault;
use crate::run::Run;
use crate::span::Span;
use cut_list::Slice;
use std::alloc::Global;

// Which frames of a source are key frames.
fn marks_of(keys: &[Vec<bool>], src: u32) -> &[bool]
    requires { (1 ≤ src) × (src ≤ length keys.now) }
    ensures { result.now ≡ marks_of (marks_view keys.now) src }
{
    &keys[src as usize - 1]
}

// Adds the runs of a joined slice.
#[tactic(auto, unfolding(crate::specs::Runs::runs_of))]
fn add_runs(runs: &mut Vec<Run>, span: Span, keys: &[Vec<bool>]) -> Result<(), PlanFault>
    requires { IsSpan (marks_view keys.now) (span_view span) }
    ensures added { OnOk result (let marks = marks_view keys.now in
        runs.new.items ≡ runs.old.items ++ runs_of (marks_of marks span.src) (span_view span)) }
    ensures memory { OnErr result (result ≡ Err NoMem) }
{
    let key = span.first_key(marks_of(keys, span.src));
    if span.first < key {
        runs.push(Run::Code {
            src: span.src,
            first: span.first,
            past: key,
        })?;
    }
    if key < span.past {
        runs.push(Run::Copy {
            src: span.src,
            first: key,
            past: span.past,
        })?;
    }
    Ok(())
}

// Joins a slice to the span before it, or adds the runs of that span and begins another.
#[tactic(auto, using(crate::proofs::JoinLemmas::join_touching, crate::proofs::JoinLemmas::join_apart))]
fn go_on(
    runs: &mut Vec<Run>,
    span: Span,
    slice: &Slice,
    keys: &[Vec<bool>],
) -> Result<Span, PlanFault>
    requires span { IsSpan (marks_view keys.now) (span_view span) }
    requires slice { IsSpan (marks_view keys.now) (span_of (slice_view slice.now)) }
    ensures joined { IfOk result (λ next. let marks = marks_view keys.now in (later : Spans) →
        runs.new.items ++ all_runs marks (join (span_view next) later)
        ≡ runs.old.items ++ all_runs marks (join (span_view span) (join (span_of (slice_view slice.now)) later))) }
    ensures inside { IfOk result (λ next. IsSpan (marks_view keys.now) (span_view next)) }
    ensures memory { OnErr result (result ≡ Err NoMem) }
{
    if span.goes_on_in(slice) {
        return Ok(Span {
            past: slice.past,
            ..span
        });
    }
    add_runs(runs, span, keys)?;
    Ok(Span::of(slice))
}

// The runs of a slice and those behind it.
fn runs_from(
    alloc: Global,
    first: &Slice,
    rest: &[Slice],
    keys: &[Vec<bool>],
) -> Result<Vec<Run>, PlanFault>
    requires { AreInside (marks_view keys.now) (slice_view first.now ∷ slices_view rest.now) }
    ensures value { IfOk result (λ runs. let marks = marks_view keys.now in
        runs.items ≡ all_runs marks (joined (slice_view first.now ∷ slices_view rest.now))) }
    ensures memory { OnErr result (result ≡ Err NoMem) }
{
    let mut runs = Vec::new(alloc);
    let mut span = Span::of(first);
    for slice in rest {
        span = go_on(&mut runs, span, slice, keys)?;
    }
    add_runs(&mut runs, span, keys)?;
    Ok(runs)
}

/// The runs of slices of which each lies in its source.
pub(crate) fn runs_of(
    alloc: Global,
    slices: &[Slice],
    keys: &[Vec<bool>],
) -> Result<Vec<Run>, PlanFault>
    requires { AreInside (marks_view keys.now) (slices_view slices.now) }
    ensures value { IfOk result (λ runs. runs.items ≡ all_runs (marks_view keys.now) (joined (slices_view slices.now))) }
    ensures memory { OnErr result (result ≡ Err NoMem) }
    ensures some { OnErr result (0 < length slices.now) }
{
    match slices {
        [] => Ok(Vec::new(alloc)),
        [first, rest @ ..] => runs_from(alloc, first, rest, keys),
    }
}
