// The runs of a list (own).
ghost use Rattle.std.specs.Prelude.{◌≡◌, ◌<◌, Err, IfErr, IfOk, None, Ok, length, map};
ghost use Rattle.cut_list.specs.Slices.{slices_view};
ghost use Rattle.cut_plan.specs.Range.{first_outside};
ghost use Rattle.cut_plan.specs.Runs.{plan_of};
ghost use Rattle.cut_plan.specs.Views.{IsOutside, marks_view};
ghost use Rattle.cut_plan.specs.declared.fault.PlanFault.TheVariants.{NoMem};

use crate::fault::PlanFault;
use crate::join::runs_of;
use crate::range::first_outside;
use crate::run::Run;
use cut_list::List;
use std::alloc::Global;

/// The runs of a list, or its first line out of range. `counts` are the frames of the sources, and `keys` tell of each frame
/// whether it is a key frame.
///
/// A slice is out of range that names no source, ends past its source's frames, or makes the frames of the list more than
/// 2^24. Each joined slice gives a Code run of its forced frames, where there are any, and a Copy run of the rest, where there
/// is one.
pub fn plan(
    alloc: Global,
    list: &List,
    counts: &[u32],
    keys: &[Vec<bool>],
) -> Result<Vec<Run>, PlanFault>
    requires sized { map (λ marks. length marks) (marks_view keys.now) ≡ counts.now }
    ensures value { IfOk result (λ runs. plan_of counts.now (marks_view keys.now) (slices_view list.now.slices.items) ≡ Ok runs.items) }
    ensures range { IfErr result (λ fault. IsOutside fault (plan_of counts.now (marks_view keys.now) (slices_view list.now.slices.items))) }
    // Memory is taken for runs alone.
    ensures needed { result ≡ Err NoMem → first_outside counts.now 0 (slices_view list.now.slices.items) ≡ None }
    ensures some { result ≡ Err NoMem → 0 < length list.now.slices.items }
{
    match first_outside(&list.slices, counts) {
        Some(line) => Err(PlanFault::Range { line }),
        None => runs_of(alloc, &list.slices, keys),
    }
}
