// Judging a file while it is read (own).
ghost use Rattle.std.specs.Prelude.{◌≡◌, ℕ, List, ◌<◌, ◌≤◌, length, OnOk, IsErrOf};
ghost use Rattle.vid_desk.specs.Meaning.{Rose, Told, with_reads};
ghost use Rattle.src_index.specs.Judging.{before_of, GoesOn, Follows, Turns};
ghost use Rattle.src_index.specs.Ahead.{LiesIn};

use crate::ahead::Ahead;
use crate::fault::Refusal;
use crate::judge::Judging;
use std::alloc::Global;
use vid_desk::Desk;

// Reads and judges the next page.
fn turn<D: Desk>(desk: &mut D, ahead: &mut Ahead, judging: &mut Judging) -> Result<(), Refusal>
    requires id { ahead.old.id < (D.sees desk.old).found }
    requires lies { Told (D.sees desk.old) ahead.old.id (LiesIn ahead.old) }
    requires some { ahead.old.at < ahead.old.size }
    requires goes_on { GoesOn judging.old }
    ensures judged { Told (D.sees desk.old) ahead.old.id (λ bytes. Follows bytes judging.old ahead.old.at → Turns result bytes judging.new ahead.new.at) }
    ensures of { (ahead.new.id ≡ ahead.old.id) × (ahead.new.size ≡ ahead.old.size) }
    ensures lies { OnOk result (Told (D.sees desk.old) ahead.old.id (LiesIn ahead.new)) }
    ensures later { OnOk result (ahead.old.at < ahead.new.at) }
    ensures goes_on { OnOk result (GoesOn judging.new) }
    ensures kept { with_reads (D.sees desk.old) (D.sees desk.new) }
    ensures count { (D.sees desk.old).read_faults ≤ (D.sees desk.new).read_faults }
    ensures cause { IsErrOf result Refusal.ReadFault → Rose (D.sees desk.old).read_faults (D.sees desk.new).read_faults }
{
    ahead.fill(desk)?;
    match judging.judge_page(ahead.window(), ahead.at) {
        Ok(count) => {
            ahead.pass(count);
            Ok(())
        }
        Err(refusal) => Err(refusal),
    }
}

// Reads and judges all pages.
pub(crate) fn judge_pages<D: Desk>(
    alloc: Global,
    desk: &mut D,
    id: u32,
    size: u64,
    judging: &mut Judging,
) -> Result<(), Refusal>
    requires id { id < (D.sees desk.old).found }
    requires size { Told (D.sees desk.old) id (λ bytes. size ≡ length bytes) }
    requires fresh { (bytes : List ℕ) → Follows bytes judging.old 0 }
    requires goes_on { GoesOn judging.old }
    ensures judged { Told (D.sees desk.old) id (λ bytes. Turns result bytes judging.new size) }
    ensures goes_on { OnOk result (GoesOn judging.new) }
    ensures kept { with_reads (D.sees desk.old) (D.sees desk.new) }
    ensures count { (D.sees desk.old).read_faults ≤ (D.sees desk.new).read_faults }
    ensures cause { IsErrOf result Refusal.ReadFault → Rose (D.sees desk.old).read_faults (D.sees desk.new).read_faults }
{
    let mut ahead = Ahead::new(alloc, id, size)?;
    'pages: while ahead.at < size {
        turn(desk, &mut ahead, judging)?;
    }
    Ok(())
}
