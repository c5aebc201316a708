// The lengths of runs (Theora I, 7.2.1 and 7.2.2).
ghost use Rattle.std.specs.Prelude.{◌≡◌, ◌≤◌, ◌<◌, ◌+◌, ◌-◌, ◌*◌, ◌^◌, ◌++◌, Bool, List, IfOk, OnErr, OnOk, length};
ghost use Rattle.vid_base.specs.Bits.{digits};
ghost use Rattle.vid_base.specs.Reading.{Gives, SameEnd, field, one_bit};
ghost use Rattle.thr_flags.specs.RunStrings.{is_renewed, longest, next_value, run_from, run_of, Long, Short};
ghost use Rattle.vid_base.specs.Writing.{Grows, ReadsBack};
ghost use Rattle.thr_flags.specs.Views.{run_form};

use vid_base::{BitReader, BitWriter, NoMem, PacketFault};

/// The code of the runs of a string.
#[derive(Clone, Copy)]
pub(crate) enum RunCode {
    /// Runs of 1 to 4,129 values. Behind the longest comes a new value, which may be the same.
    Long,
    /// Runs of 1 to 30 values. Their values always change.
    Short,
}

/// The next bit.
#[tactic(auto, unfolding(vid_base::specs::Reading::one_bit))]
fn bit(r: &mut BitReader) -> Result<bool, PacketFault>
    ensures value { Gives (λ v. v) result r.new.left (one_bit r.old.left) }
    ensures end { SameEnd r.old r.new }
{
    Ok(r.bit()?)
}

/// The number of the next n bits.
fn number(r: &mut BitReader, n: u32) -> Result<u32, PacketFault>
    requires { n ≤ 16 }
    ensures value { Gives (λ v. v) result r.new.left (field n r.old.left) }
    ensures small { IfOk result (λ v. v < 2 ^ n) }
    ensures end { SameEnd r.old r.new }
{
    Ok(r.take(n)?)
}

/// A run of a row of a table: its least length, and how many bits say how much longer it is.
fn run_from(r: &mut BitReader, least: u32, n: u32) -> Result<u32, PacketFault>
    requires least { (0 < least) × (least < 2 ^ 8) }
    requires n { n ≤ 12 }
    ensures value { Gives (λ v. v) result r.new.left (run_from (least, n) r.old.left) }
    ensures some { IfOk result (λ v. 0 < v) }
    ensures small { IfOk result (λ v. v < 2 ^ 16) }
    ensures end { SameEnd r.old r.new }
{
    Ok(least + number(r, n)?)
}

/// The next run of a long string.
#[tactic(auto, unfolding(crate::specs::RunStrings::run_of))]
fn long_run(r: &mut BitReader) -> Result<u32, PacketFault>
    ensures value { Gives (λ v. v) result r.new.left (run_of Long r.old.left) }
    ensures some { IfOk result (λ v. 0 < v) }
    ensures small { IfOk result (λ v. v < 2 ^ 16) }
    ensures end { SameEnd r.old r.new }
{
    if !bit(r)? {
        return run_from(r, 1, 0);
    }
    if !bit(r)? {
        return run_from(r, 2, 1);
    }
    if !bit(r)? {
        return run_from(r, 4, 1);
    }
    if !bit(r)? {
        return run_from(r, 6, 2);
    }
    if !bit(r)? {
        return run_from(r, 10, 3);
    }
    if !bit(r)? {
        return run_from(r, 18, 4);
    }
    run_from(r, 34, 12)
}

/// The next run of a short string.
#[tactic(auto, unfolding(crate::specs::RunStrings::run_of))]
fn short_run(r: &mut BitReader) -> Result<u32, PacketFault>
    ensures value { Gives (λ v. v) result r.new.left (run_of Short r.old.left) }
    ensures some { IfOk result (λ v. 0 < v) }
    ensures small { IfOk result (λ v. v < 2 ^ 16) }
    ensures end { SameEnd r.old r.new }
{
    if !bit(r)? {
        return run_from(r, 1, 1);
    }
    if !bit(r)? {
        return run_from(r, 3, 1);
    }
    if !bit(r)? {
        return run_from(r, 5, 1);
    }
    if !bit(r)? {
        return run_from(r, 7, 2);
    }
    if !bit(r)? {
        return run_from(r, 11, 2);
    }
    run_from(r, 15, 4)
}

/// A row of a table of runs: the bits in front of it as a number and how many they are, its shortest run, and how many
/// bits say how much longer a run is.
#[derive(Clone, Copy)]
struct Row {
    front: u32,
    width: u32,
    least: u32,
    n: u32,
}

fn table_row(front: u32, width: u32, least: u32, n: u32) -> Row
    ensures { result ≡ record { front = front; width = width; least = least; n = n } }
{
    Row {
        front,
        width,
        least,
        n,
    }
}

/// The row of a run of a long string.
#[tactic(auto, unfolding(crate::specs::RunStrings::run_of, vid_base::specs::Reading::one_bit, vid_base::specs::Bits::digits))]
fn long_row(run: u32) -> Row
    requires { (0 < run) × (run ≤ 4129) }
    ensures front { (rest : List Bool) → run_of Long (digits result.width result.front ++ rest) ≡ run_from (result.least, result.n) rest }
    ensures within { (result.least ≤ run) × (run - result.least < 2 ^ result.n) }
    ensures small { (result.width ≤ 6) × (result.front < 2 ^ result.width) × (result.n ≤ 12) }
    ensures few { result.width + result.n ≤ 2 * run }
{
    match run {
        1 => table_row(0, 1, 1, 0),
        2..=3 => table_row(0b10, 2, 2, 1),
        4..=5 => table_row(0b110, 3, 4, 1),
        6..=9 => table_row(0b1110, 4, 6, 2),
        10..=17 => table_row(0b1_1110, 5, 10, 3),
        18..=33 => table_row(0b11_1110, 6, 18, 4),
        _ => table_row(0b11_1111, 6, 34, 12),
    }
}

/// The row of a run of a short string.
#[tactic(auto, unfolding(crate::specs::RunStrings::run_of, vid_base::specs::Reading::one_bit, vid_base::specs::Bits::digits))]
fn short_row(run: u32) -> Row
    requires { (0 < run) × (run ≤ 30) }
    ensures front { (rest : List Bool) → run_of Short (digits result.width result.front ++ rest) ≡ run_from (result.least, result.n) rest }
    ensures within { (result.least ≤ run) × (run - result.least < 2 ^ result.n) }
    ensures small { (result.width ≤ 6) × (result.front < 2 ^ result.width) × (result.n ≤ 12) }
    ensures few { result.width + result.n ≤ 2 * run }
{
    match run {
        1..=2 => table_row(0, 1, 1, 1),
        3..=4 => table_row(0b10, 2, 3, 1),
        5..=6 => table_row(0b110, 3, 5, 1),
        7..=10 => table_row(0b1110, 4, 7, 2),
        11..=14 => table_row(0b1_1110, 5, 11, 2),
        _ => table_row(0b1_1111, 5, 15, 4),
    }
}

impl RunCode {
    /// The row of a run.
    fn row_of(self, run: u32) -> Row
        requires { (0 < run) × (run ≤ longest (run_form self)) }
        ensures front { (rest : List Bool) → run_of (run_form self) (digits result.width result.front ++ rest) ≡ run_from (result.least, result.n) rest }
        ensures within { (result.least ≤ run) × (run - result.least < 2 ^ result.n) }
        ensures small { (result.width ≤ 6) × (result.front < 2 ^ result.width) × (result.n ≤ 12) }
        ensures few { result.width + result.n ≤ 2 * run }
    {
        match self {
            RunCode::Long => long_row(run),
            RunCode::Short => short_row(run),
        }
    }

    /// Writes the length of a run.
    pub(crate) fn write_run(self, w: &mut BitWriter, run: u32) -> Result<(), NoMem>
        requires { (0 < run) × (run ≤ longest (run_form self)) }
        ensures reads_back { OnOk result (ReadsBack (run_of (run_form self)) run w.old w.new) }
        ensures few { OnOk result (length w.new ≤ length w.old + 2 * run) }
        ensures most { OnOk result (length w.new ≤ length w.old + 18) }
        ensures memory { OnErr result (Grows w.old w.new) }
    {
        let row = self.row_of(run);
        w.put(row.front, row.width)?;
        w.put(run - row.least, row.n)
    }

    /// The longest run.
    pub(crate) fn longest(self) -> u32
        ensures { result ≡ longest (run_form self) }
    {
        match self {
            RunCode::Long => 4_129,
            RunCode::Short => 30,
        }
    }

    /// Whether the run behind a run of this length has a value of its own.
    pub(crate) fn is_renewed(self, run: u32) -> bool
        ensures { result ≡ is_renewed (run_form self) run }
    {
        match self {
            RunCode::Long => run == 4_129,
            RunCode::Short => false,
        }
    }

    /// Reads the length of a run.
    pub(crate) fn read_run(self, r: &mut BitReader) -> Result<u32, PacketFault>
        ensures value { Gives (λ v. v) result r.new.left (run_of (run_form self) r.old.left) }
        ensures some { IfOk result (λ v. 0 < v) }
        ensures small { IfOk result (λ v. v < 2 ^ 16) }
        ensures end { SameEnd r.old r.new }
    {
        match self {
            RunCode::Long => long_run(r),
            RunCode::Short => short_run(r),
        }
    }

    /// The value of the run behind a run, whose value is given too.
    #[tactic(auto, unfolding(crate::specs::RunStrings::next_value))]
    pub(crate) fn next_value(
        self,
        r: &mut BitReader,
        run: u32,
        value: bool,
    ) -> Result<bool, PacketFault>
        ensures value { Gives (λ v. v) result r.new.left (next_value (run_form self) run value r.old.left) }
        ensures end { SameEnd r.old r.new }
    {
        if self.is_renewed(run) {
            bit(r)
        } else {
            Ok(!value)
        }
    }

    /// The value of a string's first run.
    pub(crate) fn first_value(self, r: &mut BitReader) -> Result<bool, PacketFault>
        ensures value { Gives (λ v. v) result r.new.left (one_bit r.old.left) }
        ensures end { SameEnd r.old r.new }
    {
        bit(r)
    }
}
