// Reading a file in pieces (own).
ghost use Rattle.std.specs.Prelude.{◌≡◌, ◌<◌, ◌≤◌, ◌+◌, ◌-◌, ◌*◌, ℕ, List, IfOk, OnErr, OnOk, length, vec_len};
ghost use Rattle.vid_desk.specs.Meaning.{Rose, Told, with_reads};

use std::alloc::{AllocError, Global};
use vid_desk::{Desk, Failed};

/// The bytes of the largest page, which are the most of a piece.
const PIECE: usize = 65_307;

/// The bytes of an input that were read and are not yet judged. They lie in `buf` from `first` to before `past`.
#[derive(Drop)]
pub(crate) struct Ahead {
    pub(crate) id: u32,
    /// How many bytes the input has.
    pub(crate) size: u64,
    /// The byte of the input that lies at `first`.
    pub(crate) at: u64,
    pub(crate) first: usize,
    pub(crate) past: usize,
    pub(crate) buf: Vec<u8>,
    ghost order: { first ≤ past },
    ghost room: { vec_len buf ≡ 3 * 65307 },
    ghost within: { past ≤ vec_len buf },
    ghost in_file: { at + (past - first) ≤ size },
}

// So many zeros.
fn zeros(alloc: Global, count: usize) -> Result<Vec<u8>, AllocError>
    ensures { IfOk result (λ zeros. vec_len zeros ≡ count) }
{
    Vec::from_elem(alloc, 0u8, count)
}

impl Ahead {
    ghost use Rattle.src_index.specs.Ahead.{window_of, LiesIn, HasPages, HasMore, StaysAt};

    // Before the first piece.
    #[tactic(auto, using(crate::proofs::AheadLemmas::lies_at_start))]
    pub(crate) fn new(alloc: Global, id: u32, size: u64) -> Result<Ahead, AllocError>
        ensures of { IfOk result (λ ahead. (ahead.id ≡ id) × (ahead.size ≡ size) × (ahead.at ≡ 0)) }
        ensures lies { IfOk result (λ ahead. (bytes : List ℕ) → size ≡ length bytes → LiesIn ahead bytes) }
    {
        Ok(Ahead {
            id,
            size,
            at: 0,
            first: 0,
            past: 0,
            buf: zeros(alloc, 3 * PIECE)?,
        })
    }

    // The bytes that lie ahead.
    pub(crate) fn window(&self) -> &[u8]
        ensures { result.now ≡ window_of self.now }
    {
        &self.buf[self.first..self.past]
    }

    // So many of them are judged.
    pub(crate) fn pass(&mut self, count: usize)
        requires { count ≤ self.old.past - self.old.first }
        ensures of { (self.new.id ≡ self.old.id) × (self.new.size ≡ self.old.size) }
        ensures at { self.new.at ≡ self.old.at + count }
        ensures lies { (bytes : List ℕ) → LiesIn self.old bytes → LiesIn self.new bytes }
    {
        self.first += count;
        self.at += count as u64;
    }

    // Moves them to the front of the buffer.
    fn move_to_front(&mut self)
        ensures stays { StaysAt self.old self.new }
        ensures window { window_of self.new ≡ window_of self.old }
        ensures place { (self.new.first ≡ 0) × (self.new.past ≡ self.old.past - self.old.first) }
    {
        let count = self.past - self.first;
        self.buf.copy_within(self.first..self.past, 0);
        self.first = 0;
        self.past = count;
    }

    // Reads a piece more behind them.
    fn read_piece<D: Desk>(&mut self, desk: &mut D) -> Result<(), Failed>
        requires id { self.old.id < (D.sees desk.old).found }
        requires lies { Told (D.sees desk.old) self.old.id (LiesIn self.old) }
        requires place { (self.old.first ≡ 0) × (self.old.past < 2 * 65307) }
        ensures stays { StaysAt self.old self.new }
        ensures lies { OnOk result (Told (D.sees desk.old) self.old.id (LiesIn self.new)) }
        ensures more { OnOk result (HasMore self.old self.new) }
        ensures kept { with_reads (D.sees desk.old) (D.sees desk.new) }
        ensures count { (D.sees desk.old).read_faults ≤ (D.sees desk.new).read_faults }
        ensures cause { OnErr result (Rose (D.sees desk.old).read_faults (D.sees desk.new).read_faults) }
    {
        let left = self.size - self.at - self.past as u64;
        let past = self.past + left.min(PIECE as u64) as usize;
        desk.read_at(
            self.id,
            self.at + self.past as u64,
            &mut self.buf[self.past..past],
        )?;
        self.past = past;
        Ok(())
    }

    // Reads a piece more where those that lie ahead do not hold two of the largest pages. They are moved only then, so that a
    // page costs no move.
    fn read_more<D: Desk>(&mut self, desk: &mut D) -> Result<(), Failed>
        requires id { self.old.id < (D.sees desk.old).found }
        requires lies { Told (D.sees desk.old) self.old.id (LiesIn self.old) }
        ensures stays { StaysAt self.old self.new }
        ensures lies { OnOk result (Told (D.sees desk.old) self.old.id (LiesIn self.new)) }
        ensures more { OnOk result (HasMore self.old self.new) }
        ensures kept { with_reads (D.sees desk.old) (D.sees desk.new) }
        ensures count { (D.sees desk.old).read_faults ≤ (D.sees desk.new).read_faults }
        ensures cause { OnErr result (Rose (D.sees desk.old).read_faults (D.sees desk.new).read_faults) }
    {
        let count = self.past - self.first;
        if count >= 2 * PIECE || self.at + count as u64 == self.size {
            return Ok(());
        }
        self.move_to_front();
        self.read_piece(desk)
    }

    // Reads on until the next page lies ahead, and behind each byte of it as much as the largest page takes.
    pub(crate) fn fill<D: Desk>(&mut self, desk: &mut D) -> Result<(), Failed>
        requires id { self.old.id < (D.sees desk.old).found }
        requires lies { Told (D.sees desk.old) self.old.id (LiesIn self.old) }
        ensures stays { StaysAt self.old self.new }
        ensures lies { OnOk result (Told (D.sees desk.old) self.old.id (LiesIn self.new)) }
        ensures pages { OnOk result (HasPages self.new) }
        ensures kept { with_reads (D.sees desk.old) (D.sees desk.new) }
        ensures count { (D.sees desk.old).read_faults ≤ (D.sees desk.new).read_faults }
        ensures cause { OnErr result (Rose (D.sees desk.old).read_faults (D.sees desk.new).read_faults) }
    {
        self.read_more(desk)?;
        self.read_more(desk)
    }
}
