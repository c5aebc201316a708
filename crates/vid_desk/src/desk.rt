// The outside, as calls on one trait (own).
ghost use Rattle.std.specs.Prelude.{◌≡◌, ◌+◌, ◌-◌, ◌^◌, ◌<◌, ◌≤◌, List, length, take, drop, min, Some, OnOk, OnErr, IfOk};
ghost use Rattle.vid_desk.specs.Meaning.{File, Meaning, Told, ToldFiles, Finds, Found, Creates, Appends, Says, HasCause, Rose, Stands};

use crate::{DeskFault, Failed};

/// Inputs that are found by name and read, outputs that are created and grow at their end, and printed text.
///
/// A desk may tell its files, its text and the names that it was asked for; it always tells five counts. No call
/// changes the inputs. Where a clause does not name a part of the meaning, the call leaves it as it is. The counts of
/// faults and `asked` are of 64 bits and stay at their end once they are there.
pub trait Desk {
    /// What the desk tells of the outside, and its counts.
    ghost sees: { Self → Meaning };

    /// The id of the first input of that name, which is its place among the inputs; None where no input has it.
    fn find(&mut self, name: &str) -> Result<Option<u32>, DeskFault>
        ensures kept { Finds (sees self.old) (sees self.new) name.now result }
        ensures found { IfOk result (Found (sees self.new) name.now) }
        ensures count { (sees self.old).found ≤ (sees self.new).found }
        ensures cause { HasCause (sees self.old).read_faults (sees self.new).read_faults result }
        ensures stands { Stands (sees self.old).read_faults (sees self.new).read_faults };

    /// An input's length in bytes.
    fn size(&mut self, id: u32) -> Result<u64, Failed>
        requires id { id < (sees self.old).found }
        ensures kept { sees self.new ≡ record (sees self.old) { read_faults = (sees self.new).read_faults } }
        ensures size { IfOk result (λ n. Told (sees self.old) id (λ bytes. n ≡ length bytes)) }
        ensures count { (sees self.old).read_faults ≤ (sees self.new).read_faults }
        ensures cause { OnErr result (Rose (sees self.old).read_faults (sees self.new).read_faults) }
        ensures stands { Stands (sees self.old).read_faults (sees self.new).read_faults };

    /// Fills all of `buf` with an input's bytes from byte `pos` on. After Failed its bytes may be any. Where the inputs
    /// are not told, a range past the input's end is Failed.
    fn read_at(&mut self, id: u32, pos: u64, buf: &mut [u8]) -> Result<(), Failed>
        requires id { id < (sees self.old).found }
        requires range { Told (sees self.old) id (λ bytes. pos + length buf.old ≤ length bytes) }
        ensures kept { sees self.new ≡ record (sees self.old) {
          read_faults = (sees self.new).read_faults;
          asked = min ((sees self.old).asked + length buf.old) (2 ^ 64 - 1);
        } }
        ensures bytes { OnOk result (Told (sees self.old) id (λ bytes. buf.new ≡ take (length buf.old) (drop pos bytes))) }
        ensures asked { (sees self.old).asked ≤ (sees self.new).asked }
        ensures count { (sees self.old).read_faults ≤ (sees self.new).read_faults }
        ensures cause { OnErr result (Rose (sees self.old).read_faults (sees self.new).read_faults) }
        ensures stands { Stands (sees self.old).read_faults (sees self.new).read_faults };

    /// The id of a new, empty output of that name, which is its place among the outputs. After a refusal the outputs
    /// are as before.
    fn create(&mut self, name: &str) -> Result<u32, DeskFault>
        ensures made { Creates (sees self.old) (sees self.new) name.now result }
        ensures count { (sees self.old).made ≤ (sees self.new).made }
        ensures cause { HasCause (sees self.old).write_faults (sees self.new).write_faults result }
        ensures stands { Stands (sees self.old).write_faults (sees self.new).write_faults };

    /// The piece comes to an output's end; after Failed a first part of it.
    fn append(&mut self, id: u32, piece: &[u8]) -> Result<(), DeskFault>
        requires id { id < (sees self.old).made }
        ensures appended { Appends (sees self.old) (sees self.new) id piece.now result }
        ensures cause { HasCause (sees self.old).write_faults (sees self.new).write_faults result }
        ensures stands { Stands (sees self.old).write_faults (sees self.new).write_faults };

    /// The piece is printed; after Failed a first part of it.
    fn say(&mut self, piece: &[u8]) -> Result<(), DeskFault>
        ensures said { Says (sees self.old) (sees self.new) piece.now result }
        ensures cause { HasCause (sees self.old).write_faults (sees self.new).write_faults result }
        ensures stands { Stands (sees self.old).write_faults (sees self.new).write_faults };

    /// Where the inputs are told, those that were found are among them.
    ghost found_in: { (desk : Self) → ToldFiles (sees desk) (λ files. (sees desk).found ≤ length files) };

    /// Where the outputs are told, those that were made are among them.
    ghost made_in: { (desk : Self) → (files : List File) → (sees desk).outputs ≡ Some files →
        (sees desk).made ≤ length files };
}

/// One fault more; a count stays at its end.
pub(crate) fn count_fault(count: &mut u64)
    ensures risen { count.new ≡ min (count.old + 1) (2 ^ 64 - 1) }
    ensures later { count.old ≤ count.new }
{
    *count = count.saturating_add(1);
}
