// The calls of a desk in memory (own).
ghost use Rattle.std.specs.Prelude.{◌≡◌, ◌+◌, ◌-◌, ◌^◌, ◌<◌, ◌≤◌, ◌++◌, ◌⊎◌, ◌↔◌, length, take, drop, min, OnOk, OnErr, IfOk, IsErr, IsErrOf};
ghost use Rattle.vid_desk.specs.Meaning.{Told, Finds, Found, Creates, Appends, Says, HasCause, Rose, Stands, with_more};
ghost use Rattle.vid_desk.specs.Memory.{told, IsToFail, CountsCall, faults_after, part_of};

use super::MemDesk;
use crate::desk::count_fault;
use crate::entry::{Entry, add_name, bytes_at, extend, place_of};
use crate::failing::next_call;
use crate::{Desk, DeskFault, Failed};

/// That many first bytes of a piece, or all where it has fewer.
fn first_bytes(piece: &[u8], count: usize) -> &[u8]
    ensures { result.now ≡ take count piece.now }
{
    &piece[..count.min(piece.len())]
}

impl Desk for MemDesk {
    ghost sees = { told };

    ghost use Rattle.std.proofs.Common.{rules};

    ghost found_in = { λ desk files told. Prim.search rules };

    ghost made_in = { λ desk files told. Prim.search rules };

    fn find(&mut self, name: &str) -> Result<Option<u32>, DeskFault>
        ensures kept { Finds (told self.old) (told self.new) name.now result }
        ensures found { IfOk result (Found (told self.new) name.now) }
        ensures count { length self.old.inputs ≤ length self.new.inputs }
        ensures cause { HasCause self.old.read_faults self.new.read_faults result }
        ensures stands { Stands self.old.read_faults self.new.read_faults }
        ensures fails { IsErrOf result DeskFault.Failed → IsToFail self.old }
        ensures failed { IsToFail self.old → IsErr result }
        ensures faults { self.new.read_faults ≡ faults_after self.old.read_faults result }
        ensures memory { IsErrOf result DeskFault.NoMem → told self.new ≡ told self.old }
        ensures calls { CountsCall self.old self.new }
    {
        let to_fail = next_call(&mut self.calls, &self.failing).is_some();
        add_name(&mut self.sought, self.alloc, name)?;
        if to_fail {
            count_fault(&mut self.read_faults);
            return Err(DeskFault::Failed);
        }
        Ok(place_of(&self.inputs, name))
    }

    fn size(&mut self, id: u32) -> Result<u64, Failed>
        requires id { id < length self.old.inputs }
        ensures kept { told self.new ≡ record (told self.old) { read_faults = self.new.read_faults } }
        ensures size { IfOk result (λ n. Told (told self.old) id (λ bytes. n ≡ length bytes)) }
        ensures count { self.old.read_faults ≤ self.new.read_faults }
        ensures cause { OnErr result (Rose self.old.read_faults self.new.read_faults) }
        ensures stands { Stands self.old.read_faults self.new.read_faults }
        ensures fails { IsErr result ↔ IsToFail self.old }
        ensures faults { OnOk result (self.new.read_faults ≡ self.old.read_faults) }
        ensures counted { OnErr result (self.new.read_faults ≡ min (self.old.read_faults + 1) (2 ^ 64 - 1)) }
        ensures calls { CountsCall self.old self.new }
    {
        if next_call(&mut self.calls, &self.failing).is_some() {
            count_fault(&mut self.read_faults);
            return Err(Failed);
        }
        Ok(bytes_at(&self.inputs, id as usize).len() as u64)
    }

    fn read_at(&mut self, id: u32, pos: u64, buf: &mut [u8]) -> Result<(), Failed>
        requires id { id < length self.old.inputs }
        requires range { Told (told self.old) id (λ bytes. pos + length buf.old ≤ length bytes) }
        ensures kept { told self.new ≡ record (told self.old) {
          read_faults = self.new.read_faults;
          asked = min (self.old.asked + length buf.old) (2 ^ 64 - 1);
        } }
        ensures bytes { OnOk result (Told (told self.old) id (λ bytes. buf.new ≡ take (length buf.old) (drop pos bytes))) }
        ensures asked { self.old.asked ≤ self.new.asked }
        ensures count { self.old.read_faults ≤ self.new.read_faults }
        ensures cause { OnErr result (Rose self.old.read_faults self.new.read_faults) }
        ensures stands { Stands self.old.read_faults self.new.read_faults }
        ensures fails { IsErr result ↔ IsToFail self.old }
        ensures faults { OnOk result (self.new.read_faults ≡ self.old.read_faults) }
        ensures counted { OnErr result (self.new.read_faults ≡ min (self.old.read_faults + 1) (2 ^ 64 - 1)) }
        ensures calls { CountsCall self.old self.new }
    {
        self.asked = self.asked.saturating_add(buf.len() as u64);
        if next_call(&mut self.calls, &self.failing).is_some() {
            count_fault(&mut self.read_faults);
            return Err(Failed);
        }
        let from = pos as usize;
        buf.copy_from_slice(&bytes_at(&self.inputs, id as usize)[from..from + buf.len()]);
        Ok(())
    }

    fn create(&mut self, name: &str) -> Result<u32, DeskFault>
        ensures made { Creates (told self.old) (told self.new) name.now result }
        ensures count { length self.old.outputs ≤ length self.new.outputs }
        ensures cause { HasCause self.old.write_faults self.new.write_faults result }
        ensures stands { Stands self.old.write_faults self.new.write_faults }
        ensures fails { IsErrOf result DeskFault.Failed → IsToFail self.old ⊎ (2 ^ 32 - 1 ≤ length self.old.outputs) }
        ensures failed { IsToFail self.old ⊎ (2 ^ 32 - 1 ≤ length self.old.outputs) → IsErr result }
        ensures faults { self.new.write_faults ≡ faults_after self.old.write_faults result }
        ensures memory { IsErrOf result DeskFault.NoMem → told self.new ≡ told self.old }
        ensures calls { CountsCall self.old self.new }
    {
        let to_fail = next_call(&mut self.calls, &self.failing).is_some();
        if to_fail || self.outputs.len() >= u32::MAX as usize {
            add_name(&mut self.named, self.alloc, name)?;
            count_fault(&mut self.write_faults);
            return Err(DeskFault::Failed);
        }
        let output = Entry::new(self.alloc, name, &[])?;
        self.outputs.reserve(1)?;
        add_name(&mut self.named, self.alloc, name)?;
        let id = self.outputs.len() as u32;
        self.outputs.push(output).unwrap();
        Ok(id)
    }

    fn append(&mut self, id: u32, piece: &[u8]) -> Result<(), DeskFault>
        requires id { id < length self.old.outputs }
        ensures appended { Appends (told self.old) (told self.new) id piece.now result }
        ensures cause { HasCause self.old.write_faults self.new.write_faults result }
        ensures stands { Stands self.old.write_faults self.new.write_faults }
        ensures fails { IsErrOf result DeskFault.Failed → IsToFail self.old }
        ensures failed { IsToFail self.old → IsErr result }
        ensures at_once { IsToFail self.old → part_of self.old ≡ 0 → IsErrOf result DeskFault.Failed }
        ensures part { IsErrOf result DeskFault.Failed → self.new.outputs ≡ with_more self.old.outputs id (take (part_of self.old) piece.now) }
        ensures faults { self.new.write_faults ≡ faults_after self.old.write_faults result }
        ensures memory { IsErrOf result DeskFault.NoMem → told self.new ≡ told self.old }
        ensures calls { CountsCall self.old self.new }
    {
        if let Some(part) = next_call(&mut self.calls, &self.failing) {
            extend(&mut self.outputs, id as usize, first_bytes(piece, part))?;
            count_fault(&mut self.write_faults);
            return Err(DeskFault::Failed);
        }
        extend(&mut self.outputs, id as usize, piece)?;
        Ok(())
    }

    fn say(&mut self, piece: &[u8]) -> Result<(), DeskFault>
        ensures said { Says (told self.old) (told self.new) piece.now result }
        ensures cause { HasCause self.old.write_faults self.new.write_faults result }
        ensures stands { Stands self.old.write_faults self.new.write_faults }
        ensures fails { IsErrOf result DeskFault.Failed → IsToFail self.old }
        ensures failed { IsToFail self.old → IsErr result }
        ensures at_once { IsToFail self.old → part_of self.old ≡ 0 → IsErrOf result DeskFault.Failed }
        ensures part { IsErrOf result DeskFault.Failed → self.new.said ≡ self.old.said ++ take (part_of self.old) piece.now }
        ensures faults { self.new.write_faults ≡ faults_after self.old.write_faults result }
        ensures memory { IsErrOf result DeskFault.NoMem → told self.new ≡ told self.old }
        ensures calls { CountsCall self.old self.new }
    {
        if let Some(part) = next_call(&mut self.calls, &self.failing) {
            self.said.extend_from_slice(first_bytes(piece, part))?;
            count_fault(&mut self.write_faults);
            return Err(DeskFault::Failed);
        }
        self.said.extend_from_slice(piece)?;
        Ok(())
    }
}
