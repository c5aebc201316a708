// A desk on the files of the system and standard output (own).
ghost use Rattle.std.specs.Prelude.{◌≡◌, ◌+◌, ◌-◌, ◌^◌, min, OnErr, OnOk};
ghost use Rattle.vid_desk.specs.Counts.{untold};

use crate::desk::count_fault;
use crate::system::{fill, open_input, open_output, sync};
use crate::{Desk, DeskFault, Failed};
use std::alloc::Global;
use std::fs::{File, OpenFile};
use std::io::Write;
use std::marker::Model;
use std::rt::Files;

/// The files of the system by their paths, and standard output. It tells its counts alone.
///
/// An input is a regular file. An output that is created replaces a file that is there, but no input of this desk,
/// under whatever name: that is a fault, and leaves the input as it was.
#[derive(Drop)]
pub struct FileDesk<R: Files<File = File> + Print + Drop> {
    rt: R,
    inputs: Vec<File>,
    /// None where it was closed.
    outputs: Vec<Option<File>>,
    read_faults: u64,
    write_faults: u64,
    asked: u64,
}

impl<R: Files<File = File> + Print + Drop> Model for FileDesk<R> {
    ghost use Rattle.std.specs.Prelude.{vec_len};
    ghost use Rattle.vid_desk.specs.Counts.{Counts};

    ghost Value = { Counts };

    ghost view = { λ desk. record {
      read_faults = desk.read_faults;
      write_faults = desk.write_faults;
      asked = desk.asked;
      found = vec_len desk.inputs;
      made = vec_len desk.outputs;
    } };
}

impl<R: Files<File = File> + Print + Drop> FileDesk<R> {
    /// No file was opened yet; all five counts are 0.
    pub fn new(rt: R, alloc: Global) -> FileDesk<R>
        ensures { result ≡ record { read_faults = 0; write_faults = 0; asked = 0; found = 0; made = 0 } }
    {
        FileDesk {
            rt,
            inputs: Vec::new(alloc),
            outputs: Vec::new(alloc),
            read_faults: 0,
            write_faults: 0,
            asked: 0,
        }
    }

    /// Closes all outputs; what was written to those that are regular files is on the disk before. An `append` to an
    /// output that was closed fails.
    pub fn close_outputs(&mut self) -> Result<(), Failed>
        ensures kept { self.new ≡ record self.old { write_faults = self.new.write_faults } }
        ensures closed { OnOk result (self.new.write_faults ≡ self.old.write_faults) }
        ensures counted { OnErr result (self.new.write_faults ≡ min (self.old.write_faults + 1) (2 ^ 64 - 1)) }
    {
        let mut failed = false;
        for output in self.outputs.iter_mut() {
            failed |= output.take().is_some_and(|file| sync(&file).is_err());
        }
        if failed {
            count_fault(&mut self.write_faults);
            return Err(Failed);
        }
        Ok(())
    }
}

impl<R: Files<File = File> + Print + Drop> Desk for FileDesk<R> {
    ghost sees = { untold };

    ghost use Rattle.std.proofs.Common.{rules};

    ghost found_in = { λ desk files told. Prim.search rules };

    ghost made_in = { λ desk files told. Prim.search rules };

    fn find(&mut self, name: &str) -> Result<Option<u32>, DeskFault> {
        let Ok(id) = u32::try_from(self.inputs.len()) else {
            count_fault(&mut self.read_faults);
            return Err(DeskFault::Failed);
        };
        match open_input(&self.rt, name) {
            Ok(Some(file)) => {
                self.inputs.push(file)?;
                Ok(Some(id))
            }
            Ok(None) => Ok(None),
            Err(_) => {
                count_fault(&mut self.read_faults);
                Err(DeskFault::Failed)
            }
        }
    }

    fn size(&mut self, id: u32) -> Result<u64, Failed> {
        match self.inputs[id as usize].metadata() {
            Ok(found) => Ok(found.len()),
            Err(_) => {
                count_fault(&mut self.read_faults);
                Err(Failed)
            }
        }
    }

    fn read_at(&mut self, id: u32, pos: u64, buf: &mut [u8]) -> Result<(), Failed> {
        self.asked = self.asked.saturating_add(buf.len() as u64);
        if fill(&self.inputs[id as usize], pos, buf).is_err() {
            count_fault(&mut self.read_faults);
            return Err(Failed);
        }
        Ok(())
    }

    fn create(&mut self, name: &str) -> Result<u32, DeskFault> {
        self.outputs.reserve(1)?;
        let Ok(id) = u32::try_from(self.outputs.len()) else {
            count_fault(&mut self.write_faults);
            return Err(DeskFault::Failed);
        };
        let Ok(file) = open_output(&self.rt, name, &self.inputs) else {
            count_fault(&mut self.write_faults);
            return Err(DeskFault::Failed);
        };
        self.outputs.push(Some(file))?;
        Ok(id)
    }

    fn append(&mut self, id: u32, piece: &[u8]) -> Result<(), DeskFault> {
        let written = match &mut self.outputs[id as usize] {
            Some(file) => file.write_all(piece).is_ok(),
            None => false,
        };
        if !written {
            count_fault(&mut self.write_faults);
            return Err(DeskFault::Failed);
        }
        Ok(())
    }

    fn say(&mut self, piece: &[u8]) -> Result<(), DeskFault> {
        if self.rt.write_all(piece).is_err() {
            count_fault(&mut self.write_faults);
            return Err(DeskFault::Failed);
        }
        Ok(())
    }
}
