// A desk in memory, whose calls can be made to fail (own).
ghost use Rattle.std.specs.Prelude.{◌≡◌, ◌-◌, ◌^◌, ◌<◌, ◌∷◌, ◌++◌, [], length, OnOk, OnErr};
ghost use Rattle.std.specs.Option.{option_copied};
ghost use Rattle.vid_desk.specs.Memory.{last_of};

use crate::entry::{Entry, last_entry};
use crate::failing::Failing;
use std::alloc::Global;
use std::marker::Model;
use vid_base::NoMem;

mod calls;

/// Inputs, outputs and printed text in memory. It tells everything, and chosen calls of it fail.
#[derive(Debug, Drop)]
pub struct MemDesk {
    alloc: Global,
    inputs: Vec<Entry>,
    outputs: Vec<Entry>,
    said: Vec<u8>,
    sought: Vec<String>,
    named: Vec<String>,
    read_faults: u64,
    write_faults: u64,
    asked: u64,
    calls: u64,
    failing: Vec<Failing>,
}

impl Model for MemDesk {
    ghost use Rattle.std.specs.Prelude.{◌<◌, ◌^◌, map, vec_len};
    ghost use Rattle.std.specs.String.{string_bytes};
    ghost use Rattle.vid_desk.specs.Entry.{failing_of, file_of};
    ghost use Rattle.vid_desk.specs.Memory.{Memory};

    ghost Value = { Memory };

    ghost view = { λ desk. record {
      inputs = map file_of desk.inputs.items;
      outputs = map file_of desk.outputs.items;
      said = desk.said.items;
      sought = map string_bytes desk.sought.items;
      named = map string_bytes desk.named.items;
      read_faults = desk.read_faults;
      write_faults = desk.write_faults;
      asked = desk.asked;
      calls = desk.calls;
      failing = map failing_of desk.failing.items;
    } };

    ghost invariant = { λ desk. vec_len desk.inputs < 2 ^ 32 };
}

impl MemDesk {
    /// No inputs, no outputs, nothing said; no call is to fail.
    pub fn new(alloc: Global) -> MemDesk
        ensures { result ≡ record {
          inputs = [];
          outputs = [];
          said = [];
          sought = [];
          named = [];
          read_faults = 0;
          write_faults = 0;
          asked = 0;
          calls = 0;
          failing = [];
        } }
    {
        MemDesk {
            alloc,
            inputs: Vec::new(alloc),
            outputs: Vec::new(alloc),
            said: Vec::new(alloc),
            sought: Vec::new(alloc),
            named: Vec::new(alloc),
            read_faults: 0,
            write_faults: 0,
            asked: 0,
            calls: 0,
            failing: Vec::new(alloc),
        }
    }

    /// One more input, after those that are there.
    pub fn add_input(&mut self, name: &str, bytes: &[u8]) -> Result<(), NoMem>
        requires room { length self.old.inputs < 2 ^ 32 - 1 }
        ensures added { OnOk result (self.new ≡ record self.old {
          inputs = self.old.inputs ++ record { name = name.now; bytes = bytes.now } ∷ [];
        }) }
        ensures memory { OnErr result (self.new ≡ self.old) }
    {
        let input = Entry::new(self.alloc, name, bytes)?;
        self.inputs.push(input)?;
        Ok(())
    }

    /// The Desk call of that number is to fail; the calls are counted from 0. Nothing of its piece stands.
    pub fn fail_at(&mut self, call: u64) -> Result<(), NoMem>
        ensures added { OnOk result (self.new ≡ record self.old {
          failing = self.old.failing ++ record { call = call; part = 0 } ∷ [];
        }) }
        ensures memory { OnErr result (self.new ≡ self.old) }
    {
        self.fail_part_at(call, 0)
    }

    /// The Desk call of that number is to fail. Where it is an `append` or a `say`, that many first bytes of its piece
    /// stand all the same. Of two parts for one call the first counts.
    pub fn fail_part_at(&mut self, call: u64, bytes: usize) -> Result<(), NoMem>
        ensures added { OnOk result (self.new ≡ record self.old {
          failing = self.old.failing ++ record { call = call; part = bytes } ∷ [];
        }) }
        ensures memory { OnErr result (self.new ≡ self.old) }
    {
        self.failing.push(Failing { call, part: bytes })?;
        Ok(())
    }

    /// The bytes of the output of that name that was created last; None where no output has it.
    pub fn output(&self, name: &str) -> Option<&[u8]>
        ensures value { option_copied result ≡ last_of self.now.outputs name.now }
    {
        match last_entry(&self.outputs, name) {
            Some(output) => Some(&output.bytes),
            None => None,
        }
    }

    /// All text that was said.
    pub fn said(&self) -> &[u8]
        ensures value { result.now ≡ self.now.said }
    {
        &self.said
    }

    /// How many faults of reading were counted.
    pub fn read_faults(&self) -> u64
        ensures value { result ≡ self.now.read_faults }
    {
        self.read_faults
    }

    /// How many faults of writing were counted.
    pub fn write_faults(&self) -> u64
        ensures value { result ≡ self.now.write_faults }
    {
        self.write_faults
    }

    /// How many bytes were asked for by `read_at`.
    pub fn asked(&self) -> u64
        ensures value { result ≡ self.now.asked }
    {
        self.asked
    }

    /// How many inputs count as found: all that were added.
    pub fn found(&self) -> u64
        ensures value { result ≡ length self.now.inputs }
    {
        self.inputs.len() as u64
    }

    /// How many outputs were made.
    pub fn made(&self) -> u64
        ensures value { result ≡ length self.now.outputs }
    {
        self.outputs.len() as u64
    }

    /// How many calls of `Desk` came, those that failed among them.
    pub fn calls(&self) -> u64
        ensures value { result ≡ self.now.calls }
    {
        self.calls
    }
}
