//! What lies outside the program: input files, output files and printed text (own).
//!
//! Above this crate only the trait `Desk` is used. Each call says by one equation on what the desk tells, and on its
//! counts, what it changed, and answers Failed only where its count of faults rose. `MemDesk` holds all in memory and
//! can be made to fail; `FileDesk` stands on the files of the system.
#![tactic(auto)]

mod desk;
mod entry;
mod failing;
mod fault;
mod file;
mod mem;
mod system;

pub use desk::Desk;
pub use fault::{DeskFault, Failed};
pub use file::FileDesk;
pub use mem::MemDesk;

#[cfg(test)]
mod tests;
