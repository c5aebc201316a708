//! The coded flags of a frame, and the run strings that they are made of (Theora I, 7.2 and 7.3).
//!
//! Above this crate a reader gives what the definition of `specs` reads of the bits and leaves the bits behind it, or
//! answers the first fault; what a writer writes is read as the values that it was given, whatever follows.
#![tactic(auto)]

mod flag_reading;
mod flag_writing;
mod reading;
mod runs;
mod writing;

pub use flag_reading::{read_flags, read_flags_in};
pub use flag_writing::write_flags;
pub use reading::{read_long, read_long_in, read_short, read_short_in};
pub use writing::{write_long, write_short};

#[cfg(test)]
mod flag_tests;
#[cfg(test)]
mod tests;
