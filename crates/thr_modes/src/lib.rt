//! Coding modes and motion vectors of a frame (Theora I, 7.4 and 7.5).
//!
//! Above this crate `read_modes` gives `modes_of`, one mode for each macro block in coded order, and `read_vectors` gives
//! `vectors_of`, one vector for each block in coded order; what `write_modes` and `write_vectors` add reads back as the
//! same modes and vectors.
#![tactic(auto)]

mod alphabet;
mod component;
mod field;
mod luma;
mod mean;
mod modes;
mod motion;
mod placing;
mod vectors;
mod writing;

pub use modes::{read_modes, read_modes_in, write_modes};
pub use vectors::{read_vectors, read_vectors_in};
pub use writing::write_vectors;

#[cfg(test)]
mod tests;
#[cfg(test)]
mod vector_tests;
