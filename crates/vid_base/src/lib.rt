//! Bits, faults of packets, shapes of frames and whole-number arithmetic (Theora I, 2.1, 4.4, 5.2, and Notation and
//! Conventions).
//!
//! Above this crate a reader and a writer are lists of bits: `take` gives the number of the first n bits and leaves
//! those after them, and `put` adds the n digits of a number at the end.
#![tactic(auto)]

mod arithmetic;
mod fault;
mod fronts;
mod reader;
mod shape;
mod writer;

pub use arithmetic::{div_zero, ilog, round_half_out, trunc16};
pub use fault::{Ended, NoMem, PacketFault, Refusal};
pub use fronts::fields_read_from_the_front;
pub use reader::BitReader;
pub use shape::{MOST_MACRO_BLOCKS, Shape, Vector};
pub use writer::BitWriter;

#[cfg(test)]
mod tests;
