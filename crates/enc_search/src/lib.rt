//! The modes and vectors of a frame to be coded: such as predict its luma no worse than a list of candidates (own).
//!
//! Above this crate only this is used: `choose` gives a mode for each macro block and a vector for each block that can be
//! coded together, and with all blocks coded the luma of each macro block is predicted no worse than by 128 everywhere, by
//! the golden frame, or by the previous frame moved by up to four whole samples on each axis.
#![tactic(auto)]

mod choice;
mod distance;
mod frames;
pub mod laws;
mod memory;
mod placing;
mod search;

pub use choice::{Choice, choose};

#[cfg(test)]
mod tests;
