//! The coded order of the blocks of a frame, and its superblocks and macro blocks (Theora I, 2.3 and 2.4).
//!
//! A frame's blocks have coded places: plane after plane, superblock after superblock, in each along a Hilbert curve. Above
//! this crate `at` and `place` go from a place to its block and back, `superblock` gives a superblock's places and
//! `macro_block` those of the blocks of a macro block; all are as the lists of `specs` say.
#![tactic(auto)]

mod block;
mod geom;
mod grid;
mod layout;
mod plane;
mod tables;

pub use block::{Block, MacroBlock};
pub use geom::Geom;

#[cfg(test)]
mod tests;
