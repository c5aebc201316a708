//! The loop filter of a frame (Theora I, 7.10).
//!
//! Above this crate only this is used: `filter` makes `filtered_frame` of a frame: its planes one after another, in each the
//! coded blocks in raster order, of each block its edges, and of each edge eight lines of four samples.
#![tactic(auto)]

mod edges;
mod frame;
mod lines;

pub use frame::filter;

#[cfg(test)]
mod tests;
