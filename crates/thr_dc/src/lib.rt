//! DC prediction of a frame (Theora I, 7.8).
//!
//! The DC value of a block is coded as its difference from a predictor, which is made from the values of the blocks around
//! it in its plane. Above this crate `undo_dc` turns the differences of a frame into values and `apply_dc` values into
//! differences, as `with_planes` says of the planes that `undone` and `applied` make; `limit_dc` keeps the values of a frame
//! near their predictors. None of them takes memory.
#![tactic(auto)]

mod change;
mod frame;
mod laws;
mod plane;
mod prediction;
mod predictor;
mod walk;

pub use frame::{apply_dc, limit_dc, undo_dc};
pub use laws::{dc_values_are_made_in_order, only_dc_values_change};

#[cfg(test)]
mod tests;
