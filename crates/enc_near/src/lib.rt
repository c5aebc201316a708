//! The coefficients of a frame to be coded, nearest to what its predictions lack (own).
//!
//! Above this crate only this is used: `nearest_values` makes the coefficients of a frame of which all blocks are coded, so
//! that `IsNearFrame` holds of them, and keeps each DC value so near its predictor that their difference can be coded.
#![tactic(auto)]

mod coefficients;
mod frame;
mod lacking;
mod making;
mod quotient;
mod sources;
mod tables;

pub use frame::nearest_values;

#[cfg(test)]
mod tests;
