//! Residuals, predictors and rebuilt blocks (Theora I, 7.9.1, 7.9.2 and 7.9.4).
//!
//! Above this crate only this is used: `residual` gives `residual_of` a block's coefficients, `predict` a predictor that shows
//! `predicted` samples, and `rebuild_block` writes their sums, clamped, and changes no sample outside the block.
#![tactic(auto)]

mod coefficients;
mod motion;
mod predictor;
mod rebuilding;
mod rows;

pub use coefficients::{dequantise, residual};
pub use motion::predict;
pub use predictor::Predictor;
pub use rebuilding::rebuild_block;

#[cfg(test)]
mod tests;
