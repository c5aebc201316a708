//! The transforms of a block of 8 by 8 numbers (Theora I, 7.9.3).
//!
//! Above this crate only this is used: `inverse` gives `inverse_of`, the standard's two passes of formulas with every cut to
//! 16 bits where the standard has it; `forward` gives `forward_of`, an exact double sum for each coefficient (own), and each
//! lies within 8,160.
#![tactic(auto)]

mod block;
mod line;
mod passes;
mod sums;
mod tables;

pub use block::inverse;
pub use passes::forward;

#[cfg(test)]
mod tests;
