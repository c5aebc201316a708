//! Limits of the loop filter and quantiser matrices of a setup header (Theora I, 6.4.1 to 6.4.3).
//!
//! Above this crate limits are 64 numbers, and quantisers are scales, base matrices and ranges of quantiser indices:
//! `read_limits` and `read_ramps` read them or answer the first fault, what is written reads back, and `matrix` is the
//! matrix of a quantiser index.
#![tactic(auto)]

mod laws;
mod limits;
mod matrix;
mod numbers;
mod ramps;
mod ranges;
mod write;

pub use laws::{
    limits_fit_a_header, limits_of_a_header, quantisers_fit_a_header, quantisers_of_a_header,
};
pub use limits::{Limits, read_limits};
pub use ramps::{Ramps, read_ramps};
pub use ranges::{Range, Ranges};
pub use write::{write_limits, write_ramps};

#[cfg(test)]
mod tests;
