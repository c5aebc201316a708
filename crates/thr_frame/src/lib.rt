//! A whole frame: its packet parsed, the frame rebuilt, and the state of a decoder (Theora I, 7.1, 7.6, 7.9.4 and 7.11).
//!
//! Above this crate a packet is one step: `parse_into` gives `parsed` of a packet's bits or its first fault, `rebuild_frame`
//! makes `rebuilt_frame` of what was parsed, and `Decoder::step` is `step`, which is the two one behind the other.
#![tactic(auto)]

mod checking;
mod clearing;
mod coded;
mod decoder;
mod decoding;
mod frame;
mod head;
mod kind;
mod kinds;
pub mod laws;
mod motion;
mod parsing;
mod places;
mod rebuild;
mod residue;
mod sources;
mod work;

pub use checking::check_frame;
pub use coded::Coded;
pub use decoder::Decoder;
pub use frame::rebuild_frame;
pub use kind::Kind;
pub use kinds::fill_kinds;
pub use parsing::{parse_frame, parse_into};
pub use work::Work;

#[cfg(test)]
mod decoder_tests;
#[cfg(test)]
mod parse_tests;
