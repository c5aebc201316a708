//! Packets of a Theora stream to the pages of an Ogg file (RFC 3533, 6; Theora I, A.2).
//!
//! Above this crate a `Mux` is given the three headers of a stream and then its frame packets. The bytes that are taken
//! from it are, one behind the other, those of `paged`; a page closes when a frame packet ends on it and its body has at
//! least 4,096 bytes, or when it has 255 lacing values. `laws` names what holds of these definitions alone.
#![tactic(auto)]

mod held;
pub mod laws;
mod mux;
mod packets;

pub use mux::Mux;

#[cfg(test)]
mod tests;
