//! An encoder of Theora frames, in a closed loop (own).
//!
//! Above this crate only this is used: `Encoder::key` and `Encoder::inter` append a packet that is near a target and take it
//! themselves as a decoder does; `Encoder::frame` is the frame that the packet shows, and `Encoder::difference` says how far
//! it is from the target.
#![tactic(auto)]

mod difference;
mod draft;
mod encoder;
mod fault;
mod lists;
mod showing;
mod sources;

pub use difference::Diff;
pub use encoder::Encoder;
pub use fault::EncFault;

#[cfg(test)]
mod tests;
