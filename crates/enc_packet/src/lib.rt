//! A frame of which all blocks are coded, written as a packet (Theora I, 7).
//!
//! Above this crate only this is used: `write_packet` gives a packet that says what it was given, as `whole_frame`, and
//! `Rows`, made once for a stream, are the rows of tables by which it writes the tokens of a frame.
#![tactic(auto)]

mod counts;
mod head;
mod motion;
mod packet;
mod residue;
mod rows;

pub use head::Head;
pub use packet::write_packet;
pub use rows::Rows;

#[cfg(test)]
mod tests;
