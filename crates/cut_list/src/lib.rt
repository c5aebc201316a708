//! Edit lists, version 1 (own): which frames of which sources a cut is made of, as text.
//!
//! Above this crate only this is used: `read_list` gives the slices that a text says, or its first bad line with the first
//! why; and `read_number` gives the number that a text says as a field of a list does.
#![tactic(auto)]

mod fault;
mod item;
mod laws;
mod line;
mod list;
mod number;
mod place;
mod read;

pub use fault::{ListFault, Why};
pub use laws::lists_of_a_text;
pub use list::{List, Slice};
pub use number::read_number;
pub use read::read_list;

#[cfg(test)]
mod tests;
