//! A judged source: the track of an Ogg file, of which each page and each packet was looked at (own).
//!
//! Above this crate `Source::load` answers what judging a file finds: a `Source`, or the first check that fails. A `Source`
//! is seen as an index of the file, which it keeps in place of its bytes; `packet` reads the pages of a frame again.
#![tactic(auto)]

mod ahead;
mod false_pages;
mod fault;
mod frames;
mod headers;
mod heading;
mod judge;
pub mod laws;
mod load;
mod packet;
mod packets;
mod pages;
mod same;
mod source;

pub use fault::{Fault, SourceFault};
pub use same::same_page;
pub use source::{Headers, Source};

#[cfg(test)]
mod tests;
