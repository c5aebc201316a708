//! Identification and comment headers of a Theora stream (Theora I, 6.1 to 6.3).
//!
//! Above this crate `read_ident` gives what `ident_of` says of a packet's bytes, or its first fault; what `write_ident`
//! appends reads back as the same; and `read_comment` is `comment_of`.
#![tactic(auto)]

mod comment;
mod header;
mod ident;
mod reading;
mod writing;

pub use comment::{own_comment, read_comment};
pub use ident::Ident;
pub use reading::read_ident;
pub use writing::write_ident;

#[cfg(test)]
mod tests;
