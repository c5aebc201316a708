//! Huffman trees of the tokens of a frame, as a setup header holds them (Theora I, 6.4.4 and 7.7.3).
//!
//! Above this crate a forest is the list of its 80 trees, and a tree has a list of codes in reading order: `token`
//! takes the code at the front of a packet's bits, `code` gives the first code of a token, and `full_row` finds trees
//! that hold all tokens. What `write_forest` writes is read back by `read_forest`.
#![tactic(auto)]

mod book;
mod code;
mod forest;
mod laws;
mod tree;

pub use code::Code;
pub use forest::{Forest, read_forest, trees_fit_a_header, write_forest};
pub use laws::{tokens_read_from_the_front, trees_of_a_header};
pub use tree::Tree;

#[cfg(test)]
mod tests;
