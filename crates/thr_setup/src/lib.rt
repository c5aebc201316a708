//! The setup header of a Theora stream (Theora I, 6.4.5), and the one that streams of our own have (own).
//!
//! Above this crate a setup is the limits of the loop filter, the quantisers and the trees of the tokens. `read_setup` gives
//! what `setup_of` says of a packet's bytes, or its first fault; what `write_setup` appends reads back as the same;
//! and `import_setup` is `imported`.
#![tactic(auto)]

mod import;
mod laws;
mod setup;
mod tables;
mod trees;
mod write;

pub use import::import_setup;
pub use laws::{setup_fits_a_header, setups_of_a_header};
pub use setup::{Setup, read_setup};
pub use write::write_setup;

#[cfg(test)]
mod tests;
