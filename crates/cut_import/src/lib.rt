//! Pictures of a YUV4MPEG2 input, coded as a Theora stream in an Ogg file (own).
//!
//! Above this crate only `import` is used: it creates the output and writes `IsImport` of the input to it; after a refusal the
//! output holds a first part of such a file.
#![tactic(auto)]

mod fault;
mod headers;
mod importer;
mod importing;

pub use importing::import;
