//! A judged source written as YUV4MPEG2: all its frames decoded, one after another (own).
//!
//! Above this crate only `export` is used: it creates the output and writes `IsExport` of the source's packets to it.
#![tactic(auto)]

mod exporting;
mod film;

pub use exporting::export;
