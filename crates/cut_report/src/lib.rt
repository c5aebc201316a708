//! How a command ends, and the lines that it prints (own).
//!
//! Above this crate `fault_line` is the line of a status. The other calls append a line each: `link_line` that of a link,
//! `seekable_line` that of a file which is seekable or not, `run_line` and `total_line` those of a plan, `frame_line` that of a
//! frame that was coded, and `exported_line`, `imported_line` and `made_line` those of frames that were written or read.
#![tactic(auto)]

mod counts;
mod faults;
mod line;
mod links;
mod runs;
mod status;

pub use counts::{exported_line, imported_line, made_line};
pub use faults::fault_line;
pub use links::{link_line, seekable_line};
pub use runs::{frame_line, run_line, total_line};
pub use status::{SourceWhat, Status};

#[cfg(test)]
mod tests;
