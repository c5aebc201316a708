//! One slice of a plain source, copied: the first path of a cut (own).
#![tactic(auto)]

mod copy;
mod cutting;
mod list;
mod source;

pub use cutting::cut;

#[cfg(test)]
mod tests;
