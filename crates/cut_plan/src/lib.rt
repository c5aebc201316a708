//! The plan of a cut (own): which frames of a list are coded again, and which are copied.
//!
//! Frames are copied from a key frame on; those between an in-point and the next key frame are coded again. Above this crate
//! this is used: `plan` gives the runs of a list, or its first line out of range, and `plans_of_a_list` what holds of every
//! plan. `Targets` is what gives the pictures that frames which are coded again are to show.
#![tactic(auto)]

mod fault;
mod join;
mod laws;
mod planning;
mod range;
mod run;
mod span;
mod targets;

pub use fault::PlanFault;
pub use laws::plans_of_a_list;
pub use planning::plan;
pub use run::Run;
pub use targets::{TargetFault, Targets};

#[cfg(test)]
mod tests;
