//! The words that all commands share of the desk that they have, the statuses of its faults, and the inputs of a command that
//! has a list and a source (own).
#![tactic(auto)]

mod fault;
mod inputs;

pub use fault::{reading, writing};
pub use inputs::{Input, Inputs, find_inputs, read_input};
