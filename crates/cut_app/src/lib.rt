//! The commands of the program, each a function of the words and of a desk (own).
#![tactic(auto)]

mod checking;
mod command;
mod exporting;
mod filming;
mod importing;
mod judging;
mod listing;
mod numbers;
mod planning;
mod runs;
mod words;

pub use command::oggcut;
pub use cut_report::Status;

#[cfg(test)]
mod export_tests;
#[cfg(test)]
mod film_tests;
#[cfg(test)]
mod import_tests;
#[cfg(test)]
mod plan_tests;
#[cfg(test)]
mod tests;
