//! Films of generated pictures, written as YUV4MPEG2 (own).
//!
//! Above this crate only this is used: `make` creates an output and writes `film_text` of a film to it; after a refusal the
//! output holds a first part of that text.
#![tactic(auto)]

mod film;
mod maker;
mod making;

pub use film::Film;
pub use making::make;

#[cfg(test)]
mod tests;
