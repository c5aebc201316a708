//! DCT coefficients of a frame, coded as tokens (Theora I, 7.7).
#![tactic(auto)]

mod adding;
mod checking;
mod coeffs;
mod laws;
mod meaning;
mod places;
mod reading;
mod run;
mod scanning;
mod spelling;
mod token;
mod tokenising;
mod trees;
mod waiting;
mod writing;

pub use checking::check_tokens;
pub use coeffs::Coeffs;
pub use laws::full_rows_hold_all_tokens;
pub use reading::{read_tokens, read_tokens_in, read_tokens_with};
pub use token::{Tables, Token};
pub use tokenising::tokenise;
pub use writing::write_tokens;

#[cfg(test)]
mod tests;
#[cfg(test)]
mod token_tests;
