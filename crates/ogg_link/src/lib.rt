//! From the pages of an Ogg file to the packets of its Theora track (RFC 3533, 4 to 6; Theora I, A.2).
//!
//! Above this crate a `Walk` is given the pages of a file in order. It answers the parts of packets that each page holds,
//! which joined are the track's packets, or the first fault of the page in its place; `settle` looks at the page's
//! granule position and `end` at what is missing. After a fault it answers that fault for good. `parts_of` gives the parts
//! of a page without a walk, and `laws` names what holds of these definitions alone.
#![tactic(auto)]

mod fault;
mod granules;
pub mod laws;
mod page;
mod part;
mod progress;
mod state;
mod walk;

pub use fault::{LinkFault, LinkRefusal};
pub use granules::granule;
pub use part::{Events, Part, parts_of};
pub use progress::is_key;
pub use state::{Counted, Progress, State};
pub use walk::Walk;

#[cfg(test)]
mod tests;
