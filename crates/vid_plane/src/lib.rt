//! Planes of samples, windows on them, and the frames that a decoder keeps (Theora I, 2.1 and 7.9.1).
//!
//! Above this crate a plane is a `Picture` of specs: its sizes, its samples row after row from the lowest, and whether it is
//! sealed. A window reads eight by eight samples of a sealed plane anywhere within 16 samples of it, each the nearest that the
//! plane has. A `RefStore` lends the frame that is painted next together with the two that are read; `commit` moves frames
//! and copies no sample.
#![tactic(auto)]

mod border;
mod frame;
mod plane;
mod store;
mod window;

pub use frame::Frame;
pub use plane::Plane;
pub use store::{Painting, RefStore};
pub use window::Window;

#[cfg(test)]
mod tests;
