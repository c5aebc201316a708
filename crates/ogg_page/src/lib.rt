//! Pages of Ogg files (RFC 3533, 6).
//!
//! Above this crate `read_page` gives the page at a place of the bytes or the first of its four faults, `read_window`
//! gives the same of bytes of which only the beginning is at hand, and what `write_page` appends is read back.
#![tactic(auto)]

mod crc;
mod fault;
mod page;
mod read;
mod table;
mod write;

pub use crc::checksum;
pub use fault::PageFault;
pub use page::{PageHead, PageRef};
pub use read::{read_page, read_window};
pub use write::write_page;

#[cfg(test)]
mod tests;
