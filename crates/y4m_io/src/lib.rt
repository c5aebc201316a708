//! Pictures and YUV4MPEG2 (own): pictures of three planes, rows from the top, and the text that carries them.
//!
//! Above this crate only this is used: `Picture::crop` gives `crop_of` a decoded frame, and `pad` puts a picture into one as
//! `pad_of` says; `write_head` and `write_frame` append `head_text` and `frame_text`, so that an output is `y4m_of` its
//! pictures; what `Y4m::start` and `next` answer is the one head, pictures and departure of which an input `IsY4m`; and
//! `make_frame` fills a picture as `generated`.
#![tactic(auto)]

mod crop;
mod fault;
mod field;
mod frame_line;
mod generator;
mod head;
mod head_line;
mod input;
mod laws;
mod line;
mod number;
mod pad;
mod picture;
mod place;
mod reading;
mod writing;

pub use fault::{Y4mFault, Y4mWhy};
pub use generator::make_frame;
pub use head::Head;
pub use laws::{pictures_by_size, pictures_of_streams, streams_of_a_text, texts_by_pictures};
pub use picture::Picture;
pub use reading::Y4m;
pub use writing::{write_frame, write_head};

#[cfg(test)]
mod tests;
