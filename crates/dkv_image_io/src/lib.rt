//! Images as they are written to a disk and read from it.
//!
//! The layer above may rely on this: what is written of a table and a queue is their image's one spelling, in pieces, and a crash at
//! any moment of it leaves the file's first byte. What is read is exactly such a spelling for the commit number and the moment that
//! are given, and a refusal names the place that doesn't stand.
#![tactic(auto)]

mod entry;
mod front;
mod item;
mod len;
mod message;
mod number;
mod pieces;
mod put;
mod read;
mod refusal;
mod rows;
mod spell;
mod standing;
mod walk;
mod window;
mod write;

pub use len::image_len;
pub use pieces::PIECE_BYTES;
pub use read::read_image;
pub use refusal::ImageRefusal;
pub use write::write_image;

#[cfg(test)]
mod tests;
