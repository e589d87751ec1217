//! Lines in pieces: bytes of several slices, written to a sink one behind the other, without memory.
//!
//! The layer above may rely on this: all of the pieces are written, or a front of them where a write
//! failed and the sink counted it.
#![tactic(auto)]

mod pieces;

pub use pieces::write_pieces;
