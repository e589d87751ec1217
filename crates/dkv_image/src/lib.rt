//! Images: the entries and messages of a state as bytes of a file.
//!
//! The layer above may rely on this: an image has one spelling, and it may hold just what a sound state holds.
#![tactic(auto)]

mod laws;

pub use laws::{images_are_spelled, sound_states_have_images};
