//! The parts of a key, and why bytes are no key.
use dkv_base::{Bytes, NoMemory};
use thiserror::Error;

/// A part of a key.
///
/// A text is valid UTF-8. The magnitude of an integer has its greatest byte first, at most 255 bytes and no leading
/// zero byte; zero has none, and isn't negative. A double is its 64-bit pattern (IEEE 754).
#[derive(Debug, Drop)]
pub enum Part {
    Bytes(Bytes),
    Text(Bytes),
    Int { negative: bool, magnitude: Bytes },
    Double(u64),
    Bool(bool),
}

/// Why no parts were read.
#[derive(Clone, Copy, Debug, Error, PartialEq, Eq)]
pub enum KeyError {
    /// No part begins at this place; places count bytes from 0.
    #[error("no part of a key begins at byte {at}")]
    NotAKey { at: u64 },
    /// The allocator had no room.
    #[error("no memory")]
    NoMemory,
}

impl From<NoMemory> for KeyError {
    ghost use Rattle.std.specs.Prelude.{◌≡◌};
    ghost use Rattle.dkv_key.specs.declared.part.KeyError.TheVariants.{NoMemory as no_memory};

    ghost from_gives = { λ _ r. r ≡ no_memory };

    fn from(_: NoMemory) -> KeyError {
        KeyError::NoMemory
    }
}
