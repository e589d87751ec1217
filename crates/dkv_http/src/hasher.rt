//! The hasher of a header map, from two keys that the caller gives.
ghost use Rattle.std.specs.Prelude.{◌≡◌, ◌%◌, slice_index, EachIndex};

use dkv_base::NoMemory;
use std::hash::RandomState;
use std::io;
use std::random::RandomSource;

// The bytes of two keys, over and over, where a hasher asks for random ones.
#[derive(Clone, Copy)]
struct Keys {
    bytes: [u8; 16],
}

impl RandomSource for Keys {
    fn fill_bytes(&self, buf: &mut [u8]) -> io::Result<()>
        ensures { EachIndex buf.new
            (λ k. slice_index buf.new k ≡ slice_index self.now.bytes (k % 16)) }
    {
        for (i, byte) in buf.iter_mut().enumerate() {
            *byte = self.bytes[i % 16];
        }
        Ok(())
    }
}

pub(crate) fn hasher_of(keys: [u64; 2]) -> Result<RandomState, NoMemory> {
    let both = (u128::from(keys[1]) << 64) | u128::from(keys[0]);
    let source = Keys {
        bytes: both.to_le_bytes(),
    };
    match RandomState::new(&source) {
        Ok(hasher) => Ok(hasher),
        // The keys are always given.
        Err(_) => Err(NoMemory),
    }
}
