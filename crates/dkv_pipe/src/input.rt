// What was read and isn't answered yet.
use dkv_base::{Bytes, NoMemory};
use std::alloc::Global;
use std::marker::Model;

/// What was read and isn't answered yet, which contracts see as a list of bytes.
#[derive(Drop)]
pub(crate) struct Input {
    bytes: Vec<u8>,
    from: usize,
}

impl Model for Input {
    ghost use Rattle.std.specs.Prelude.{List, ℕ, ◌≤◌, length, drop};

    ghost Value = { List ℕ };

    ghost view = { λ i. drop i.from i.bytes.items };

    ghost invariant = { λ i. i.from ≤ length i.bytes.items };
}

ghost use Rattle.std.specs.Prelude.{◌≡◌, ◌≤◌, [], ◌++◌, length, drop, OnOk, OnErr};

impl Input {
    pub(crate) fn new(alloc: Global) -> Input
        ensures { result ≡ [] }
    {
        Input {
            bytes: Vec::new(alloc),
            from: 0,
        }
    }

    pub(crate) fn as_slice(&self) -> &[u8]
        ensures { result.now ≡ self.now }
    {
        &self.bytes[self.from..]
    }

    /// Passes over the first `n` bytes. Takes no memory, and moves nothing.
    pub(crate) fn skip(&mut self, n: usize)
        requires { n ≤ length self.old }
        ensures { self.new ≡ drop n self.old }
    {
        self.from += n;
    }

    /// Adds these bytes behind the others. Where bytes before those were passed over, all move to a new place.
    pub(crate) fn extend(&mut self, alloc: Global, piece: &[u8]) -> Result<(), NoMemory>
        ensures ok { OnOk result (self.new ≡ self.old ++ piece.now) }
        ensures err { OnErr result (self.new ≡ self.old) }
    {
        if self.from > 0 {
            self.bytes = Bytes::joined(alloc, self.as_slice(), piece)?.into_vec();
            self.from = 0;
        } else {
            self.bytes.extend_from_slice(piece)?;
        }
        Ok(())
    }
}
