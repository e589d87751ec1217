//! Bytes in memory that was taken before.
use dkv_base::NoMemory;
use std::alloc::Global;
use std::marker::Model;

/// At most `most` bytes, for which there is room from the start.
#[derive(Debug, Drop)]
pub(crate) struct Buffer {
    items: Vec<u8>,
    most: usize,
}

impl Model for Buffer {
    ghost use Rattle.std.specs.Prelude.{◌≤◌, vec_capacity};
    ghost use Rattle.dkv_http.specs.Filled.{Filled};

    ghost Value = { Filled };

    ghost view = { λ r. record { bytes = r.items.items; most = r.most } };

    ghost invariant = { λ r. r.most ≤ vec_capacity r.items };
}

ghost use Rattle.std.specs.Prelude.{◌≡◌, ◌≤◌, ◌<◌, ◌+◌, ◌-◌, ◌++◌, ◌∷◌, [], length, take, IfOk};

impl Buffer {
    pub(crate) fn new(alloc: Global, most: usize) -> Result<Buffer, NoMemory>
        ensures { IfOk result (λ r. r ≡ record { bytes = []; most = most }) }
    {
        match Vec::with_capacity(alloc, most) {
            Ok(items) => Ok(Buffer { items, most }),
            Err(_) => Err(NoMemory),
        }
    }

    pub(crate) fn as_slice(&self) -> &[u8]
        ensures { result.now ≡ self.now.bytes }
    {
        self.items.as_slice()
    }

    pub(crate) fn len(&self) -> usize
        ensures { result ≡ length self.now.bytes }
    {
        self.items.len()
    }

    pub(crate) fn push(&mut self, byte: u8)
        requires { length self.old.bytes < self.old.most }
        ensures { self.new ≡ record { bytes = self.old.bytes ++ byte ∷ []; most = self.old.most } }
    {
        // There is room, so it is not refused.
        let _ = self.items.push(byte);
    }

    pub(crate) fn extend(&mut self, bytes: &[u8])
        requires { length self.old.bytes + length bytes.now ≤ self.old.most }
        ensures { self.new ≡ record { bytes = self.old.bytes ++ bytes.now; most = self.old.most } }
    {
        // There is room, so it is not refused.
        let _ = self.items.extend_from_slice(bytes);
    }

    pub(crate) fn clear(&mut self)
        ensures { self.new ≡ record { bytes = []; most = self.old.most } }
    {
        self.items.clear();
    }

    /// Takes the last byte away.
    pub(crate) fn pop(&mut self)
        requires { 0 < length self.old.bytes }
        ensures { self.new ≡ record {
          bytes = take (length self.old.bytes - 1) self.old.bytes;
          most = self.old.most;
        } }
    {
        let len = self.items.len();
        self.items.truncate(len - 1);
    }
}
