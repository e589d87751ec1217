// The moments at which entries end, kept in order.
ghost use Rattle.std.specs.Prelude.{◌≡◌, ◌+◌, ◌<◌, ◌≤◌, [], IsTrue, OnOk, OnErr, option_map};
ghost use Rattle.std.specs.Option.{option_copied};
ghost use Rattle.dkv_base.specs.Ordered.{is_rising};
ghost use Rattle.dkv_expiry.specs.Endings.{ending_cmp, noted, dropped, first_upto};

use crate::Ending;
use crate::ending::EndingAt;
use dkv_base::{Bytes, NoMemory};
use dkv_index::Index;
use std::alloc::Global;
use std::marker::Model;

/// The moments at which entries end, with their keys, in order. Contracts see the list `pairs` and the number `spare` of
/// endings that find room without memory.
#[derive(Drop)]
pub struct Expiry {
    pairs: Index<Ending>,
}

impl Model for Expiry {
    ghost use Rattle.dkv_expiry.specs.Endings.{Endings};

    ghost Value = { Endings };

    ghost view = { λ e. record { pairs = e.pairs.items; spare = e.pairs.spare } };
}

impl Expiry {
    /// Holds nothing, and takes no memory. The allocator is the one that `reserve` takes memory from.
    pub fn new(alloc: Global) -> Expiry
        ensures pairs { result.pairs ≡ [] }
        ensures spare { result.spare ≡ 0 }
    {
        Expiry {
            pairs: Index::new(alloc),
        }
    }

    /// Makes room for `n` more endings. Takes memory only where there is less.
    pub fn reserve(&mut self, n: usize) -> Result<(), NoMemory>
        ensures room { OnOk result (n ≤ self.new.spare) }
        ensures full { OnErr result (self.old.spare < n) }
        ensures pairs { self.new.pairs ≡ self.old.pairs }
        ensures kept { self.old.spare ≤ self.new.spare }
    {
        self.pairs.reserve(n)
    }

    /// Notes that the entry under the key ends at `expire`, in milliseconds since 1970. Takes no memory.
    pub fn note(&mut self, key: Bytes, expire: u64)
        requires { 1 ≤ self.old.spare }
        ensures pairs { self.new.pairs ≡ noted expire key self.old.pairs }
        ensures kept { self.old.spare ≤ self.new.spare + 1 }
    {
        let _ = self.pairs.put(Ending { at: expire, key });
    }

    /// Forgets that the entry under the key ends at `expire`, in milliseconds since 1970. Takes no memory.
    pub fn drop_key(&mut self, key: &[u8], expire: u64)
        ensures pairs { self.new.pairs ≡ dropped expire key.now self.old.pairs }
        ensures kept { self.old.spare ≤ self.new.spare }
    {
        let _ = self.pairs.take(&EndingAt { at: expire, key });
    }

    /// The key of what ends first, if that ends at `at` or before it, in milliseconds since 1970. Takes no memory.
    pub fn due_upto(&self, at: u64) -> Option<&Bytes>
        ensures due { option_copied result ≡ option_map (λ p.
            p.key) (first_upto at self.now.pairs) }
        ensures rising { IsTrue (is_rising ending_cmp self.now.pairs) }
    {
        let first = self.pairs.first()?;
        if first.at <= at {
            Some(&first.key)
        } else {
            None
        }
    }
}
