// A table in one vector in key order.
ghost use Rattle.std.specs.Prelude.{◌≡◌, [], IsTrue};
ghost use Rattle.dkv_base.specs.State.{is_in_key_order};

use crate::sorted::{look_up, range, store, take_out};
use crate::{Cursor, Table};
use dkv_base::{Entry, NoMemory, Run};
use std::alloc::Global;

/// A table in one sorted vector, against which the others are measured.
#[derive(Drop)]
pub struct Plain {
    entries: Vec<Entry>,
    ghost ordered: { IsTrue (is_in_key_order entries.items) },
}

impl Plain {
    /// Holds nothing, and takes no memory. The allocator is the one that `reserve` takes memory from.
    pub fn new(alloc: Global) -> Plain
        ensures content { ⟦<Plain as Table>⟧.content result ≡ [] }
        ensures spare { ⟦<Plain as Table>⟧.spare result ≡ 0 }
    {
        Plain {
            entries: Vec::new(alloc),
        }
    }

    /// Hands the entries on in key order. Takes no memory.
    pub fn into_entries(self) -> Run<Entry>
        ensures { result ≡ ⟦<Plain as Table>⟧.content self }
    {
        Run::of(self.entries)
    }
}

impl Table for Plain {
    ghost use Rattle.std.specs.Prelude.{◌-◌};
    ghost use Rattle.std.specs.Vec.{vec_len, vec_capacity};

    ghost content = { λ p. p.entries.items };

    ghost spare = { λ p. vec_capacity p.entries - vec_len p.entries };

    ghost ordered = { λ p. p.ordered };

    fn reserve(&mut self, n: usize) -> Result<(), NoMemory> {
        Ok(self.entries.reserve(n)?)
    }

    fn get(&self, key: &[u8]) -> Option<&Entry> {
        look_up(&self.entries, key)
    }

    fn put(&mut self, entry: Entry) -> Option<Entry> {
        store(&mut self.entries, entry)
    }

    fn remove(&mut self, key: &[u8]) -> Option<Entry> {
        take_out(&mut self.entries, key)
    }

    fn walk(&self, start: &[u8], end: &[u8], reverse: bool) -> Cursor<'_> {
        Cursor::over(range(&self.entries, start, end), reverse)
    }

    fn all(&self) -> Cursor<'_> {
        Cursor::over(&self.entries, false)
    }

    fn len(&self) -> usize {
        self.entries.len()
    }
}
