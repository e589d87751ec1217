// One block of a table in blocks.
ghost use Rattle.std.specs.Prelude.{◌≡◌, ◌+◌, ◌<◌, ◌≤◌, [], ◌++◌, false, length, IsTrue, IfOk, None, is_some, if◌then◌else◌, filter};
ghost use Rattle.std.specs.List.{list_all};
ghost use Rattle.std.specs.Option.{option_copied};
ghost use Rattle.std.specs.Vec.{vec_len, vec_capacity};
ghost use Rattle.dkv_base.specs.State.{entry_at, put, without, is_between, is_empty, is_in_key_order};
ghost use Rattle.dkv_table.specs.Places.{is_below};
ghost use Rattle.dkv_table.specs.Blocks.{begins_upto, is_filled};

use crate::place::first_from;
use crate::sorted::{look_up, range, store, take_out};
use dkv_base::{Entry, NoMemory, compare};
use std::alloc::Global;
use std::marker::Model;

/// The most entries of a block.
pub const MOST_ENTRIES: usize = 128;

// Entries in key order, with room for as many as a block may have.
#[derive(Drop)]
pub(crate) struct Block {
    entries: Vec<Entry>,
}

impl Model for Block {
    ghost use Rattle.std.specs.Prelude.{List};
    ghost use Rattle.std.specs.Vec.{vec_capacity};
    ghost use Rattle.dkv_base.specs.declared.types.Entry.{Entry};
    ghost use Rattle.dkv_table.specs.Blocks.{IsBlock};

    ghost Value = { List Entry };

    ghost view = { λ b. b.entries.items };

    ghost invariant = { λ b. IsBlock b.entries.items (vec_capacity b.entries) };
}

impl Block {
    // An empty one. Takes memory for all its entries.
    pub(crate) fn new(alloc: Global) -> Result<Block, NoMemory>
        ensures { IfOk result (λ b. b ≡ []) }
    {
        Ok(Block {
            entries: Vec::with_capacity(alloc, MOST_ENTRIES)?,
        })
    }

    pub(crate) fn as_slice(&self) -> &[Entry]
        ensures items { result.now ≡ self.now }
        ensures order { IsTrue (is_in_key_order self.now) }
    {
        &self.entries
    }

    pub(crate) fn is_empty(&self) -> bool
        ensures { result ≡ is_empty self.now }
    {
        self.entries.is_empty()
    }

    // Whether the first key is the key or below it.
    pub(crate) fn begins_upto(&self, key: &[u8]) -> bool
        ensures { result ≡ begins_upto key.now self.now }
    {
        match self.entries.first() {
            Some(first) => compare(first.key.as_slice(), key).is_le(),
            None => false,
        }
    }

    // Whether all keys are below the key.
    fn is_below(&self, key: &[u8]) -> bool
        ensures { result ≡ list_all (is_below key.now) self.now }
    {
        first_from(&self.entries, key) == self.entries.len()
    }

    // The entry under the key.
    pub(crate) fn get(&self, key: &[u8]) -> Option<&Entry>
        ensures { option_copied result ≡ entry_at key.now self.now }
    {
        look_up(&self.entries, key)
    }

    // The entries from `start`, inclusive, to `end`, exclusive.
    pub(crate) fn range(&self, start: &[u8], end: &[u8]) -> &[Entry]
        ensures { result.now ≡ filter (λ e. is_between start.now end.now e.key) self.now }
    {
        range(&self.entries, start, end)
    }

    // Whether an entry with the key can be put: it takes the place of another, or the block isn't full.
    pub(crate) fn takes(&self, key: &[u8]) -> bool
        ensures room { IsTrue result
            → entry_at key.now self.now ≡ None → length self.now < MOST_ENTRIES }
        ensures full { result ≡ false → length self.now ≡ MOST_ENTRIES }
        ensures absent { result ≡ false → entry_at key.now self.now ≡ None }
    {
        self.entries.len() < MOST_ENTRIES || self.get(key).is_some()
    }

    // Puts the entry in the place of the one under its key, which it hands back.
    pub(crate) fn put(&mut self, entry: Entry) -> Option<Entry>
        requires { entry_at entry.key self.old ≡ None → length self.old < MOST_ENTRIES }
        ensures content { self.new ≡ put entry self.old }
        ensures was { result ≡ entry_at entry.key self.old }
        ensures len { length self.new ≡ length self.old + (if is_some result then 0 else 1) }
    {
        store(&mut self.entries, entry)
    }

    // Takes the entry under the key out.
    pub(crate) fn remove(&mut self, key: &[u8]) -> Option<Entry>
        ensures content { self.new ≡ without key.now self.old }
        ensures was { result ≡ entry_at key.now self.old }
        ensures len { length self.new + (if is_some result then 1 else 0) ≡ length self.old }
    {
        take_out(&mut self.entries, key)
    }

    // Puts an entry into a full block: half of the entries go into the empty block, which comes back. Where the full one is
    // the last of a table and all its keys are below the new one, it stays, so that rising keys fill their blocks.
    pub(crate) fn divide(&mut self, mut upper: Block, entry: Entry, is_last: bool) -> Block
        requires full { length self.old ≡ MOST_ENTRIES }
        requires absent { entry_at entry.key self.old ≡ None }
        requires empty { upper ≡ [] }
        ensures content { self.new ++ result ≡ put entry self.old }
        ensures len { length self.new + length result ≡ length self.old + 1 }
        ensures lower { IsTrue (is_filled self.new) }
        ensures upper { IsTrue (is_filled result) }
    {
        if is_last && self.is_below(entry.key.as_slice()) {
            let _ = upper.put(entry);
            return upper;
        }
        self.halve(&mut upper);
        if self.is_below(entry.key.as_slice()) {
            let _ = upper.put(entry);
        } else {
            let _ = self.put(entry);
        }
        upper
    }

    // Moves the upper half into an empty block.
    fn halve(&mut self, upper: &mut Block)
        requires full { length self.old ≡ MOST_ENTRIES }
        requires empty { upper.old ≡ [] }
        ensures content { self.new ++ upper.new ≡ self.old }
        ensures lower { length self.new ≡ 64 }
        ensures upper { length upper.new ≡ 64 }
        ensures order { IsTrue (is_in_key_order self.old) }
    {
        move_half(&mut self.entries, &mut upper.entries);
    }
}

// Moves the upper half of a block's entries behind no others.
fn move_half(lower: &mut Vec<Entry>, upper: &mut Vec<Entry>)
    requires full { vec_len lower.old ≡ MOST_ENTRIES }
    requires empty { upper.old.items ≡ [] }
    requires room { MOST_ENTRIES ≤ vec_capacity upper.old }
    ensures content { lower.new.items ++ upper.new.items ≡ lower.old.items }
    ensures lower_len { vec_len lower.new ≡ 64 }
    ensures upper_len { vec_len upper.new ≡ 64 }
    ensures lower_capacity { vec_capacity lower.new ≡ vec_capacity lower.old }
    ensures upper_capacity { vec_capacity upper.new ≡ vec_capacity upper.old }
{
    for _ in 0..MOST_ENTRIES / 2 {
        let entry = lower.take_last();
        upper.push_reserved(entry);
    }
    upper.reverse();
}
