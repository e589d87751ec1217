// What a table is.
ghost use Rattle.std.specs.Prelude.{◌≡◌, ℕ, ◌+◌, ◌<◌, ◌≤◌, List, length, IsTrue, OnOk, OnErr};
ghost use Rattle.std.specs.Option.{option_copied};
ghost use Rattle.dkv_base.specs.declared.types.Entry.{Entry};
ghost use Rattle.dkv_base.specs.State.{entry_at, put, without, is_in_key_order};
ghost use Rattle.dkv_table.specs.Walks.{walked};

use crate::Cursor;
use dkv_base::{Entry, NoMemory};

/// A finite map from keys to entries, which orders keys by their bytes.
pub trait Table {
    /// The entries in strictly rising key order.
    ghost content: { Self → List Entry };

    /// How many entries find room without memory.
    ghost spare: { Self → ℕ };

    /// Makes room for `n` more entries. Takes memory only where there is less.
    fn reserve(&mut self, n: usize) -> Result<(), NoMemory>
        ensures room { OnOk result (n ≤ spare self.new) }
        ensures full { OnErr result (spare self.old < n) }
        ensures content { content self.new ≡ content self.old }
        ensures kept { spare self.old ≤ spare self.new };

    /// The entry under the key. Takes no memory.
    fn get(&self, key: &[u8]) -> Option<&Entry>
        ensures { option_copied result ≡ entry_at key.now (content self.now) };

    /// Puts the entry in the place of the one under its key, which it hands back. Takes no memory.
    fn put(&mut self, entry: Entry) -> Option<Entry>
        requires { 1 ≤ spare self.old }
        ensures content { content self.new ≡ put entry (content self.old) }
        ensures was { result ≡ entry_at entry.key (content self.old) }
        ensures kept { spare self.old ≤ spare self.new + 1 };

    /// Takes the entry under the key out. Takes no memory.
    fn remove(&mut self, key: &[u8]) -> Option<Entry>
        ensures content { content self.new ≡ without key.now (content self.old) }
        ensures was { result ≡ entry_at key.now (content self.old) }
        ensures kept { spare self.old ≤ spare self.new };

    /// Goes over the entries from `start`, inclusive, to `end`, exclusive, down where `reverse`. Takes no memory.
    fn walk(&self, start: &[u8], end: &[u8], reverse: bool) -> Cursor<'_>
        ensures { result ≡ walked start.now end.now reverse (content self.now) };

    /// Goes over all entries, up. Takes no memory.
    fn all(&self) -> Cursor<'_>
        ensures { result ≡ content self.now };

    /// The number of entries.
    fn len(&self) -> usize
        ensures { result ≡ length (content self.now) };

    /// Each key is below those of all later entries.
    ghost ordered: { (table : Self) → IsTrue (is_in_key_order (content table)) };
}
