// What the mutations of a write left so far, beside a table that stays as it is.
ghost use Rattle.std.specs.Prelude.{◌≡◌, ℕ, map, IfOk, OnOk, OnErr, IsTrue, bytes_eq};
ghost use Rattle.std.specs.List.{IsDistinct};
ghost use Rattle.std.specs.Option.{option_copied};
ghost use Rattle.dkv_base.specs.State.{entry_at, is_in_key_order};
ghost use Rattle.dkv_atomic.specs.Decisions.{effected, changed_keys};
ghost use Rattle.dkv_atomic.specs.Overlays.{entry_behind, with_put, with_gone, no_changes, is_apart};
ghost use Rattle.dkv_table.specs.Places.{marker};

use crate::Effects;
use crate::seen::seen_at;
use dkv_base::{Bytes, Entry, NoMemory, Run};
use dkv_table::{Plain, Table};
use std::alloc::Global;
use std::marker::Model;

/// The entries that were put and the keys that were removed, which contracts see as `Changes`.
#[derive(Drop)]
pub(crate) struct Overlay {
    puts: Plain,
    // An entry here stands for its key alone.
    gone: Plain,
}

impl Model for Overlay {
    ghost use Rattle.std.specs.Prelude.{IsTrue};
    ghost use Rattle.dkv_atomic.specs.Overlays.{Changes, is_apart};

    ghost Value = { Changes };

    ghost view = { λ o. record { puts = ⟦<Plain as Table>⟧.content o.puts; gone = ⟦<Plain as Table>⟧.content o.gone } };

    ghost invariant = { λ o. IsTrue (is_apart (⟦<Plain as Table>⟧.content o.puts) (⟦<Plain as Table>⟧.content o.gone)) };
}

impl Overlay {
    /// Changes nothing, and takes no memory.
    pub(crate) fn new(alloc: Global) -> Overlay
        ensures { result ≡ no_changes }
    {
        Overlay {
            puts: Plain::new(alloc),
            gone: Plain::new(alloc),
        }
    }

    /// The entry under the key, behind the changes to what can be seen in the table. Takes no memory.
    pub(crate) fn found<'a, T: Table>(
        &'a self,
        table: &'a T,
        key: &[u8],
        at: u64,
    ) -> Option<&'a Entry>
        ensures { option_copied result ≡ entry_behind self.now (T.content table.now) at key.now }
    {
        match self.puts.get(key) {
            Some(entry) => Some(entry),
            None => self.left(table, key, at),
        }
    }

    // The entry under a key that was not put.
    fn left<'a, T: Table>(&'a self, table: &'a T, key: &[u8], at: u64) -> Option<&'a Entry>
        requires { entry_at key.now self.now.puts ≡ None }
        ensures { option_copied result ≡ entry_behind self.now (T.content table.now) at key.now }
    {
        match self.gone.get(key) {
            Some(_) => None,
            None => seen_at(table, key, at),
        }
    }

    /// Puts the entry in the place of what is under its key.
    pub(crate) fn put(&mut self, entry: Entry) -> Result<(), NoMemory>
        ensures ok { OnOk result (self.new ≡ with_put entry self.old) }
        ensures rises { IsTrue (is_in_key_order self.old.puts) }
    {
        self.puts.reserve(1)?;
        let _ = self.gone.remove(entry.key.as_slice());
        let _ = self.puts.put(entry);
        Ok(())
    }

    /// Takes the key away.
    pub(crate) fn remove(&mut self, alloc: Global, key: Bytes) -> Result<(), NoMemory>
        ensures ok { OnOk result (self.new ≡ with_gone (marker key) self.old) }
        ensures rises { IsTrue (is_in_key_order self.old.puts) }
    {
        self.gone.reserve(1)?;
        let _ = self.puts.remove(key.as_slice());
        let _ = self.gone.put(Entry {
            key,
            bytes: Bytes::of(Vec::new(alloc)),
            encoding: 0,
            commit: 0,
            expire: 0,
        });
        Ok(())
    }

    /// The changes, each key once. Takes memory for the list of the removed keys.
    pub(crate) fn into_effects(self, alloc: Global) -> Result<Effects, NoMemory>
        ensures puts { IfOk result (λ e. e.puts ≡ self.puts) }
        ensures removed { IfOk result (λ e. e.removed ≡ map (λ g. g.key) self.gone) }
        ensures distinct { IfOk result (λ e. IsDistinct bytes_eq (changed_keys e)) }
    {
        let puts = self.puts.into_entries();
        let gone = self.gone.into_entries();
        Ok(Effects {
            puts,
            removed: keys_of(alloc, gone)?,
        })
    }
}

// The keys of the entries, in their order.
fn keys_of(alloc: Global, entries: Run<Entry>) -> Result<Run<Bytes>, NoMemory>
    ensures { IfOk result (λ keys. keys ≡ map (λ e. e.key) entries) }
{
    let entries = entries.into_vec().into_iter();
    let keys: Vec<Bytes> = entries.map(|entry| entry.key).collect(alloc)?;
    Ok(Run::of(keys))
}
