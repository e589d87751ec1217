// The entries of a core: a table, and the index of the moments at which its entries end.
ghost use Rattle.std.specs.Prelude.{◌≡◌, ◌+◌, ◌<◌, ◌≤◌, [], ◌&&◌, if◌then◌else◌, false, IsTrue, IfOk, OnOk, option_copied, length, count_by};
ghost use Rattle.dkv_base.specs.State.{put, without, visible, is_in_key_order};
ghost use Rattle.dkv_core.specs.Cores.{ends, put_all, without_all};
ghost use Rattle.dkv_core.specs.Entries.{forgot};

use crate::put::{Put, count_endings};
use dkv_base::{Bytes, Entry, NoMemory, Run};
use dkv_expiry::Expiry;
use dkv_table::{Blocks, Table, copies};
use std::alloc::Global;
use std::marker::Model;

/// The table and its index. Contracts see the entries and the room.
#[derive(Drop)]
pub(crate) struct Entries {
    table: Blocks,
    expiry: Expiry,
}

impl Model for Entries {
    ghost use Rattle.dkv_core.specs.Entries.{Stored, IsIndexed};

    ghost Value = { Stored };

    ghost view = { λ e. record {
      entries = ⟦<Blocks as Table>⟧.content e.table;
      spare = ⟦<Blocks as Table>⟧.spare e.table;
      endings = e.expiry.spare;
    } };

    ghost invariant = { λ e. IsIndexed (⟦<Blocks as Table>⟧.content e.table) e.expiry.pairs };
}

impl Entries {
    /// Holds nothing, and takes no memory.
    pub(crate) fn new(alloc: Global) -> Entries
        ensures { result ≡ record { entries = []; spare = 0; endings = 0 } }
    {
        Entries {
            table: Blocks::new(alloc),
            expiry: Expiry::new(alloc),
        }
    }

    /// Holds these entries. Takes memory for them and for their index, as each is put.
    #[tactic(auto, using(crate::proofs::PutInOrder::put_in_order))]
    pub(crate) fn of(alloc: Global, entries: Run<Entry>) -> Result<Entries, NoMemory>
        requires { IsTrue (is_in_key_order entries) }
        ensures { IfOk result (λ e. e.entries ≡ entries) }
    {
        let mut made = Entries::new(alloc);
        for entry in entries.into_vec() {
            made.add(Put::of(alloc, entry)?)?;
        }
        Ok(made)
    }

    // Makes room for the entry, and puts it.
    fn add(&mut self, new: Put) -> Result<(), NoMemory>
        ensures { OnOk result (self.new.entries ≡ put new self.old.entries) }
    {
        self.table.reserve(1)?;
        self.expiry.reserve(1)?;
        self.put(new);
        Ok(())
    }

    /// The same entries. Takes memory for them.
    pub(crate) fn copy(&self, alloc: Global) -> Result<Entries, NoMemory>
        ensures { IfOk result (λ e. e.entries ≡ self.now.entries) }
    {
        let entries = copies(alloc, self.table.all())?;
        Entries::of(alloc, entries)
    }

    /// The table alone.
    pub(crate) fn table(&self) -> &Blocks
        ensures { ⟦<Blocks as Table>⟧.content result.now ≡ self.now.entries }
    {
        &self.table
    }

    /// Makes room for these entries.
    pub(crate) fn reserve(&mut self, puts: &Run<Put>) -> Result<(), NoMemory>
        ensures spare { OnOk result (length puts.now ≤ self.new.spare) }
        ensures endings { OnOk result (count_by ends puts.now ≤ self.new.endings) }
        ensures entries { self.new.entries ≡ self.old.entries }
        ensures kept_spare { self.old.spare ≤ self.new.spare }
        ensures kept_endings { self.old.endings ≤ self.new.endings }
    {
        self.table.reserve(puts.len())?;
        self.expiry.reserve(count_endings(puts.as_slice()))
    }

    // Takes the entry under the key out.
    fn remove(&mut self, key: &[u8])
        ensures entries { self.new.entries ≡ without key.now self.old.entries }
        ensures spare { self.old.spare ≤ self.new.spare }
        ensures endings { self.old.endings ≤ self.new.endings }
    {
        let was = self.table.remove(key);
        forget(&mut self.expiry, &was);
    }

    // Puts the entry in the place of the one under its key.
    fn put(&mut self, new: Put)
        requires spare { 1 ≤ self.old.spare }
        requires endings { (if ends new then 1 else 0) ≤ self.old.endings }
        ensures entries { self.new.entries ≡ put new self.old.entries }
        ensures spare { self.old.spare ≤ self.new.spare + 1 }
        ensures endings { self.old.endings ≤ self.new.endings + (if ends new then 1 else 0) }
    {
        let Put { entry, note } = new;
        let expire = entry.expire;
        let was = self.table.put(entry);
        forget(&mut self.expiry, &was);
        if let Some(key) = note {
            self.expiry.note(key, expire);
        }
    }

    // Takes out one entry that has ended at the moment, if there is one.
    fn drop_one(&mut self, at: u64) -> bool
        ensures entries { visible at self.new.entries ≡ visible at self.old.entries }
        ensures one { IsTrue result → length self.new.entries < length self.old.entries }
        ensures none { result ≡ false → visible at self.new.entries ≡ self.new.entries }
        ensures spare { self.old.spare ≤ self.new.spare }
        ensures endings { self.old.endings ≤ self.new.endings }
    {
        let Some(key) = self.expiry.due_upto(at) else {
            return false;
        };
        let was = self.table.remove(key.as_slice());
        forget(&mut self.expiry, &was);
        true
    }

    /// Takes out what has ended at the moment, in milliseconds since 1970. Takes no memory.
    pub(crate) fn drop_ended(&mut self, at: u64)
        ensures entries { self.new.entries ≡ visible at self.old.entries }
        ensures spare { self.old.spare ≤ self.new.spare }
        ensures endings { self.old.endings ≤ self.new.endings }
    {
        while self.drop_one(at) {}
    }

    /// Takes these keys out. Takes no memory.
    pub(crate) fn remove_all(&mut self, keys: Run<Bytes>)
        ensures entries { self.new.entries ≡ without_all keys self.old.entries }
        ensures spare { self.old.spare ≤ self.new.spare }
        ensures endings { self.old.endings ≤ self.new.endings }
    {
        for key in keys.into_vec() {
            self.remove(key.as_slice());
        }
    }

    /// Puts these entries in their order, each in the place of the one under its key. Takes no memory.
    pub(crate) fn put_all(&mut self, puts: Run<Put>)
        requires spare { length puts ≤ self.old.spare }
        requires endings { count_by ends puts ≤ self.old.endings }
        ensures entries { self.new.entries ≡ put_all puts self.old.entries }
        ensures spare { self.old.spare ≤ self.new.spare + length puts }
        ensures endings { self.old.endings ≤ self.new.endings + count_by ends puts }
    {
        for put in puts.into_vec() {
            self.put(put);
        }
    }
}

// Forgets the end of an entry that is gone.
fn forget(expiry: &mut Expiry, was: &Option<Entry>)
    ensures pairs { expiry.new.pairs ≡ forgot was.now expiry.old.pairs }
    ensures kept { expiry.old.spare ≤ expiry.new.spare }
{
    if let Some(entry) = was {
        if entry.expire > 0 {
            expiry.drop_key(entry.key.as_slice(), entry.expire);
        }
    }
}
