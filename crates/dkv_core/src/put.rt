// Entries that are to be stored.
ghost use Rattle.std.specs.Prelude.{◌≡◌, IfOk, count_by};
ghost use Rattle.dkv_core.specs.Cores.{ends};

use dkv_base::{Bytes, Entry, NoMemory, Run, TryCopy};
use std::alloc::Global;
use std::marker::Model;

/// An entry that is to be stored, with a copy of its key for the index of ends where it has one. Contracts see the entry.
#[derive(Debug, Drop)]
pub(crate) struct Put {
    pub(crate) entry: Entry,
    pub(crate) note: Option<Bytes>,
}

impl Model for Put {
    ghost use Rattle.std.specs.Prelude.{◌≡◌};
    ghost use Rattle.dkv_base.specs.declared.types.Entry.{Entry};

    ghost Value = { Entry };

    ghost use Rattle.dkv_core.specs.Entries.{note_of};

    ghost view = { λ p. p.entry };

    ghost invariant = { λ p. p.note ≡ note_of p.entry };
}

impl Put {
    /// Takes memory for the copy of the key.
    pub(crate) fn of(alloc: Global, entry: Entry) -> Result<Put, NoMemory>
        ensures { IfOk result (λ p. p ≡ entry) }
    {
        let note = if entry.expire > 0 {
            Some(entry.key.copy(alloc)?)
        } else {
            None
        };
        Ok(Put { entry, note })
    }
}

/// The entries in their order, each with what the index needs. Takes memory for copies of keys.
pub(crate) fn puts_of(alloc: Global, entries: Run<Entry>) -> Result<Run<Put>, NoMemory>
    ensures { IfOk result (λ puts. puts ≡ entries) }
{
    let mut puts = Run::new(alloc);
    for entry in entries.into_vec() {
        puts.add(Put::of(alloc, entry)?)?;
    }
    Ok(puts)
}

/// How many of the entries end.
pub(crate) fn count_endings(puts: &[Put]) -> usize
    ensures { result ≡ count_by ends puts.now }
{
    let mut count = 0;
    for put in puts {
        if put.entry.expire > 0 {
            count += 1;
        }
    }
    count
}
