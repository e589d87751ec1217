// The hub: who watches.
ghost use Rattle.std.specs.Prelude.{◌≡◌, ◌++◌, ◌∷◌, [], None, IfOk, OnErr, IsTrue};
ghost use Rattle.dkv_base.specs.Limits.{watch_limit};
ghost use Rattle.dkv_hub.specs.Rows.{new_row, is_free, rows_without};

use crate::Watcher;
use crate::last::LastShown;
use crate::row::Row;
use dkv_base::{Bytes, NoMemory, Run};
use std::alloc::Global;
use std::marker::Model;

/// Those who watch. Contracts see the list of their rows, in the order in which they entered: a
/// watcher's number and its keys, what it showed last, and a mark where that may have changed since.
#[derive(Drop)]
pub struct Hub {
    rows: Vec<Row>,
    // Above the number of each row.
    next: u64,
    alloc: Global,
}

impl Model for Hub {
    ghost use Rattle.std.specs.Prelude.{List, IsTrue};
    ghost use Rattle.dkv_hub.specs.Rows.{WatchRow, are_below};

    ghost Value = { List WatchRow };

    ghost view = { λ h. h.rows.items };

    ghost invariant = { λ h. IsTrue (are_below h.next h.rows.items) };
}

impl Hub {
    /// Nobody watches. Takes no memory. The allocator is the one that `enter` takes memory from.
    pub fn new(alloc: Global) -> Hub
        ensures { result ≡ [] }
    {
        Hub {
            rows: Vec::new(alloc),
            next: 0,
            alloc,
        }
    }

    /// Begins a watch of the keys. Takes memory for its row, and for what the watcher will show.
    /// After 2^64 - 1 watchers a hub has no number left, and answers as for want of memory.
    pub fn enter(&mut self, keys: Run<Bytes>) -> Result<Watcher, NoMemory>
        requires { watch_limit keys ≡ None }
        ensures watcher { IfOk result (λ w.
            w ≡ record { number = w.number; keys = keys; shown = None }) }
        ensures number { IfOk result (λ w. IsTrue (is_free w.number self.old)) }
        ensures row { IfOk result (λ w.
            self.new ≡ self.old ++ new_row w.number keys ∷ []) }
        ensures refused { OnErr result (self.new ≡ self.old) }
    {
        let number = self.next;
        let next = number.checked_add(1).ok_or(NoMemory)?;
        let row = Row::of(self.alloc, number, &keys)?;
        let last = LastShown::with_room(self.alloc, keys.len())?;
        match self.rows.push(row) {
            Ok(()) => {
                self.next = next;
                Ok(Watcher { number, keys, last })
            }
            Err(_) => Err(NoMemory),
        }
    }

    /// Ends a watch, and takes away the row that has its number and its keys, if there is one.
    /// Takes no memory.
    pub fn leave(&mut self, watcher: Watcher)
        ensures { self.new ≡ rows_without watcher.number watcher.keys self.old }
    {
        let Watcher {
            number,
            keys,
            last: _,
        } = watcher;
        self.rows.retain(|row| !row.is_of(number, keys.as_slice()));
    }
}
