// What a hub has of a watcher.
ghost use Rattle.std.specs.Prelude.{◌≡◌, IfOk};
ghost use Rattle.dkv_hub.specs.Rows.{new_row, is_row_of, same_keys};

use crate::last::LastShown;
use dkv_base::{Bytes, NoMemory, Run, TryCopy};
use std::alloc::Global;
use std::marker::Model;

// What a hub has of a watcher: its number and its keys, what it showed last, and whether that may
// have changed since.
#[derive(Drop)]
pub(crate) struct Row {
    number: u64,
    keys: Run<Bytes>,
    last: LastShown,
    marked: bool,
}

impl Model for Row {
    ghost use Rattle.dkv_hub.specs.Rows.{WatchRow};
    ghost use Rattle.std.specs.Prelude.{◌≡◌, length};

    ghost Value = { WatchRow };

    ghost view = { λ r. record {
      number = r.number;
      keys = r.keys;
      shown = r.last.shown;
      marked = r.marked;
    } };

    ghost invariant = { λ r. r.last.room ≡ length r.keys };
}

// Whether the keys are the same, in the same order.
fn are_same(some: &[Bytes], others: &[Bytes]) -> bool
    ensures { result ≡ same_keys some.now others.now }
{
    some.len() == others.len()
        && some
            .iter()
            .zip(others)
            .all(|(key, other)| key.as_slice() == other.as_slice())
}

impl Row {
    // The row of a watcher that has shown nothing yet.
    pub(crate) fn of(alloc: Global, number: u64, keys: &Run<Bytes>) -> Result<Row, NoMemory>
        ensures { IfOk result (λ r. r ≡ new_row number keys.now) }
    {
        Ok(Row {
            number,
            keys: keys.copy(alloc)?,
            last: LastShown::with_room(alloc, keys.len())?,
            marked: true,
        })
    }

    // Whether it is the row of the watcher with this number and these keys.
    pub(crate) fn is_of(&self, number: u64, keys: &[Bytes]) -> bool
        ensures { result ≡ is_row_of number keys.now self.now }
    {
        self.number == number && are_same(self.keys.as_slice(), keys)
    }
}
