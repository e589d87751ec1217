// A walk over entries.
ghost use Rattle.std.specs.Prelude.{◌≡◌, [], ◌∷◌, ◌++◌, IfSome, IfNone, IfOk};

use crate::block::Block;
use crate::rest::{Rest, take_first, take_last};
use dkv_base::{Entry, NoMemory, Run, TryCopy};
use std::alloc::Global;
use std::marker::Model;

/// A walk over entries of a table, which contracts see as the list of entries still to come.
#[derive(Drop)]
pub struct Cursor<'a> {
    rest: Rest<'a>,
    reverse: bool,
}

impl<'a> Model for Cursor<'a> {
    ghost use Rattle.std.specs.Prelude.{List};
    ghost use Rattle.dkv_base.specs.declared.types.Entry.{Entry};

    ghost Value = { List Entry };

    ghost use Rattle.dkv_base.specs.Replies.{turned};
    ghost use Rattle.dkv_table.specs.Rests.{rest_of};

    ghost view = { λ c. turned c.reverse (rest_of c.rest) };
}

impl<'a> Cursor<'a> {
    ghost use Rattle.dkv_base.specs.Replies.{turned};
    ghost use Rattle.dkv_table.specs.Blocks.{joined};

    // Goes over these entries, from the back where `reverse`.
    pub(crate) fn over(entries: &'a [Entry], reverse: bool) -> Cursor<'a>
        ensures { result ≡ turned reverse entries.now }
    {
        Cursor::across(entries, &[], &[], reverse)
    }

    // Goes over these entries, those of the blocks and then these, from the back where `reverse`.
    pub(crate) fn across(
        front: &'a [Entry],
        middle: &'a [Block],
        back: &'a [Entry],
        reverse: bool,
    ) -> Cursor<'a>
        ensures { result ≡ turned reverse (front.now ++ joined middle.now ++ back.now) }
    {
        let rest = Rest {
            front,
            middle,
            back,
        };
        Cursor { rest, reverse }
    }

    /// The next entry, or none where none is left. Takes no memory.
    pub fn next(&mut self) -> Option<&'a Entry>
        ensures first { IfSome result (λ entry. self.old ≡ entry.now ∷ self.new) }
        ensures ended { IfNone result (self.old ≡ []) }
        ensures stays { IfNone result (self.new ≡ []) }
    {
        if self.reverse {
            take_last(&mut self.rest)
        } else {
            take_first(&mut self.rest)
        }
    }
}

/// Copies of all entries of a walk. Takes memory for them.
pub fn copies(alloc: Global, mut cursor: Cursor<'_>) -> Result<Run<Entry>, NoMemory>
    ensures { IfOk result (λ entries. entries ≡ cursor.entry) }
{
    let mut entries = Run::new(alloc);
    while let Some(entry) = cursor.next() {
        entries.add(entry.copy(alloc)?)?;
    }
    Ok(entries)
}
