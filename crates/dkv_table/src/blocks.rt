// A table in blocks, so that a put and a removal move the entries of a block or two and no others.
ghost use Rattle.std.specs.Prelude.{◌≡◌, ◌≤◌, [], IsTrue, OnOk, OnErr, IfOk};
ghost use Rattle.std.specs.List.{list_all};
ghost use Rattle.std.specs.Vec.{vec_len, vec_capacity};
ghost use Rattle.dkv_base.specs.State.{is_empty};
ghost use Rattle.dkv_table.specs.Blocks.{AreKept};

use crate::block::Block;
use crate::changes::{put_into, take_from};
use crate::seats::seat;
use crate::{Cursor, Table};
use dkv_base::{Entry, NoMemory};
use std::alloc::Global;

/// A table in blocks of at most `MOST_ENTRIES` entries. A put into a full block divides it, and a block without entries is
/// taken out. Room for a put is an empty block, which takes memory for all its entries.
#[derive(Drop)]
pub struct Blocks {
    blocks: Vec<Block>,
    ready: Vec<Block>,
    count: usize,
    spare: usize,
    alloc: Global,
    ghost kept: { AreKept blocks.items ready.items count spare (vec_capacity blocks) },
}

impl Blocks {
    /// Holds nothing, and takes no memory. The allocator is the one that `reserve` takes memory from.
    pub fn new(alloc: Global) -> Blocks
        ensures content { ⟦<Blocks as Table>⟧.content result ≡ [] }
        ensures spare { ⟦<Blocks as Table>⟧.spare result ≡ 0 }
    {
        Blocks {
            blocks: Vec::new(alloc),
            ready: Vec::new(alloc),
            count: 0,
            spare: 0,
            alloc,
        }
    }
}

impl Table for Blocks {
    ghost use Rattle.dkv_table.specs.Blocks.{joined};

    ghost content = { λ b. joined b.blocks.items };

    ghost spare = { λ b. b.spare };

    ghost ordered = { λ b. b.kept.blocks.in_order };

    fn reserve(&mut self, n: usize) -> Result<(), NoMemory> {
        if n <= self.spare {
            return Ok(());
        }
        self.count.checked_add(n).ok_or(NoMemory)?;
        self.blocks.reserve(n)?;
        fill(&mut self.ready, self.alloc, n)?;
        self.spare = n;
        Ok(())
    }

    fn get(&self, key: &[u8]) -> Option<&Entry> {
        let at = seat(&self.blocks, key)?;
        self.blocks[at].get(key)
    }

    fn put(&mut self, entry: Entry) -> Option<Entry> {
        let was = put_into(&mut self.blocks, &mut self.ready, entry);
        self.spare -= 1;
        if was.is_none() {
            self.count += 1;
        }
        was
    }

    fn remove(&mut self, key: &[u8]) -> Option<Entry> {
        let was = take_from(&mut self.blocks, key);
        if was.is_some() {
            self.count -= 1;
        }
        was
    }

    fn walk(&self, start: &[u8], end: &[u8], reverse: bool) -> Cursor<'_> {
        let (Some(first), Some(last)) = (seat(&self.blocks, start), seat(&self.blocks, end)) else {
            return Cursor::over(&[], reverse);
        };
        let front = self.blocks[first].range(start, end);
        if first < last {
            let back = self.blocks[last].range(start, end);
            Cursor::across(front, &self.blocks[first + 1..last], back, reverse)
        } else {
            Cursor::over(front, reverse)
        }
    }

    fn all(&self) -> Cursor<'_> {
        Cursor::across(&[], &self.blocks, &[], false)
    }

    fn len(&self) -> usize {
        self.count
    }
}

// Adds empty blocks until there are `n`.
fn fill(ready: &mut Vec<Block>, alloc: Global, n: usize) -> Result<(), NoMemory>
    requires { IsTrue (list_all is_empty ready.old.items) }
    ensures room { OnOk result (n ≤ vec_len ready.new) }
    ensures kept { vec_len ready.old ≤ vec_len ready.new }
    ensures empty { IsTrue (list_all is_empty ready.new.items) }
{
    while ready.len() < n {
        let block = Block::new(alloc)?;
        ready.push(block).map_err(|_| NoMemory)?;
    }
    Ok(())
}
