// The set of items, with its counts and its spare room.
ghost use Rattle.std.specs.Prelude.{◌≡◌, ◌+◌, ◌≤◌, ◌<◌, [], ◌∷◌, length, slice_get, IsTrue, IfSome, IfNone, IfOk, OnOk, OnErr};
ghost use Rattle.std.specs.Option.{option_copied};
ghost use Rattle.dkv_base.specs.Ordered.{found, above, put_in, left_out, is_rising};

use crate::changes::{grow, shrink};
use crate::copies::copy_tree;
use crate::pool::Pool;
use crate::searches::{look_above, look_first, look_up};
use crate::tree::Tree;
use crate::{Probe, Ranked};
use dkv_base::{NoMemory, TryCopy};
use std::alloc::Global;
use std::marker::Model;
use std::mem;

/// Items in strictly rising order, with room for more that is made ahead. Contracts see the list `items` and the number
/// `spare` of items that find room without memory.
#[derive(Drop)]
pub struct Index<T: Ranked> {
    tree: Tree<T>,
    count: usize,
    pool: Pool<T>,
}

impl<T: Ranked> Model for Index<T> {
    ghost use Rattle.dkv_index.specs.Contents.{Contents, contents_code};
    ghost use Rattle.dkv_index.specs.Trees.{items_of, IsKept};

    ghost Value = { Contents T };

    ghost coded = { contents_code T.code };

    ghost view = { λ i. record { items = items_of i.tree; spare = i.pool.ready } };

    ghost invariant = { λ i. IsKept T.rank i.tree i.count i.pool };
}

impl<T: Ranked> Index<T> {
    /// Holds nothing, and takes no memory. The allocator is the one that `reserve` takes memory from.
    pub fn new(alloc: Global) -> Index<T>
        ensures items { result.items ≡ [] }
        ensures spare { result.spare ≡ 0 }
    {
        Index {
            tree: Tree::Leaf,
            count: 0,
            pool: Pool::new(alloc),
        }
    }

    /// Makes room for `n` more items. Takes memory only where there is less.
    pub fn reserve(&mut self, n: usize) -> Result<(), NoMemory>
        ensures room { OnOk result (n ≤ self.new.spare) }
        ensures full { OnErr result (self.old.spare < n) }
        ensures items { self.new.items ≡ self.old.items }
        ensures kept { self.old.spare ≤ self.new.spare }
    {
        self.pool.fill(self.count, n)
    }

    /// The number of items.
    pub fn len(&self) -> usize
        ensures { result ≡ length self.now.items }
    {
        self.count
    }

    /// The item that ranks as the probe does. Takes no memory.
    pub fn get<P: Probe<T>>(&self, probe: &P) -> Option<&T>
        ensures found { option_copied result
            ≡ found T.rank (P.stands_for probe.now) self.now.items }
        ensures rising { IsTrue (is_rising T.rank self.now.items) }
    {
        look_up(&self.tree, probe)
    }

    /// The item that ranks lowest. Takes no memory.
    pub fn first(&self) -> Option<&T>
        ensures first { option_copied result ≡ slice_get self.now.items 0 }
        ensures rising { IsTrue (is_rising T.rank self.now.items) }
    {
        look_first(&self.tree)
    }

    /// The first item that ranks above the probe. Takes no memory.
    pub fn above<P: Probe<T>>(&self, probe: &P) -> Option<&T>
        ensures above { option_copied result
            ≡ above T.rank (P.stands_for probe.now) self.now.items }
        ensures rising { IsTrue (is_rising T.rank self.now.items) }
    {
        look_above(&self.tree, probe)
    }

    /// Puts the item in the place of the one that ranks as it does, which it hands back. Takes no memory.
    pub fn put(&mut self, item: T) -> Option<T>
        requires { 1 ≤ self.old.spare }
        ensures items { self.new.items ≡ put_in T.rank item self.old.items }
        ensures was { result ≡ found T.rank item self.old.items }
        ensures kept { self.old.spare ≤ self.new.spare + 1 }
        ensures rising { IsTrue (is_rising T.rank self.old.items) }
    {
        let node = self.pool.node_of(item);
        let grown = grow(mem::replace(&mut self.tree, Tree::Leaf), node);
        self.tree = grown.tree;
        match grown.over {
            Some(node) => Some(self.pool.item_of(node)),
            None => {
                self.count += 1;
                None
            }
        }
    }

    /// Takes the item out that ranks as the probe does. Takes no memory.
    pub fn take<P: Probe<T>>(&mut self, probe: &P) -> Option<T>
        ensures items { self.new.items ≡ left_out T.rank (P.stands_for probe.now) self.old.items }
        ensures was { result ≡ found T.rank (P.stands_for probe.now) self.old.items }
        ensures gained { IfSome result (λ _. self.old.spare + 1 ≤ self.new.spare) }
        ensures kept { IfNone result (self.old.spare ≤ self.new.spare) }
        ensures rising { IsTrue (is_rising T.rank self.old.items) }
    {
        let shrunk = shrink(mem::replace(&mut self.tree, Tree::Leaf), probe);
        self.tree = shrunk.tree;
        match shrunk.out {
            Some(node) => {
                self.count -= 1;
                Some(self.pool.item_of(node))
            }
            None => None,
        }
    }
}

impl<T: Ranked + TryCopy> Index<T> {
    /// An index of equal items, with no room to spare. Takes memory for it.
    pub fn copy(&self, alloc: Global) -> Result<Index<T>, NoMemory>
        ensures { IfOk result (λ copy. copy.items ≡ self.now.items) }
    {
        let pool = Pool::beside(alloc, self.count)?;
        let tree = copy_tree(&self.tree, alloc)?;
        Ok(Index {
            tree,
            count: self.count,
            pool,
        })
    }
}
