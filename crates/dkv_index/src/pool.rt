// Nodes that wait for an item, so that a put takes no memory and a removal gives none back.
ghost use Rattle.std.specs.Prelude.{◌≡◌, ◌+◌, ◌^◌, ◌≤◌, ◌<◌, IfOk, OnOk, OnErr, vec_len};
ghost use Rattle.std.specs.Vec.{vec_capacity};

use crate::Ranked;
use crate::tree::{Node, Tree, boxed};
use dkv_base::NoMemory;
use std::alloc::Global;
use std::marker::Model;
use std::mem;

// Contracts see how many nodes are ready, and for how many there is room.
#[derive(Drop)]
pub(crate) struct Pool<T> {
    nodes: Vec<Box<Node<T>>>,
    alloc: Global,
}

impl<T> Model for Pool<T> {
    ghost use Rattle.std.specs.Vec.{vec_len, vec_capacity};
    ghost use Rattle.dkv_index.specs.Contents.{Nodes};

    ghost Value = { Nodes };

    ghost view = { λ p. record { ready = vec_len p.nodes; places = vec_capacity p.nodes } };
}

impl<T: Ranked> Pool<T> {
    pub(crate) fn new(alloc: Global) -> Pool<T>
        ensures { result.ready ≡ 0 }
    {
        Pool {
            nodes: Vec::new(alloc),
            alloc,
        }
    }

    // Has no node ready, and room for as many as there are outside.
    pub(crate) fn beside(alloc: Global, outside: usize) -> Result<Pool<T>, NoMemory>
        ensures ready { IfOk result (λ pool. pool.ready ≡ 0) }
        ensures places { IfOk result (λ pool. outside ≤ pool.places) }
    {
        let mut nodes = Vec::new(alloc);
        nodes.reserve(outside)?;
        Ok(Pool { nodes, alloc })
    }

    // Makes `n` nodes ready, and keeps room for as many as there are outside besides.
    pub(crate) fn fill(&mut self, outside: usize, n: usize) -> Result<(), NoMemory>
        requires { outside + self.old.ready ≤ self.old.places }
        ensures room { OnOk result (n ≤ self.new.ready) }
        ensures full { OnErr result (self.old.ready < n) }
        ensures kept { self.old.ready ≤ self.new.ready }
        ensures places { outside + self.new.ready ≤ self.new.places }
    {
        let Some(more) = n.checked_sub(self.nodes.len()) else {
            return Ok(());
        };
        let room = outside.checked_add(more).ok_or(NoMemory)?;
        self.nodes.reserve(room)?;
        fill_up(&mut self.nodes, self.alloc, n)
    }

    // A node with the item.
    pub(crate) fn node_of(&mut self, item: T) -> Box<Node<T>>
        requires { 1 ≤ self.old.ready }
        ensures item { result.value.item ≡ item }
        ensures ready { self.new.ready + 1 ≡ self.old.ready }
        ensures places { self.new.places ≡ self.old.places }
        ensures bound { self.new.places < 2 ^ 64 }
    {
        let Some(mut node) = self.nodes.pop() else {
            unreachable!()
        };
        node.item = item;
        node
    }

    // Keeps the node, and hands its item on.
    pub(crate) fn item_of(&mut self, mut node: Box<Node<T>>) -> T
        requires { self.old.ready < self.old.places }
        ensures item { result ≡ node.value.item }
        ensures ready { self.new.ready ≡ self.old.ready + 1 }
        ensures places { self.old.places ≤ self.new.places }
    {
        let item = mem::replace(&mut node.item, T::blank(self.alloc));
        let _ = self.nodes.push(node);
        item
    }
}

// Adds nodes until there are `n`.
fn fill_up<T: Ranked>(
    nodes: &mut Vec<Box<Node<T>>>,
    alloc: Global,
    n: usize,
) -> Result<(), NoMemory>
    requires { n ≤ vec_capacity nodes.old }
    ensures room { OnOk result (n ≤ vec_len nodes.new) }
    ensures full { OnErr result (vec_len nodes.old < n) }
    ensures kept { vec_len nodes.old ≤ vec_len nodes.new }
    ensures at_most { vec_len nodes.old ≤ n → vec_len nodes.new ≤ n }
    ensures places { vec_capacity nodes.old ≤ vec_capacity nodes.new }
{
    while nodes.len() < n {
        let _ = nodes.push(make_node(alloc)?);
    }
    Ok(())
}

fn make_node<T: Ranked>(alloc: Global) -> Result<Box<Node<T>>, NoMemory> {
    let node = Node {
        left: Tree::Leaf,
        item: T::blank(alloc),
        height: 0,
        right: Tree::Leaf,
    };
    boxed(alloc, node)
}
