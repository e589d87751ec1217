// How an item goes into a tree, and out of one.
ghost use Rattle.std.specs.Prelude.{◌≡◌, ◌∷◌, ◌++◌, IsTrue, option_map};
ghost use Rattle.dkv_base.specs.Ordered.{found, put_in, left_out, is_rising};
ghost use Rattle.dkv_index.specs.Trees.{items_of};

use crate::tree::{Node, Opened, Tree, balance, fork, open};
use crate::{Probe, Ranked};
use std::cmp::Ordering;
use std::mem;

// A tree with a node put in, and the node that is left over where an item went into the place of another, which it holds.
#[derive(Drop)]
pub(crate) struct Grown<T> {
    pub(crate) tree: Tree<T>,
    pub(crate) over: Option<Box<Node<T>>>,
}

// Puts the node's item in the place of the one that ranks as it does.
pub(crate) fn grow<T: Ranked>(tree: Tree<T>, mut new: Box<Node<T>>) -> Grown<T>
    requires { IsTrue (is_rising T.rank (items_of tree)) }
    ensures items { items_of result.tree ≡ put_in T.rank new.value.item (items_of tree) }
    ensures over { option_map (λ node. node.value.item) result.over
        ≡ found T.rank new.value.item (items_of tree) }
{
    match tree {
        Tree::Leaf => Grown {
            tree: fork(Tree::Leaf, new, Tree::Leaf),
            over: None,
        },
        Tree::Fork(mut node) => match new.item.rank(&node.item) {
            Ordering::Less => {
                let Opened { left, node, right } = open(node);
                let grown = grow(left, new);
                Grown {
                    tree: balance(grown.tree, node, right),
                    over: grown.over,
                }
            }
            Ordering::Equal => {
                mem::swap(&mut node.item, &mut new.item);
                Grown {
                    tree: Tree::Fork(node),
                    over: Some(new),
                }
            }
            Ordering::Greater => {
                let Opened { left, node, right } = open(node);
                let grown = grow(right, new);
                Grown {
                    tree: balance(left, node, grown.tree),
                    over: grown.over,
                }
            }
        },
    }
}

// A tree without a node, and the node.
#[derive(Drop)]
pub(crate) struct Shrunk<T> {
    pub(crate) tree: Tree<T>,
    pub(crate) out: Option<Box<Node<T>>>,
}

// Takes the node out whose item ranks as the probe does.
pub(crate) fn shrink<T: Ranked, P: Probe<T>>(tree: Tree<T>, probe: &P) -> Shrunk<T>
    requires { IsTrue (is_rising T.rank (items_of tree)) }
    ensures items { items_of result.tree
        ≡ left_out T.rank (P.stands_for probe.now) (items_of tree) }
    ensures out { option_map (λ node. node.value.item) result.out
        ≡ found T.rank (P.stands_for probe.now) (items_of tree) }
{
    match tree {
        Tree::Leaf => Shrunk {
            tree: Tree::Leaf,
            out: None,
        },
        Tree::Fork(node) => {
            let Opened { left, node, right } = open(node);
            match probe.rank(&node.item) {
                Ordering::Less => {
                    let shrunk = shrink(left, probe);
                    Shrunk {
                        tree: balance(shrunk.tree, node, right),
                        out: shrunk.out,
                    }
                }
                Ordering::Equal => Shrunk {
                    tree: meet(left, right),
                    out: Some(node),
                },
                Ordering::Greater => {
                    let shrunk = shrink(right, probe);
                    Shrunk {
                        tree: balance(left, node, shrunk.tree),
                        out: shrunk.out,
                    }
                }
            }
        }
    }
}

// Joins two sides whose node is gone.
fn meet<T: Drop>(left: Tree<T>, right: Tree<T>) -> Tree<T>
    ensures { items_of result ≡ items_of left ++ items_of right }
{
    match right {
        Tree::Leaf => left,
        Tree::Fork(top) => {
            let lowest = take_lowest(top);
            balance(left, lowest.node, lowest.rest)
        }
    }
}

// The node with the first item, and the tree without it.
#[derive(Drop)]
struct Lowest<T> {
    node: Box<Node<T>>,
    rest: Tree<T>,
}

fn take_lowest<T: Drop>(node: Box<Node<T>>) -> Lowest<T>
    ensures { result.node.value.item ∷ items_of result.rest
        ≡ items_of node.value.left ++ node.value.item ∷ items_of node.value.right }
{
    let Opened { left, node, right } = open(node);
    match left {
        Tree::Leaf => Lowest { node, rest: right },
        Tree::Fork(lower) => {
            let lowest = take_lowest(lower);
            Lowest {
                node: lowest.node,
                rest: balance(lowest.rest, node, right),
            }
        }
    }
}
