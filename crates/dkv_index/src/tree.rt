// A search tree whose sides differ in height by one at the most. Only the order of its items is proved: that the tree stays
// shallow is a habit of this code, which the tests look at.
ghost use Rattle.std.specs.Prelude.{◌≡◌, ◌∷◌, ◌++◌, IfOk};
ghost use Rattle.dkv_index.specs.Trees.{items_of};

use dkv_base::NoMemory;
use std::alloc::Global;
use std::mem;

#[cycle(tree)]
#[derive(Drop)]
pub(crate) enum Tree<T> {
    Leaf,
    Fork(Box<Node<T>>),
}

#[cycle(tree)]
#[derive(Drop)]
pub(crate) struct Node<T> {
    pub(crate) left: Tree<T>,
    pub(crate) item: T,
    pub(crate) height: u8,
    pub(crate) right: Tree<T>,
}

// Puts the node into a box of its own.
pub(crate) fn boxed<T: Drop>(alloc: Global, node: Node<T>) -> Result<Box<Node<T>>, NoMemory>
    ensures { IfOk result (λ place. place.value ≡ node) }
{
    match Box::new(alloc, node) {
        Ok(place) => Ok(place),
        Err(_) => Err(NoMemory),
    }
}

// A node without its sides.
#[derive(Drop)]
pub(crate) struct Opened<T> {
    pub(crate) left: Tree<T>,
    pub(crate) node: Box<Node<T>>,
    pub(crate) right: Tree<T>,
}

// The longest way down.
pub(crate) fn height<T>(tree: &Tree<T>) -> u8 {
    match tree {
        Tree::Leaf => 0,
        Tree::Fork(node) => node.height,
    }
}

// Puts the node between two sides.
pub(crate) fn fork<T: Drop>(left: Tree<T>, mut node: Box<Node<T>>, right: Tree<T>) -> Tree<T>
    ensures { items_of result ≡ items_of left ++ node.value.item ∷ items_of right }
{
    node.height = height(&left).max(height(&right)).saturating_add(1);
    node.left = left;
    node.right = right;
    Tree::Fork(node)
}

pub(crate) fn open<T: Drop>(mut node: Box<Node<T>>) -> Opened<T>
    ensures left { result.left ≡ node.value.left }
    ensures item { result.node.value.item ≡ node.value.item }
    ensures right { result.right ≡ node.value.right }
{
    let left = mem::replace(&mut node.left, Tree::Leaf);
    let right = mem::replace(&mut node.right, Tree::Leaf);
    Opened { left, node, right }
}

// Puts the node between two sides of which one may be higher by two.
pub(crate) fn balance<T: Drop>(left: Tree<T>, node: Box<Node<T>>, right: Tree<T>) -> Tree<T>
    ensures { items_of result ≡ items_of left ++ node.value.item ∷ items_of right }
{
    if height(&left) > height(&right).saturating_add(1) {
        lean_left(left, node, right)
    } else if height(&right) > height(&left).saturating_add(1) {
        lean_right(left, node, right)
    } else {
        fork(left, node, right)
    }
}

// The left side is too high.
fn lean_left<T: Drop>(left: Tree<T>, node: Box<Node<T>>, right: Tree<T>) -> Tree<T>
    ensures { items_of result ≡ items_of left ++ node.value.item ∷ items_of right }
{
    match left {
        Tree::Leaf => fork(Tree::Leaf, node, right),
        Tree::Fork(top) => {
            let Opened {
                left: outer,
                node: top,
                right: inner,
            } = open(top);
            if height(&outer) >= height(&inner) {
                fork(outer, top, fork(inner, node, right))
            } else {
                turn(outer, top, inner, node, right)
            }
        }
    }
}

// The right side is too high.
fn lean_right<T: Drop>(left: Tree<T>, node: Box<Node<T>>, right: Tree<T>) -> Tree<T>
    ensures { items_of result ≡ items_of left ++ node.value.item ∷ items_of right }
{
    match right {
        Tree::Leaf => fork(left, node, Tree::Leaf),
        Tree::Fork(top) => {
            let Opened {
                left: inner,
                node: top,
                right: outer,
            } = open(top);
            if height(&outer) >= height(&inner) {
                fork(fork(left, node, inner), top, outer)
            } else {
                turn(left, node, inner, top, outer)
            }
        }
    }
}

// The middle's node comes to the top.
fn turn<T: Drop>(
    left: Tree<T>,
    low: Box<Node<T>>,
    middle: Tree<T>,
    high: Box<Node<T>>,
    right: Tree<T>,
) -> Tree<T>
    ensures { items_of result
        ≡ items_of left ++ low.value.item ∷ (items_of middle ++ high.value.item ∷ items_of right) }
{
    match middle {
        Tree::Leaf => fork(left, low, fork(Tree::Leaf, high, right)),
        Tree::Fork(top) => {
            let Opened {
                left: below,
                node: top,
                right: above,
            } = open(top);
            fork(fork(left, low, below), top, fork(above, high, right))
        }
    }
}
