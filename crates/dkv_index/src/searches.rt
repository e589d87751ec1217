// Searches down a tree.
ghost use Rattle.std.specs.Prelude.{◌≡◌, IsTrue, slice_get};
ghost use Rattle.std.specs.Option.{option_copied};
ghost use Rattle.dkv_base.specs.Ordered.{found, above, is_rising};
ghost use Rattle.dkv_index.specs.Trees.{items_of};

use crate::tree::Tree;
use crate::{Probe, Ranked};
use std::cmp::Ordering;

// The item that ranks as the probe does.
pub(crate) fn look_up<'a, T: Ranked, P: Probe<T>>(tree: &'a Tree<T>, probe: &P) -> Option<&'a T>
    requires { IsTrue (is_rising T.rank (items_of tree.now)) }
    ensures { option_copied result ≡ found T.rank (P.stands_for probe.now) (items_of tree.now) }
{
    let mut rest = tree;
    while let Tree::Fork(node) = rest {
        match probe.rank(&node.item) {
            Ordering::Less => rest = &node.left,
            Ordering::Equal => return Some(&node.item),
            Ordering::Greater => rest = &node.right,
        }
    }
    None
}

// The first item that ranks above the probe.
pub(crate) fn look_above<'a, T: Ranked, P: Probe<T>>(tree: &'a Tree<T>, probe: &P) -> Option<&'a T>
    requires { IsTrue (is_rising T.rank (items_of tree.now)) }
    ensures { option_copied result ≡ above T.rank (P.stands_for probe.now) (items_of tree.now) }
{
    let mut rest = tree;
    let mut best = None;
    while let Tree::Fork(node) = rest {
        match probe.rank(&node.item) {
            Ordering::Less => {
                best = Some(&node.item);
                rest = &node.left;
            }
            _ => rest = &node.right,
        }
    }
    best
}

// The first item.
pub(crate) fn look_first<T>(tree: &Tree<T>) -> Option<&T>
    ensures { option_copied result ≡ slice_get (items_of tree.now) 0 }
{
    let mut rest = tree;
    let mut best = None;
    while let Tree::Fork(node) = rest {
        best = Some(&node.item);
        rest = &node.left;
    }
    best
}
