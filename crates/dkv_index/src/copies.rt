// An equal tree.
ghost use Rattle.std.specs.Prelude.{◌≡◌, IfOk};
ghost use Rattle.dkv_index.specs.Trees.{items_of};

use crate::tree::{Node, Tree, boxed};
use dkv_base::{NoMemory, TryCopy};
use std::alloc::Global;

// A tree of the same form with equal items.
pub(crate) fn copy_tree<T: TryCopy + Drop>(
    tree: &Tree<T>,
    alloc: Global,
) -> Result<Tree<T>, NoMemory>
    ensures { IfOk result (λ copy. items_of copy ≡ items_of tree.now) }
{
    match tree {
        Tree::Leaf => Ok(Tree::Leaf),
        Tree::Fork(node) => {
            let copy = Node {
                left: copy_tree(&node.left, alloc)?,
                item: node.item.copy(alloc)?,
                height: node.height,
                right: copy_tree(&node.right, alloc)?,
            };
            Ok(Tree::Fork(boxed(alloc, copy)?))
        }
    }
}
