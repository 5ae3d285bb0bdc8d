//! How a node is copied. A copy has room for as many items as a node may have.
ghost use Rattle.std.specs.Prelude.{◌≡◌, ◌≤◌, IfOk};
ghost use Rattle.handles.specs.Copies.{CopiesAreEqual};
ghost use Rattle.sequence.specs.Nodes.{IsCopy};

use crate::label::Label;
use crate::tree::{Child, Node};
use std::alloc::{AllocError, Global};
use std::mem::size_of_val;

// The most items of a leaf that has these: twice as many if they are no longer than a word. That is half of the blocks,
// and no more bytes to move.
#[inline(always)]
pub(crate) fn leaf_width<T>(items: &Vec<T>) -> usize
    ensures { 64 ≤ result }
{
    // The bytes of all of them, since the borrow checker covers no `size_of::<T>()`.
    if size_of_val(items.as_slice()) / WORD <= items.len() {
        2 * LEAF
    } else {
        LEAF
    }
}

// The most items of a leaf if they are longer. A first leaf has room for so many.
pub(crate) const LEAF: usize = 64;

// The bytes of a word.
const WORD: usize = 8;

/// The most children of a branch.
pub(crate) const BRANCH: usize = 16;

// Copies of the items, in a vector with that much room.
pub(crate) fn copies<T: Clone>(
    alloc: Global,
    items: &[T],
    room: usize,
) -> Result<Vec<T>, AllocError>
    ensures { IfOk result (λ copy. CopiesAreEqual T.is_clone → copy.items ≡ items.now) }
{
    let mut copy = Vec::with_capacity(alloc, room)?;
    copy.extend_with_clones(items)?;
    Ok(copy)
}

impl<T: Drop, L: Label<T> + Clone> Clone for Child<T, L> {
    ghost is_clone = { λ a b. CopiesAreEqual L.is_clone → b ≡ a };

    fn clone(&self) -> Result<Child<T, L>, AllocError> {
        Ok(Child {
            label: self.label.clone()?,
            len: self.len,
            tree: self.tree.clone()?,
        })
    }
}

impl<T: Clone, L: Label<T> + Clone> Clone for Node<T, L> {
    ghost is_clone = { λ a b. CopiesAreEqual T.is_clone × CopiesAreEqual L.is_clone → IsCopy a b };

    fn clone(&self) -> Result<Node<T, L>, AllocError> {
        match self {
            Node::Leaf(items) => {
                let alloc = *items.allocator();
                Ok(Node::Leaf(copies(alloc, items, leaf_width(items))?))
            }
            Node::Branch(children) => {
                let alloc = *children.allocator();
                Ok(Node::Branch(copies(alloc, children, BRANCH)?))
            }
        }
    }
}
