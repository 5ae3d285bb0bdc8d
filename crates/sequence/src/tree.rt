//! A tree of items in the order of a list, seen as its items and its height. All its leaves are as deep.
ghost use Rattle.std.specs.Prelude.{◌≡◌, ◌+◌, ◌*◌, ◌^◌, ◌<◌, ◌≤◌, IfOk, length, ⊤};
ghost use Rattle.sequence.specs.Nodes.{IsDeep, IsNode, seen};

pub(crate) mod act;
pub(crate) mod build;
pub(crate) mod change;
pub(crate) mod copies;
pub(crate) mod cut;
pub(crate) mod ends;
mod hang;
pub(crate) mod insert;
mod join;
mod modify;
pub(crate) mod put;
mod remove;
pub(crate) mod search;
mod split;
mod split_in_place;
pub(crate) mod take;

use crate::label::Label;
use handles::arc::Arc;
use std::alloc::{AllocError, Global};
use std::marker::Model;

/// The nodes of a list that is not empty, as `tree` returns them: `list.tree().map(|tree| tree.depth())`.
///
/// In a contract a tree is a pair: the items, in their order, and the height, which is the number of branches above
/// each leaf. The height is read off the nodes themselves: it is 0 at a leaf, and at a branch one more than that of its
/// highest child, and 2^64 more where two children differ. So the clauses of `LabelledSequence::tree` and of `depth`
/// speak of these nodes, and not of another tree with the same items.
#[cycle(tree)]
pub struct Tree<T, L: Label<T>> {
    root: Arc<Node<T, L>>,
}

// By hand, since the checker then sees a call where a tree is dropped, and not the drop of each of its parts.
impl<T: Drop, L: Label<T> + Drop> Drop for Tree<T, L> {
    #[cycle(tree)]
    #[inline(always)]
    fn drop(self) {
        let Tree { root } = self;
        drop(root);
    }
}

#[cycle(tree)]
#[derive(Drop)]
pub(crate) enum Node<T, L: Label<T>> {
    Leaf(Vec<T>),
    Branch(Vec<Child<T, L>>),
}

// A part of a tree, with the number of its items, and the label of the first one. The label of the first child of a
// branch may be another one.
#[cycle(tree)]
#[derive(Drop)]
pub(crate) struct Child<T, L: Label<T>> {
    pub(crate) label: L,
    pub(crate) len: usize,
    pub(crate) tree: Tree<T, L>,
}

// A quick way through a tree that does not go: nodes on it would get another form, or memory was refused. The tree
// reads as before. The slower way is taken then, which alone tells a refusal to the caller.
#[derive(Clone, Copy)]
pub(crate) struct Blocked;

impl From<AllocError> for Blocked {
    ghost from_gives = { λ _ _. ⊤ };

    fn from(_error: AllocError) -> Blocked {
        Blocked
    }
}

impl<T, L: Label<T>> Model for Tree<T, L> {
    ghost use Rattle.std.specs.Prelude.{List, ℕ};

    ghost Value = { List T × ℕ };

    ghost use Rattle.sequence.specs.Nodes.{seen, IsNode};

    ghost view = { λ t. seen t.root };

    ghost invariant = { λ t. IsNode L.label_of t.root };

    ghost size = { λ t. t.1 };

    ghost use Rattle.sequence.specs.Falls.{falls};

    ghost size_decreases = { λ t h. falls L.Label t.root };
}

impl<T: Drop, L: Label<T> + Drop> Clone for Tree<T, L> {
    ghost is_clone = { λ a b. b ≡ a };

    fn clone(&self) -> Result<Tree<T, L>, AllocError> {
        Ok(Tree {
            root: self.root.clone()?,
        })
    }
}

impl<T: Drop, L: Label<T> + Drop> Tree<T, L> {
    // The tree of that first node.
    pub(crate) fn of(alloc: Global, node: Node<T, L>) -> Result<Tree<T, L>, AllocError>
        requires { IsNode L.label_of node }
        ensures { IfOk result (λ tree. tree ≡ seen node) }
    {
        Ok(Tree {
            root: Arc::try_new(alloc, node)?,
        })
    }
}

impl<T, L: Label<T>> Tree<T, L> {
    // The first node, and what holds of each tree.
    #[inline(always)]
    pub(crate) fn node(&self) -> &Node<T, L>
        ensures same { seen result.now ≡ self.now }
        ensures whole { IsNode L.label_of result.now }
        ensures some { 0 < length self.now.0 }
        ensures low { self.now.1 < 65 }
        ensures wide { 2 ^ self.now.1 ≤ 2 * length self.now.0 }
    {
        &self.root
    }

    /// Returns the number of nodes on a path from the root to a leaf: `list.tree().map(|tree| tree.depth())`. O(log n).
    pub fn depth(&self) -> u8
        ensures height { result ≡ self.now.1 + 1 }
        ensures nodes { IsDeep L.label_of self.now.0 result }
        ensures at_most { 2 ^ result ≤ 4 * length self.now.0 }
    {
        // For the proof: it needs what the invariant says of the first node.
        let _ = &self.root;
        let mut node = self.node();
        let mut depth = 1;
        'down: while let Node::Branch(children) = node {
            node = children[0].tree.node();
            depth += 1;
        }
        depth
    }

    // How many branches stand above each leaf.
    pub(crate) fn height(&self) -> u8
        ensures { result ≡ self.now.1 }
    {
        self.depth() - 1
    }

    // Whether both have the same first node.
    #[inline(always)]
    pub(crate) fn is_at(&self, other: &Tree<T, L>) -> bool
        ensures some { 0 < length self.now.0 }
        ensures other { 0 < length other.now.0 }
    {
        Arc::ptr_eq(&self.root, &other.root)
    }
}
