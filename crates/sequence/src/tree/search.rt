//! Where a number stands.
ghost use Rattle.std.specs.Prelude.{◌≡◌, ◌+◌, ◌<◌, ◌≤◌, ◌^◌, Some, length, slice_get};
ghost use Rattle.std.specs.List.{All};
ghost use Rattle.sequence.specs.Parts.{IsPart};
ghost use Rattle.sequence.specs.Nodes.{AreChildren, items_in};
ghost use Rattle.sequence.specs.Spots.{Leads};

use crate::label::Label;
use crate::tree::{Child, Node, Tree};

// A place under the children of a branch: the number of a child, and the place in it. A place is how many items stand
// before it.
#[derive(Clone, Copy)]
pub(crate) struct Spot {
    pub(crate) child: usize,
    pub(crate) place: usize,
}

// Where the place is. One between two children is behind the first.
pub(crate) fn spot_of<T, L: Label<T>>(children: &[Child<T, L>], place: usize) -> Spot
    requires children { AreChildren L.label_of children.now }
    requires within { place ≤ length (items_in children.now) }
    ensures { Leads children.now place result }
{
    let mut child = 0;
    let mut left = place;
    'along: while left > children[child].len {
        left -= children[child].len;
        child += 1;
    }
    Spot { child, place: left }
}

// How many items these children have.
#[inline(always)]
pub(crate) fn count<T, L: Label<T>>(children: &[Child<T, L>]) -> usize
    requires each { All (λ c. c.len ≡ length c.tree.0) children.now }
    requires room { length (items_in children.now) < 2 ^ 64 }
    ensures { result ≡ length (items_in children.now) }
{
    let mut count = 0;
    for child in children {
        count += child.len;
    }
    count
}

impl<T, L: Label<T>> Tree<T, L> {
    // The leaf with the item of that number, and the number of the leaf's first item.
    pub(crate) fn leaf_at(&self, index: usize) -> (&[T], usize)
        requires { index < length self.now.0 }
        ensures part { IsPart result.0.now result.1 self.now.0 }
        ensures from { result.1 ≤ index }
        ensures to { index < result.1 + length result.0.now }
    {
        let mut node = self.node();
        let mut start = 0;
        'down: loop {
            match node {
                Node::Leaf(items) => return (items, start),
                Node::Branch(children) => {
                    let place = index - start + 1;
                    let spot = spot_of(children, place);
                    start += place - spot.place;
                    node = children[spot.child].tree.node();
                }
            }
        }
    }

    // The item of that number.
    #[tactic(auto, using(crate::proofs::Lists::Parts::parts))]
    pub(crate) fn item(&self, index: usize) -> &T
        requires { index < length self.now.0 }
        ensures { slice_get self.now.0 index ≡ Some result.now }
    {
        let (leaf, start) = self.leaf_at(index);
        &leaf[index - start]
    }
}
