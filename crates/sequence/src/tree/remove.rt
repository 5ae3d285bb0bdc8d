//! How a tree lets an item go: in place, but for the nodes that others share, which are copied.
ghost use Rattle.std.specs.Prelude.{◌≡◌, ℕ, ◌+◌, ◌^◌, ◌<◌, ◌≤◌, ◌⊎◌, [], IfOk, IsTrue, MatchResult, OnOk, Some};
ghost use Rattle.std.specs.Prelude.{length, slice_get, slice_index_or};
ghost use Rattle.handles.specs.Copies.{CopiesAreEqual};
ghost use Rattle.sequence.specs.Changes.{IsLess};
ghost use Rattle.sequence.specs.Nodes.{AreChildren, CanLose, IsChild, StandFor, height_in, items_in};
ghost use Rattle.sequence.specs.Spots.{Leads, spliced};

use crate::label::{Label, NewLabel};
use crate::tree::copies::{BRANCH, LEAF};
use crate::tree::join::join_children;
use crate::tree::search::{Spot, spot_of};
use crate::tree::split::room_under;
use crate::tree::{Child, Node, Tree};
use handles::arc::Arc;
use std::alloc::{AllocError, Global};

impl<T: Clone, L: NewLabel<T>> Tree<T, L> {
    // Takes the item of that number out, which is there and not the only one.
    #[cycle(remove)]
    pub(crate) fn remove(&mut self, alloc: Global, index: usize) -> Result<T, AllocError>
        requires copies { CopiesAreEqual T.is_clone × CopiesAreEqual L.is_clone }
        requires there { index < length self.old.0 }
        requires some { 1 < length self.old.0 }
        requires wide { 2 ^ self.old.1 ≤ length self.old.0 }
        ensures { MatchResult result (λ item. (slice_get self.old.0 index ≡ Some item)
            × (self.new ≡ (spliced index 1 [] self.old.0, self.old.1))) (λ _. self.new ≡ self.old) }
    {
        let children = match Arc::make_mut(&mut self.root, alloc)? {
            Node::Leaf(items) => return Ok(items.remove(index)),
            Node::Branch(children) => children,
        };
        let spot = spare_for(children, alloc, index)?;
        children[spot.child].remove(alloc, spot.place - 1, spot.child > 0)
    }
}

impl<T: Clone, L: NewLabel<T>> Child<T, L> {
    // Takes the item of that number out from under one child, whose label stays right if it is to.
    #[cycle(remove)]
    fn remove(&mut self, alloc: Global, index: usize, labelled: bool) -> Result<T, AllocError>
        requires copies { CopiesAreEqual T.is_clone × CopiesAreEqual L.is_clone }
        requires child { IsChild (self.old.tree.1 + 1) self.old }
        requires spare { CanLose self.old.tree }
        requires there { index < length self.old.tree.0 }
        ensures { MatchResult result (IsLess L.label_of labelled index self.old self.new) (λ _. self.new ≡ self.old) }
    {
        let label = if labelled && index == 0 {
            Some(L::new(self.tree.item(1))?)
        } else {
            None
        };
        let item = self.tree.remove(alloc, index)?;
        self.len -= 1;
        if let Some(label) = label {
            self.label = label;
        }
        Ok(item)
    }
}

// The spot behind the item of that number, once its child can lose an item: a thin one is joined with its neighbour.
fn spare_for<T: Clone, L: NewLabel<T>>(
    children: &mut Vec<Child<T, L>>,
    alloc: Global,
    index: usize,
) -> Result<Spot, AllocError>
    requires copies { CopiesAreEqual T.is_clone × CopiesAreEqual L.is_clone }
    requires children { AreChildren L.label_of children.old.items }
    requires there { index < length (items_in children.old.items) }
    requires wide { 2 ^ height_in children.old.items ≤ length (items_in children.old.items) }
    ensures same { StandFor L.label_of children.old.items children.new.items }
    ensures leads { IfOk result (Leads children.new.items (index + 1)) }
    ensures spare { IfOk result (λ spot. (d : Child T L)
        → CanLose (slice_index_or children.new.items spot.child d).tree) }
{
    let spot = spot_of(children, index + 1);
    if children.len() == 1 || !children[spot.child].tree.is_thin() {
        return Ok(spot);
    }
    let Spot {
        mut child,
        mut place,
    } = spot;
    if child + 1 == children.len() {
        // The last one is joined with the one before.
        child -= 1;
        place += children[child].len;
    }
    join_children(children, child, alloc)?;
    // A small last part would be thin again, and be joined at the next removal.
    room_under(children, Spot { child, place }, alloc, false)
}

impl<T, L: Label<T>> Tree<T, L> {
    // Whether the first node has so few items that it is joined with its neighbour before it loses one.
    #[inline(always)]
    pub(crate) fn is_thin(&self) -> bool
        ensures { IsTrue result ⊎ CanLose self.now }
    {
        match self.node() {
            Node::Leaf(items) => items.len() <= LEAF / 4,
            Node::Branch(children) => children.len() <= BRANCH / 4,
        }
    }
}

impl<T: Drop, L: Label<T> + Drop> Tree<T, L> {
    // A first node with one child gives way to the first one below that has more, or is a leaf.
    #[inline(always)]
    pub(crate) fn shrink(&mut self) -> Result<(), AllocError>
        ensures same { self.new.0 ≡ self.old.0 }
        ensures wide { OnOk result (2 ^ self.new.1 ≤ length self.new.0) }
    {
        let mut only = match self.node() {
            Node::Branch(children) if children.len() == 1 => &children[0].tree,
            _ => return Ok(()),
        };
        'down: while let Node::Branch(children) = only.node() {
            if children.len() > 1 {
                break;
            }
            only = &children[0].tree;
        }
        *self = only.clone()?;
        Ok(())
    }
}
