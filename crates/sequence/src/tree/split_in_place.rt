//! How a tree becomes two at a place: in place, but for the nodes that others share, which are copied.
ghost use Rattle.std.specs.Prelude.{◌≡◌, ◌+◌, ◌-◌, ◌<◌, ◌≤◌, ◌^◌, MatchResult, length, take};
ghost use Rattle.handles.specs.Copies.{CopiesAreEqual};
ghost use Rattle.sequence.specs.Nodes.{AreChildren, AreCut, AreHalves, StandFor, height_in, items_in};
ghost use Rattle.sequence.specs.Spots.{IsEdge};

use crate::label::NewLabel;
use crate::tree::insert::join_if_small;
use crate::tree::search::{Spot, spot_of};
use crate::tree::split::{split_branch, split_leaf};
use crate::tree::{Blocked, Child, Node, Tree};
use handles::arc::Arc;
use std::alloc::Global;

impl<T: Clone, L: NewLabel<T>> Tree<T, L> {
    // Takes the items from that place on out, into a child. `least` is how many items a child of this height has at
    // least. If it is blocked, the items stay, but maybe in more nodes.
    #[cycle(split_in_place)]
    pub(crate) fn split_in_place(
        &mut self,
        alloc: Global,
        place: usize,
        least: usize,
    ) -> Result<Child<T, L>, Blocked>
        requires copies { CopiesAreEqual T.is_clone × CopiesAreEqual L.is_clone }
        requires least { least ≡ 2 ^ self.old.1 }
        requires front { least ≤ place }
        requires back { place + least ≤ length self.old.0 }
        ensures { MatchResult result
            (λ right. AreHalves L.label_of self.old self.new right × (length self.new.0 ≡ place))
            (λ _. self.new ≡ self.old) }
    {
        match Arc::make_mut(&mut self.root, alloc)? {
            Node::Leaf(items) => Ok(split_leaf(items, alloc, place)?),
            Node::Branch(children) => split_children(children, alloc, place, least),
        }
    }
}

// Takes the items from that place on out of a branch, into a child. `least` is how many items a branch of this height
// has at least. Small children that then stand beside the cut are joined with their neighbours. If it is blocked, the
// items stay in the branch, but maybe under other children.
#[cycle(split_in_place)]
fn split_children<T: Clone, L: NewLabel<T>>(
    children: &mut Vec<Child<T, L>>,
    alloc: Global,
    place: usize,
    least: usize,
) -> Result<Child<T, L>, Blocked>
    requires copies { CopiesAreEqual T.is_clone × CopiesAreEqual L.is_clone }
    requires children { AreChildren L.label_of children.old.items }
    requires least { least ≡ 2 ^ height_in children.old.items }
    requires front { least ≤ place }
    requires back { place + least ≤ length (items_in children.old.items) }
    ensures children { AreChildren L.label_of children.new.items }
    ensures cut { MatchResult result (AreCut L.label_of place children.old.items children.new.items)
        (λ _. StandFor L.label_of children.old.items children.new.items) }
{
    let at = edge_at(children, alloc, place, least)?;
    join_before(children, at + 1, alloc);
    let right = split_branch(children, alloc, at)?;
    join_before(children, at - 1, alloc);
    Ok(right)
}

// The number of the first child behind the place, once the child around it is two. This is blocked if a part of that
// child would not have enough items for its height.
#[cycle(split_in_place)]
fn edge_at<T: Clone, L: NewLabel<T>>(
    children: &mut Vec<Child<T, L>>,
    alloc: Global,
    place: usize,
    least: usize,
) -> Result<usize, Blocked>
    requires copies { CopiesAreEqual T.is_clone × CopiesAreEqual L.is_clone }
    requires children { AreChildren L.label_of children.old.items }
    requires least { least ≡ 2 ^ height_in children.old.items }
    requires some { 0 < place }
    requires within { place < length (items_in children.old.items) }
    ensures { MatchResult result
        (λ at. StandFor L.label_of children.old.items children.new.items × IsEdge children.new.items place at)
        (λ _. StandFor L.label_of children.old.items children.new.items) }
{
    // The item behind the place is in that child, the last of so many there.
    let Spot { child, place: up } = spot_of(children, place + 1);
    let place = up - 1;
    if place == 0 {
        return Ok(child);
    }
    if place < least / 2 || children[child].len - place < least / 2 {
        return Err(Blocked);
    }
    children.reserve(1)?;
    let left = &mut children[child];
    let right = left.tree.split_in_place(alloc, place, least / 2)?;
    left.len = place;
    let Ok(()) = children.insert(child + 1, right) else {
        unreachable!()
    };
    Ok(child + 1)
}

// Makes one child of the one of that number and the one before it, if there are both, both are small and it is not
// refused.
fn join_before<T: Clone, L: NewLabel<T>>(children: &mut Vec<Child<T, L>>, at: usize, alloc: Global)
    requires copies { CopiesAreEqual T.is_clone × CopiesAreEqual L.is_clone }
    requires children { AreChildren L.label_of children.old.items }
    ensures same { StandFor L.label_of children.old.items children.new.items }
    ensures before { take (at - 1) children.new.items ≡ take (at - 1) children.old.items }
{
    if 0 < at && at < children.len() {
        join_if_small(children, at - 1, alloc);
    }
}
