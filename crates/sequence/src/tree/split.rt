//! How a full node becomes two: the last of what it has moves into a block that was taken before.
ghost use Rattle.std.specs.Prelude.{◌≡◌, ℕ, ◌+◌, ◌<◌, ◌^◌, ◌≤◌, IfNone, IfOk, IsTrue, MatchResult, OnErr, OnOk};
ghost use Rattle.std.specs.Prelude.{drop, length, slice_index_or, take};
ghost use Rattle.handles.specs.Copies.{CopiesAreEqual};
ghost use Rattle.sequence.specs.Nodes.{AreChildren, AreHalves, CanLose, IsChild, IsList, IsNode, Splits, StandFor};
ghost use Rattle.sequence.specs.Nodes.{height_in, items_in, seen};
ghost use Rattle.sequence.specs.Spots.{Leads, past};

use crate::label::{Label, NewLabel};
use crate::tree::copies::{BRANCH, leaf_width};
use crate::tree::search::{Spot, count};
use crate::tree::{Child, Node, Tree};
use handles::arc::Arc;
use handles::unique::UniqueArc;
use std::alloc::{AllocError, Global};

// How many items the second of two nodes gets if the next item goes behind all.
const FEW: usize = 4;

impl<T: Drop, L: NewLabel<T>> Tree<T, L> {
    // Puts a branch above the first node, which becomes its only child. The tree has that many items.
    pub(crate) fn add_level(&mut self, alloc: Global, len: usize) -> Result<(), AllocError>
        requires labels { CopiesAreEqual L.is_clone }
        requires len { len ≡ length self.old.0 }
        requires wide { 2 ^ self.old.1 ≤ length self.old.0 }
        ensures items { self.new.0 ≡ self.old.0 }
        ensures height { OnOk result (self.new.1 ≡ self.old.1 + 1) }
    {
        let child = self.clone()?.into_child(len)?;
        let mut children = Vec::with_capacity(alloc, BRANCH)?;
        children.push(child)?;
        *self = Tree::of(alloc, Node::Branch(children))?;
        Ok(())
    }
}

impl<T, L: Label<T>> Tree<T, L> {
    // Whether the first node becomes two before another item goes in.
    #[inline(always)]
    pub(crate) fn is_full(&self) -> bool
        ensures { IsTrue result → 2 ^ self.now.1 ≤ length self.now.0 }
    {
        self.node().is_full()
    }
}

impl<T, L: Label<T>> Node<T, L> {
    // Whether the node becomes two before another item or child goes in.
    #[inline(always)]
    pub(crate) fn is_full(&self) -> bool
        requires { IsNode L.label_of self.now }
        ensures { IsTrue result → 2 ^ (seen self.now).1 ≤ length (seen self.now).0 }
    {
        match self {
            Node::Leaf(items) => items.len() >= leaf_width(items),
            Node::Branch(children) => children.len() >= BRANCH,
        }
    }
}

// The spot once its child has room for one more item or child: a full one becomes two. Its last part is small if the
// list grows at the end of that child, so that nodes which only ever grow there are full.
pub(crate) fn room_under<T: Clone, L: NewLabel<T>>(
    children: &mut Vec<Child<T, L>>,
    spot: Spot,
    alloc: Global,
    grows: bool,
) -> Result<Spot, AllocError>
    requires copies { CopiesAreEqual T.is_clone × CopiesAreEqual L.is_clone }
    requires children { AreChildren L.label_of children.old.items }
    requires within { spot.child < length children.old.items }
    ensures same { StandFor L.label_of children.old.items children.new.items }
    ensures leads { IfOk result (λ new. (place : ℕ) → Leads children.old.items place spot
        → Leads children.new.items place new) }
    ensures spare { IfOk result (λ new. ((d : Child T L)
        → CanLose (slice_index_or children.old.items spot.child d).tree)
        → (d : Child T L) → CanLose (slice_index_or children.new.items new.child d).tree) }
{
    let Spot { child, place } = spot;
    if !children[child].tree.is_full() {
        return Ok(spot);
    }
    let ends = grows & (place == children[child].len);
    children.reserve(1)?;
    let left = &mut children[child];
    let Some(right) = left.tree.split_node(alloc, ends)? else {
        return Ok(spot);
    };
    left.len -= right.len;
    let kept = left.len;
    let Ok(()) = children.insert(child + 1, right) else {
        unreachable!()
    };
    Ok(spot.past(kept))
}

impl Spot {
    // Where the place is once only so many items are left under its child, and the rest under the next.
    fn past(self, left: usize) -> Spot
        requires { self.child + 1 < 2 ^ 64 }
        ensures { result ≡ past left self }
    {
        if self.place <= left {
            return self;
        }
        Spot {
            child: self.child + 1,
            place: self.place - left,
        }
    }
}

impl<T: Clone, L: NewLabel<T>> Tree<T, L> {
    // Makes two of the tree if its first node is full, and gives the last part.
    #[inline(never)]
    fn split_node(&mut self, alloc: Global, ends: bool) -> Result<Option<Child<T, L>>, AllocError>
        requires copies { CopiesAreEqual T.is_clone × CopiesAreEqual L.is_clone }
        ensures { MatchResult result (Splits L.label_of self.old self.new) (λ _. self.new ≡ self.old) }
    {
        let node = Arc::make_mut(&mut self.root, alloc)?;
        node.split_node(alloc, ends)
    }
}

impl<T: Drop, L: NewLabel<T>> Node<T, L> {
    // Makes two of the node if it is full, and gives the last part as a child.
    pub(crate) fn split_node(
        &mut self,
        alloc: Global,
        ends: bool,
    ) -> Result<Option<Child<T, L>>, AllocError>
        requires labels { CopiesAreEqual L.is_clone }
        requires node { IsNode L.label_of self.old }
        ensures node { IsNode L.label_of self.new }
        ensures split { MatchResult result (Splits L.label_of (seen self.old) (seen self.new))
            (λ _. seen self.new ≡ seen self.old) }
    {
        match self {
            Node::Leaf(items) if items.len() >= leaf_width(items) => {
                let keep = kept(items.len(), leaf_width(items), ends);
                Ok(Some(split_leaf(items, alloc, keep)?))
            }
            Node::Branch(children) if children.len() >= BRANCH => {
                let keep = kept(children.len(), BRANCH, ends);
                Ok(Some(split_branch(children, alloc, keep)?))
            }
            _ => Ok(None),
        }
    }
}

// How many of so many items a node keeps if it becomes two. The other one has few if the next item goes behind all,
// and else half of them, but no more than its width.
fn kept(len: usize, width: usize, ends: bool) -> usize
    requires len { 16 ≤ len }
    requires width { 16 ≤ width }
    ensures low { 2 < result }
    ensures high { result + 2 < len }
{
    if ends {
        len - FEW
    } else {
        len - width.min(len / 2)
    }
}

// Takes the items from that number on out of a leaf, into a child.
pub(crate) fn split_leaf<T: Drop, L: NewLabel<T>>(
    items: &mut Vec<T>,
    alloc: Global,
    keep: usize,
) -> Result<Child<T, L>, AllocError>
    requires labels { CopiesAreEqual L.is_clone }
    requires list { IsList items.old.items }
    requires some { 0 < keep }
    requires within { keep < length items.old.items }
    ensures list { IsList items.new.items }
    ensures halves { IfOk result (AreHalves L.label_of (items.old.items, 0) (items.new.items, 0)) }
    ensures kept { OnOk result (length items.new.items ≡ keep) }
    ensures refused { OnErr result (items.new.items ≡ items.old.items) }
{
    let label = L::new(&items[keep])?;
    let block = UniqueArc::new_uninit(alloc)?;
    let tail = with_room(items.split_off(keep)?);
    Ok(Child {
        label,
        len: tail.len(),
        tree: Tree {
            root: block.write(Node::Leaf(tail)).shareable(),
        },
    })
}

// These items with room for a leaf of them, if they are so few that the list may grow there.
fn with_room<T>(mut items: Vec<T>) -> Vec<T>
    ensures { result.items ≡ items.items }
{
    if items.len() <= FEW {
        // A push asks again if this is refused.
        let _ = items.reserve_exact(leaf_width(&items) - FEW);
    }
    items
}

// Takes the children from that number on out of a branch, into a child. Each part has enough items for its height.
pub(crate) fn split_branch<T: Drop, L: NewLabel<T>>(
    children: &mut Vec<Child<T, L>>,
    alloc: Global,
    keep: usize,
) -> Result<Child<T, L>, AllocError>
    requires labels { CopiesAreEqual L.is_clone }
    requires children { AreChildren L.label_of children.old.items }
    requires some { 0 < keep }
    requires within { keep < length children.old.items }
    requires sides { (2 ^ height_in children.old.items ≤ length (items_in (take keep children.old.items)))
        × (2 ^ height_in children.old.items ≤ length (items_in (drop keep children.old.items))) }
    ensures children { AreChildren L.label_of children.new.items }
    ensures halves { IfOk result (AreHalves L.label_of (items_in children.old.items, height_in children.old.items)
        (items_in children.new.items, height_in children.new.items)) }
    ensures kept { OnOk result (children.new.items ≡ take keep children.old.items) }
    ensures refused { OnErr result (children.new.items ≡ children.old.items) }
{
    let label = children[keep].label.clone()?;
    let block = UniqueArc::new_uninit(alloc)?;
    let tail = children.split_off(keep)?;
    Ok(Child {
        label,
        len: count(&tail),
        tree: Tree {
            root: block.write(Node::Branch(tail)).shareable(),
        },
    })
}
