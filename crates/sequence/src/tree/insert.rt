//! How a tree takes an item or a lower tree in: in place, but for the nodes that others share, which are copied.
ghost use Rattle.std.specs.Prelude.{◌≡◌, ◌+◌, ◌<◌, ◌≤◌, ◌^◌, None, MatchResult, Some};
ghost use Rattle.std.specs.Prelude.{length, take};
ghost use Rattle.handles.specs.Copies.{CopiesAreEqual};
ghost use Rattle.sequence.specs.Nodes.{AreChildren, IsList, StandFor, height_in, items_in};
ghost use Rattle.sequence.specs.Pieces.{Counts, Fits, GoesOn, IsHere, IsPart, items_of, part_of};
ghost use Rattle.sequence.specs.Spots.{spliced};

use crate::label::{Label, NewLabel};
use crate::tree::copies::{BRANCH, leaf_width};
use crate::tree::join::join_children;
use crate::tree::search::spot_of;
use crate::tree::split::room_under;
use crate::tree::{Child, Node, Tree};
use handles::arc::Arc;
use std::alloc::{AllocError, Global};

// What a tree takes in: an item, or a tree that is so many levels lower than it, which becomes a child.
#[derive(Drop)]
pub(crate) enum Piece<T, L: Label<T>> {
    Item(T),
    Part(Child<T, L>, u8),
}

impl<T: Clone, L: NewLabel<T>> Tree<T, L> {
    // Puts the piece in at that place. A refusal gives a part back.
    pub(crate) fn insert(
        &mut self,
        alloc: Global,
        place: usize,
        piece: Piece<T, L>,
    ) -> Result<(), Option<Child<T, L>>>
        requires copies { CopiesAreEqual T.is_clone × CopiesAreEqual L.is_clone }
        requires within { place ≤ length self.old.0 }
        requires fits { Fits L.label_of piece place self.old }
        requires room { length self.old.0 + length (items_of piece) < 2 ^ 64 }
        ensures { MatchResult result
            (λ _. self.new ≡ (spliced place 0 (items_of piece) self.old.0, self.old.1))
            (λ back. (self.new ≡ self.old) × (back ≡ part_of piece)) }
    {
        let Ok(node) = Arc::make_mut(&mut self.root, alloc) else {
            return Err(piece.into_part());
        };
        let children = match node {
            Node::Leaf(items) => return insert_in_leaf(items, place, piece),
            Node::Branch(children) => children,
        };
        let more = piece.len();
        let piece = match piece.under() {
            Ok(piece) => piece,
            Err(child) => return beside(children, alloc, place, child),
        };
        let Ok(spot) = room_under(children, spot_of(children, place), alloc, true) else {
            return Err(piece.into_part());
        };
        let child = &mut children[spot.child];
        child.tree.insert(alloc, spot.place, piece)?;
        child.len += more;
        Ok(())
    }
}

impl<T, L: Label<T>> Piece<T, L> {
    // How many items it has.
    fn len(&self) -> usize
        ensures { Counts self.now → result ≡ length (items_of self.now) }
    {
        match self {
            Piece::Item(_) => 1,
            Piece::Part(child, _) => child.len,
        }
    }

    // The piece for one level below, or the child that stands on this one.
    fn under(self) -> Result<Piece<T, L>, Child<T, L>>
        ensures { MatchResult result (GoesOn self) (IsHere self) }
    {
        match self {
            Piece::Part(child, below) if below <= 1 => Err(child),
            Piece::Part(child, below) => Ok(Piece::Part(child, below - 1)),
            item => Ok(item),
        }
    }
}

impl<T: Drop, L: Label<T>> Piece<T, L> {
    // The child, if it is one.
    fn into_part(self) -> Option<Child<T, L>>
        ensures { result ≡ part_of self }
    {
        match self {
            Piece::Item(_) => None,
            Piece::Part(child, _) => Some(child),
        }
    }
}

// Puts the item into a leaf.
fn insert_in_leaf<T: Drop, L: Label<T> + Drop>(
    items: &mut Vec<T>,
    place: usize,
    piece: Piece<T, L>,
) -> Result<(), Option<Child<T, L>>>
    requires list { IsList items.old.items }
    requires within { place ≤ length items.old.items }
    requires fits { Fits L.label_of piece place (items.old.items, 0) }
    requires room { length items.old.items + length (items_of piece) < 2 ^ 64 }
    ensures { MatchResult result
        (λ _. (items.new.items ≡ spliced place 0 (items_of piece) items.old.items) × IsList items.new.items)
        (λ back. (items.new.items ≡ items.old.items) × (back ≡ part_of piece)) }
{
    let Piece::Item(item) = piece else {
        unreachable!()
    };
    match items.insert(place, item) {
        Ok(()) => Ok(()),
        Err(_) => Err(None),
    }
}

// Puts the child before all children or behind all. Two small ones that meet there become one. A refusal gives it back.
fn beside<T: Clone, L: NewLabel<T>>(
    children: &mut Vec<Child<T, L>>,
    alloc: Global,
    place: usize,
    child: Child<T, L>,
) -> Result<(), Option<Child<T, L>>>
    requires copies { CopiesAreEqual T.is_clone × CopiesAreEqual L.is_clone }
    requires children { AreChildren L.label_of children.old.items }
    requires part { IsPart L.label_of child 1 place (items_in children.old.items, height_in children.old.items) }
    requires room { length (items_in children.old.items) + length child.tree.0 < 2 ^ 64 }
    ensures { MatchResult result
        (λ _. (items_in children.new.items ≡ spliced place 0 child.tree.0 (items_in children.old.items))
        × ((height_in children.new.items ≡ height_in children.old.items)
        × AreChildren L.label_of children.new.items))
        (λ back. (children.new.items ≡ children.old.items) × (back ≡ Some child)) }
{
    if place == 0 {
        // The first child becomes one behind another.
        let Ok(label) = L::new(children[0].tree.item(0)) else {
            return Err(Some(child));
        };
        if let Err(refused) = children.insert(0, child) {
            return Err(Some(refused.value));
        }
        children[1].label = label;
        join_if_small(children, 0, alloc);
        return Ok(());
    }
    let last = children.len() - 1;
    if let Err(refused) = children.push(child) {
        return Err(Some(refused.value));
    }
    join_if_small(children, last, alloc);
    Ok(())
}

// Makes one child of the one of that number and the next, if both are small and it is not refused.
pub(crate) fn join_if_small<T: Clone, L: NewLabel<T>>(
    children: &mut Vec<Child<T, L>>,
    at: usize,
    alloc: Global,
)
    requires copies { CopiesAreEqual T.is_clone × CopiesAreEqual L.is_clone }
    requires children { AreChildren L.label_of children.old.items }
    requires within { at + 1 < length children.old.items }
    ensures same { StandFor L.label_of children.old.items children.new.items }
    ensures before { take at children.new.items ≡ take at children.old.items }
{
    if children[at].tree.is_small() && children[at + 1].tree.is_small() {
        let _ = join_children(children, at, alloc);
    }
}

impl<T, L: Label<T>> Tree<T, L> {
    // Whether the first node has no more than half of what a node may have.
    fn is_small(&self) -> bool {
        match self.node() {
            Node::Leaf(items) => items.len() <= leaf_width(items) / 2,
            Node::Branch(children) => children.len() <= BRANCH / 2,
        }
    }
}
