//! What goes in behind all items of a tree and out at its two ends, by one way down along nodes that keep their form.
ghost use Rattle.std.specs.Prelude.{◌≡◌, ◌+◌, ◌<◌, ◌^◌, ◌++◌, ◌∷◌, [], MatchResult, Some, length, slice_get};
ghost use Rattle.std.specs.Prelude.{slice_index_or};
ghost use Rattle.std.specs.List.{All, remove};
ghost use Rattle.handles.specs.Copies.{CopiesAreEqual};
ghost use Rattle.sequence.specs.Changes.{IsPopped};
ghost use Rattle.sequence.specs.Nodes.{IsChild, height_in};
ghost use Rattle.sequence.specs.Spots.{place_at, spliced};

use crate::label::Label;
use crate::tree::copies::{BRANCH, leaf_width};
use crate::tree::{Blocked, Child, Node, Tree};
use handles::arc::Arc;
use std::alloc::Global;

// An end of a list.
#[derive(Clone, Copy)]
pub(crate) enum End {
    First,
    Last,
}

impl<T: Clone, L: Label<T> + Clone> Tree<T, L> {
    // Puts the item in behind all. It comes back if the last leaf is full, or if there is no memory.
    pub(crate) fn push(&mut self, alloc: Global, item: T) -> Result<(), T>
        requires copies { CopiesAreEqual T.is_clone × CopiesAreEqual L.is_clone }
        requires room { length self.old.0 + 1 < 2 ^ 64 }
        ensures { MatchResult result
            (λ _. self.new ≡ (spliced (length self.old.0) 0 (item ∷ []) self.old.0, self.old.1))
            (λ back. (self.new ≡ self.old) × (back ≡ item)) }
    {
        let Ok(node) = Arc::make_mut(&mut self.root, alloc) else {
            return Err(item);
        };
        let children = match node {
            Node::Leaf(items) => return push_in_leaf(items, item),
            Node::Branch(children) => children,
        };
        let last = children.len() - 1;
        let child = &mut children[last];
        let pushed = child.tree.push(alloc, item);
        child.len += usize::from(pushed.is_ok());
        pushed
    }

    // Takes the item at that end out, which is not the only one. It is blocked if there is no memory, or if the first
    // node is a branch with no more children than `least`, or one below has so few that it is joined with its neighbour
    // first.
    pub(crate) fn pop(&mut self, alloc: Global, end: End, least: usize) -> Result<T, Blocked>
        requires copies { CopiesAreEqual T.is_clone × CopiesAreEqual L.is_clone }
        requires some { 1 < length self.old.0 }
        ensures { MatchResult result (IsPopped end least self.old self.new) (λ _. self.new ≡ self.old) }
    {
        let children = match Arc::make_mut(&mut self.root, alloc)? {
            Node::Leaf(items) => return Ok(pop_in_leaf(items, end)),
            Node::Branch(children) => children,
        };
        if children.len() <= least {
            return Err(Blocked);
        }
        let at = end.place(children.len());
        if children[at].len == 1 {
            return pop_leaf(children, alloc, at);
        }
        let child = &mut children[at];
        let popped = child.tree.pop(alloc, end, BRANCH / 4);
        child.len -= usize::from(popped.is_ok());
        popped
    }
}

// Takes the leaf of that number out, and its only item out of it. A call, since it is seldom made, so that `pop` saves
// few registers.
#[inline(never)]
fn pop_leaf<T: Clone, L: Label<T> + Clone>(
    children: &mut Vec<Child<T, L>>,
    alloc: Global,
    at: usize,
) -> Result<T, Blocked>
    requires copies { CopiesAreEqual T.is_clone × CopiesAreEqual L.is_clone }
    requires within { at < length children.old.items }
    requires child { All (IsChild (height_in children.old.items)) children.old.items }
    requires one { (d : Child T L) → length (slice_index_or children.old.items at d).tree.0 ≡ 1 }
    ensures { MatchResult result
        (λ item. ((d : Child T L) → (slice_index_or children.old.items at d).tree.0 ≡ item ∷ [])
        × (children.new.items ≡ remove children.old.items at))
        (λ _. children.new.items ≡ children.old.items) }
{
    // For the proof: its clause says that there is room for the leaf, if it has to go back.
    children.reserve(0)?;
    let Child { label, len, tree } = children.remove(at);
    let tree = match tree.into_only(alloc) {
        Ok(item) => return Ok(item),
        Err(tree) => tree,
    };
    let Ok(()) = children.insert(at, Child { label, len, tree }) else {
        unreachable!()
    };
    Err(Blocked)
}

impl End {
    // The number of the one of so many that stands there.
    #[inline(always)]
    pub(crate) fn place(self, len: usize) -> usize
        requires { 0 < len }
        ensures place { result ≡ place_at self len }
        ensures within { result < len }
    {
        match self {
            End::First => 0,
            End::Last => len - 1,
        }
    }
}

// Puts the item behind those of a leaf, unless it is full.
#[inline(always)]
fn push_in_leaf<T: Drop>(items: &mut Vec<T>, item: T) -> Result<(), T>
    ensures { MatchResult result (λ _. items.new.items ≡ items.old.items ++ item ∷ [])
        (λ back. (items.new.items ≡ items.old.items) × (back ≡ item)) }
{
    if items.len() >= leaf_width(items) {
        return Err(item);
    }
    match items.push(item) {
        Ok(()) => Ok(()),
        Err(refused) => Err(refused.value),
    }
}

// Takes the item at that end out of a leaf.
#[inline(always)]
fn pop_in_leaf<T: Drop>(items: &mut Vec<T>, end: End) -> T
    requires { 0 < length items.old.items }
    ensures item { slice_get items.old.items (place_at end (length items.old.items)) ≡ Some result }
    ensures items { items.new.items ≡ spliced (place_at end (length items.old.items)) 1 [] items.old.items }
{
    match end {
        End::First => items.remove(0),
        End::Last => match items.pop() {
            Some(item) => item,
            None => unreachable!(),
        },
    }
}
