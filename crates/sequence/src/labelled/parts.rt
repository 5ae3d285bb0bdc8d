//! Splitting a list in two, and joining two lists.
ghost use Rattle.std.specs.Prelude.{◌≡◌, ◌+◌, ◌++◌, ◌^◌, ◌<◌, ◌≤◌, ◌↔◌, ◌⊎◌, Err, IfOk, IsOk, OnErr, OnOk};
ghost use Rattle.std.specs.Prelude.{MatchResult, drop, length, take};
ghost use Rattle.handles.specs.Copies.{CopiesAreEqual};
ghost use Rattle.sequence.specs.Nodes.{AreChildren, AreLevel, items_in};

use crate::label::NewLabel;
use crate::labelled::LabelledSequence;
use crate::tree::copies::{BRANCH, LEAF, copies};
use crate::tree::search::{count, spot_of};
use crate::tree::{Blocked, Child, Node, Tree};
use handles::place::PlaceError;
use std::alloc::{AllocError, Global};
use std::mem;
use std::ops::Range;

impl<T: Clone, L: NewLabel<T>> LabelledSequence<T, L> {
    /// Appends the items of `other`, as `Sequence::append` does: `list.append(alloc, rest)?`. O(log n) for the longer
    /// of the two lists.
    ///
    /// # Errors
    ///
    /// `AllocError` if `insert` would return `Memory`, or for more than `usize::MAX` items. The list keeps its items;
    /// `other` is dropped.
    pub fn append(&mut self, alloc: Global, other: LabelledSequence<T, L>) -> Result<(), AllocError>
        requires copies { CopiesAreEqual T.is_clone }
        requires labels { CopiesAreEqual L.is_clone }
        ensures items { OnOk result (self.new ≡ self.old ++ other) }
        ensures refused { OnErr result (self.new ≡ self.old) }
    {
        let LabelledSequence { root, len: more } = other;
        let Some(tree) = root else {
            return Ok(());
        };
        let Some(len) = self.len.checked_add(more) else {
            return Err(AllocError);
        };
        self.root = match self.root.take() {
            None => Some(tree),
            Some(mine) => match mine.append(alloc, self.len, tree, more) {
                Ok(both) => Some(both),
                Err(mine) => {
                    self.root = Some(mine);
                    return Err(AllocError);
                }
            },
        };
        self.len = len;
        Ok(())
    }

    /// Splits the list at `at` and returns the items from `at` on, as `Sequence::split_off` does:
    /// `let rest = list.split_off(alloc, at)?;`. O(log n), or O((log n)^2) if a part would have too few items for its
    /// height.
    ///
    /// # Errors
    ///
    /// `NoPlace` if `at` is greater than the length, whether or not there is memory. `Memory` if there is no memory, or
    /// if the `clone` of an item or a handle fails. The items stay as they were.
    pub fn split_off(
        &mut self,
        alloc: Global,
        at: usize,
    ) -> Result<LabelledSequence<T, L>, PlaceError>
        requires copies { CopiesAreEqual T.is_clone }
        requires labels { CopiesAreEqual L.is_clone }
        ensures out { IfOk result (λ out. out ≡ drop at self.old) }
        ensures no_place { (result ≡ Err PlaceError.NoPlace) ↔ (length self.old < at) }
        ensures rest { OnOk result (self.new ≡ take at self.old) }
        ensures refused { OnErr result (self.new ≡ self.old) }
    {
        if at > self.len() {
            return Err(PlaceError::NoPlace);
        }
        let back = self.split_off_at(alloc, at)?;
        Ok(back)
    }

    // Splits at an index that is known to be at most the length, so that only memory can be lacking.
    fn split_off_at(
        &mut self,
        alloc: Global,
        at: usize,
    ) -> Result<LabelledSequence<T, L>, AllocError>
        requires copies { CopiesAreEqual T.is_clone × CopiesAreEqual L.is_clone }
        requires within { at ≤ length self.old }
        ensures { MatchResult result (λ out. (out ≡ drop at self.old) × (self.new ≡ take at self.old))
            (λ _. self.new ≡ self.old) }
    {
        if at == 0 {
            return Ok(mem::replace(self, LabelledSequence::empty()));
        }
        if at == self.len() {
            return Ok(LabelledSequence::empty());
        }
        let len = self.len;
        let Some(tree) = &mut self.root else {
            unreachable!()
        };
        if let Ok(back) = tree.split_if_wide(alloc, at, len) {
            self.len = at;
            return Ok(LabelledSequence {
                root: Some(back.tree),
                len: back.len,
            });
        }
        let (front, back) = tree.split_at(alloc, at)?;
        *self = front;
        Ok(back)
    }

    /// Drops the items from `len` on, and does nothing if there are none: `list.truncate(alloc, len)?`. It splits the
    /// list as `split_off` does.
    ///
    /// # Errors
    ///
    /// `AllocError` if `split_off` would return `Memory`. The items stay as they were.
    pub fn truncate(&mut self, alloc: Global, len: usize) -> Result<(), AllocError>
        requires copies { CopiesAreEqual T.is_clone }
        requires labels { CopiesAreEqual L.is_clone }
        ensures items { OnOk result (self.new ≡ take len self.old) }
        ensures none { length self.old ≤ len → IsOk result }
        ensures refused { OnErr result (self.new ≡ self.old) }
    {
        if len < self.len() {
            self.split_off_at(alloc, len)?;
        }
        Ok(())
    }

    /// Replaces the items at the indices `numbers` by those of `other`, and returns the old ones, as
    /// `Sequence::replace` does: `let old = list.replace(alloc, 1..4, other)?;`. It takes two `split_off`s and two
    /// `append`s, on a clone.
    ///
    /// # Errors
    ///
    /// `NoPlace` if the range ends behind the last item or before it starts, whether or not there is memory. `Memory`
    /// when `clone`, `split_off` or `append` fails. The items stay as they were; `other` is dropped.
    pub fn replace(
        &mut self,
        alloc: Global,
        numbers: Range<usize>,
        other: LabelledSequence<T, L>,
    ) -> Result<LabelledSequence<T, L>, PlaceError>
        requires copies { CopiesAreEqual T.is_clone }
        requires labels { CopiesAreEqual L.is_clone }
        ensures out { IfOk result (λ out. out ≡ drop numbers.start (take numbers.end self.old)) }
        ensures items { OnOk result (self.new
            ≡ take numbers.start self.old ++ other ++ drop numbers.end self.old) }
        ensures no_place { (result ≡ Err PlaceError.NoPlace)
            ↔ ((length self.old < numbers.end) ⊎ (numbers.end < numbers.start)) }
        ensures refused { OnErr result (self.new ≡ self.old) }
    {
        let Range { start, end } = numbers;
        if end > self.len() || end < start {
            return Err(PlaceError::NoPlace);
        }
        let mut list: LabelledSequence<T, L> = self.clone()?;
        let back = list.split_off_at(alloc, end)?;
        let out = list.split_off_at(alloc, start)?;
        list.append(alloc, other)?;
        list.append(alloc, back)?;
        *self = list;
        Ok(out)
    }

    // A list of clones of `items`, which fit into one leaf.
    fn of_leaf(alloc: Global, items: &[T]) -> Result<LabelledSequence<T, L>, AllocError>
        requires { CopiesAreEqual T.is_clone }
        ensures { IfOk result (λ list. list ≡ items.now) }
    {
        let len = items.len();
        if len == 0 {
            return Ok(LabelledSequence::empty());
        }
        let node = Node::Leaf(copies(alloc, items, LEAF)?);
        let root = Some(Tree::of(alloc, node)?);
        Ok(LabelledSequence { root, len })
    }

    // A list of the items under `children`, which stay shared.
    fn of_children(
        alloc: Global,
        children: &[Child<T, L>],
    ) -> Result<LabelledSequence<T, L>, AllocError>
        requires labels { CopiesAreEqual L.is_clone }
        requires level { AreLevel L.label_of children.now }
        requires room { length (items_in children.now) < 2 ^ 64 }
        ensures { IfOk result (λ list. list ≡ items_in children.now) }
    {
        let tree = match children {
            [] => return Ok(LabelledSequence::empty()),
            [only] => only.tree.clone()?,
            _ => {
                let own = copies(alloc, children, BRANCH)?;
                Tree::of(alloc, Node::Branch(own))?
            }
        };
        let len = count(children);
        let root = Some(tree);
        Ok(LabelledSequence { root, len })
    }
}

impl<T: Clone, L: NewLabel<T>> Tree<T, L> {
    // Splits the tree, which has that many items, in place, and gives the last part. It is blocked if a part would have
    // too few items for its height.
    fn split_if_wide(
        &mut self,
        alloc: Global,
        at: usize,
        len: usize,
    ) -> Result<Child<T, L>, Blocked>
        requires copies { CopiesAreEqual T.is_clone × CopiesAreEqual L.is_clone }
        requires len { len ≡ length self.old.0 }
        requires within { at ≤ len }
        ensures { MatchResult result (λ back. (self.new.0 ≡ take at self.old.0)
            × (back.tree.0 ≡ drop at self.old.0) × (back.len ≡ length back.tree.0)) (λ _. self.new.0 ≡ self.old.0) }
    {
        self.shrink()?;
        let least = 2usize.checked_pow(u32::from(self.height())).ok_or(Blocked)?;
        if at < least || len - at < least {
            return Err(Blocked);
        }
        let mut back = self.split_in_place(alloc, at, least)?;
        // Trees that are higher than need be are as good.
        let _ = self.shrink();
        let _ = back.tree.shrink();
        Ok(back)
    }

    // Both parts as new lists: the first `at` items, and the others.
    fn split_at(
        &self,
        alloc: Global,
        at: usize,
    ) -> Result<(LabelledSequence<T, L>, LabelledSequence<T, L>), AllocError>
        requires copies { CopiesAreEqual T.is_clone × CopiesAreEqual L.is_clone }
        requires within { at ≤ length self.now.0 }
        ensures { IfOk result (λ lists. (lists.0 ≡ take at self.now.0) × (lists.1 ≡ drop at self.now.0)) }
    {
        let children = match self.node() {
            Node::Leaf(items) => return lists_of(alloc, items, at),
            Node::Branch(children) => children,
        };
        let spot = spot_of(children, at);
        let around = lists_around(alloc, children, spot.child)?;
        let within = children[spot.child].tree.split_at(alloc, spot.place)?;
        append_parts(alloc, around, within)
    }
}

// The first `at` items of a leaf, and the others.
fn lists_of<T: Clone, L: NewLabel<T>>(
    alloc: Global,
    items: &[T],
    at: usize,
) -> Result<(LabelledSequence<T, L>, LabelledSequence<T, L>), AllocError>
    requires copies { CopiesAreEqual T.is_clone }
    requires within { at ≤ length items.now }
    ensures { IfOk result (λ lists. (lists.0 ≡ take at items.now) × (lists.1 ≡ drop at items.now)) }
{
    let front = LabelledSequence::of_leaf(alloc, &items[..at])?;
    let back = LabelledSequence::of_leaf(alloc, &items[at..])?;
    Ok((front, back))
}

// The items before the child of that number, and those behind it.
fn lists_around<T: Clone, L: NewLabel<T>>(
    alloc: Global,
    children: &[Child<T, L>],
    child: usize,
) -> Result<(LabelledSequence<T, L>, LabelledSequence<T, L>), AllocError>
    requires labels { CopiesAreEqual L.is_clone }
    requires children { AreChildren L.label_of children.now }
    requires within { child < length children.now }
    ensures { IfOk result (λ lists. (lists.0 ≡ items_in (take child children.now))
        × (lists.1 ≡ items_in (drop (child + 1) children.now))) }
{
    let front = LabelledSequence::of_children(alloc, &children[..child])?;
    let behind = LabelledSequence::of_children(alloc, &children[child + 1..])?;
    Ok((front, behind))
}

// The items of all four lists in two: the inner ones are those between the outer ones.
fn append_parts<T: Clone, L: NewLabel<T>>(
    alloc: Global,
    outer: (LabelledSequence<T, L>, LabelledSequence<T, L>),
    inner: (LabelledSequence<T, L>, LabelledSequence<T, L>),
) -> Result<(LabelledSequence<T, L>, LabelledSequence<T, L>), AllocError>
    requires copies { CopiesAreEqual T.is_clone × CopiesAreEqual L.is_clone }
    ensures { IfOk result (λ lists. (lists.0 ≡ outer.0 ++ inner.0) × (lists.1 ≡ inner.1 ++ outer.1)) }
{
    let (mut front, behind) = outer;
    let (part, mut back) = inner;
    front.append(alloc, part)?;
    back.append(alloc, behind)?;
    Ok((front, back))
}
