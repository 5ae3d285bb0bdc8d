//! A list with access by index, in whose branches separator keys may stand. Versions (snapshots) share their nodes.
ghost use Rattle.std.specs.Prelude.{◌≡◌, ◌+◌, ◌-◌, ◌^◌, ◌<◌, ◌≤◌, ◌↔◌, [], Err, IfOk, IfSome};
ghost use Rattle.std.specs.Prelude.{IsTrue, MatchResult, None, Some, OnErr, OnOk, length, slice_get, slice_set};
ghost use Rattle.std.specs.Fn.{FnOnceTakesAtMut};
ghost use Rattle.std.specs.List.{insert, remove};
ghost use Rattle.std.specs.Option.{ForSome, option_copied};
ghost use Rattle.handles.specs.Copies.{CopiesAreEqual};
ghost use Rattle.sequence.specs.Changes.{ChangesItem, KeepsLabel};
ghost use Rattle.sequence.specs.Nodes.{IsLevel, items_under};

mod act;
mod as_vec;
mod cut;
mod ends;
mod parts;
mod range;

use crate::label::{Label, NewLabel, Unlabelled};
use crate::tree::Tree;
use crate::tree::insert::Piece;
use handles::place::PlaceError;
use std::alloc::{AllocError, Global};
use std::marker::Model;
use std::mem;

/// A list with access by index that can be searched: a branch keeps a separator key of type `L` for each child.
///
/// A [`Sequence<T>`](crate::Sequence) dereferences to a `LabelledSequence<T>`, which has no separator keys. So this
/// type has all calls of a `Sequence` that neither take a list by value nor return one. Name it for a list that you
/// search by a [`Cut`](crate::Cut), as `maps` does. A type cannot hold itself in it.
///
/// ```
/// let mut appointments: LabelledSequence<Appointment, Time> = LabelledSequence::empty();
/// appointments.put_in(alloc, appointment)?;
/// let next = appointments.rank(&cut);
/// ```
///
/// Dropping a list recurses to the depth of the tree, which is at most 65.
pub struct LabelledSequence<T, L: Label<T> = Unlabelled> {
    pub(crate) root: Option<Tree<T, L>>,
    len: usize,
}

impl<T, L: Label<T>> Model for LabelledSequence<T, L> {
    ghost use Rattle.std.specs.Prelude.{◌≡◌, List, length};

    ghost Value = { List T };

    ghost use Rattle.sequence.specs.Nodes.{items_under};

    ghost view = { λ s. items_under s.root };

    ghost invariant = { λ s. s.len ≡ length (items_under s.root) };
}

// By hand, since the checker then sees a call where a list is dropped, and not the drop of each of its parts.
impl<T: Drop, L: Label<T> + Drop> Drop for LabelledSequence<T, L> {
    #[inline(always)]
    fn drop(self) {
        let LabelledSequence { root, len: _ } = self;
        drop(root);
    }
}

/// Makes a version (snapshot) by one increment of a count, with no copy and no allocation:
/// `let old = list.clone()?;`. O(1).
///
/// # Errors
///
/// `AllocError` when the `clone` of an `Arc` fails: the count is at its limit, or too many attempts lost to other
/// threads. A lack of memory is no reason.
impl<T: Drop, L: Label<T> + Drop> Clone for LabelledSequence<T, L> {
    ghost is_clone = { λ a b. b ≡ a };

    fn clone(&self) -> Result<LabelledSequence<T, L>, AllocError> {
        let root = match &self.root {
            None => None,
            Some(tree) => Some(tree.clone()?),
        };
        Ok(LabelledSequence {
            root,
            len: self.len,
        })
    }
}

impl<T, L: Label<T>> LabelledSequence<T, L> {
    /// Creates an empty list whose branches keep separator keys of type `L`, with no allocation:
    /// `LabelledSequence::empty()`.
    pub fn empty() -> LabelledSequence<T, L>
        ensures { result ≡ [] }
    {
        LabelledSequence { root: None, len: 0 }
    }

    /// Returns the nodes of the list, or `None` if the list is empty: `list.tree().map(|tree| tree.depth())`. All
    /// leaves are equally deep. O(1).
    #[inline(always)]
    pub fn tree(&self) -> Option<&Tree<T, L>>
        ensures items { items_under (option_copied result) ≡ self.now }
        ensures none { (result ≡ None) ↔ (self.now ≡ []) }
        ensures level { IfSome result (λ tree. IsLevel tree.now) }
    {
        match &self.root {
            None => None,
            Some(tree) => {
                // For the proof: its clauses say that the tree has an item and is level.
                let _ = tree.node();
                Some(tree)
            }
        }
    }

    /// Returns the number of items: `list.len()`. O(1).
    pub fn len(&self) -> usize
        ensures count { result ≡ length self.now }
        ensures fits { length self.now < 2 ^ 64 }
    {
        self.len
    }

    /// Returns `true` if there are no items.
    pub fn is_empty(&self) -> bool
        ensures { IsTrue result ↔ (self.now ≡ []) }
    {
        self.len() == 0
    }

    /// Returns the item at `index`, or `None`: `list.get(3)`. O(log n).
    pub fn get(&self, index: usize) -> Option<&T>
        ensures { option_copied result ≡ slice_get self.now index }
    {
        match &self.root {
            Some(tree) if index < self.len => Some(tree.item(index)),
            _ => None,
        }
    }

    /// Returns the first item, or `None` if the list is empty: `list.first()`. O(log n).
    pub fn first(&self) -> Option<&T>
        ensures { option_copied result ≡ slice_get self.now 0 }
    {
        self.get(0)
    }

    /// Returns the last item, or `None` if the list is empty: `list.last()`. O(log n).
    pub fn last(&self) -> Option<&T>
        ensures { option_copied result ≡ slice_get self.now (length self.now - 1) }
    {
        self.get(self.len().saturating_sub(1))
    }

    /// Returns `true` if both lists have the same root node, as `Sequence::ptr_eq` does.
    pub fn ptr_eq(this: &LabelledSequence<T, L>, other: &LabelledSequence<T, L>) -> bool
        ensures { IsTrue result → (0 < length this.now) × (0 < length other.now) }
    {
        match (&this.root, &other.root) {
            // Trees of different lengths are different, and to compare lengths takes no atomic operation.
            (Some(tree), Some(same)) => this.len == other.len && tree.is_at(same),
            _ => false,
        }
    }
}

impl<T: Drop, L: NewLabel<T>> LabelledSequence<T, L> {
    /// Creates a list of `items` as `Sequence::from_items` does, with a separator key of type `L` for each child of a
    /// branch: `LabelledSequence::of_items(alloc, items)?`. O(n).
    ///
    /// # Errors
    ///
    /// `AllocError` if there is no memory, or if a separator key cannot be made. The items are then dropped.
    pub fn of_items(alloc: Global, items: Vec<T>) -> Result<LabelledSequence<T, L>, AllocError>
        requires { CopiesAreEqual L.is_clone }
        ensures { IfOk result (λ list. list ≡ items.items) }
    {
        let len = items.len();
        if len == 0 {
            return Ok(LabelledSequence::empty());
        }
        let root = Some(Tree::of_items(alloc, items)?);
        Ok(LabelledSequence { root, len })
    }
}

impl<T: Clone, L: NewLabel<T>> LabelledSequence<T, L> {
    /// Inserts `item` before the item at `index`, or behind all if `index` is the length:
    /// `list.insert(alloc, index, item)?`. O(log n).
    ///
    /// Nodes on the path that another version shares are copied, and the others are written in place. A full node on
    /// the path is split.
    ///
    /// # Errors
    ///
    /// `NoPlace` if `index` is greater than the length, whether or not there is memory. `Memory` if there is no memory,
    /// if the `clone` of an item or a handle fails, or at `usize::MAX` items. The items stay as they were; `item` is
    /// dropped.
    pub fn insert(&mut self, alloc: Global, index: usize, item: T) -> Result<(), PlaceError>
        requires copies { CopiesAreEqual T.is_clone }
        requires labels { CopiesAreEqual L.is_clone }
        ensures items { OnOk result (self.new ≡ insert self.old index item) }
        ensures no_place { (result ≡ Err PlaceError.NoPlace) ↔ (length self.old < index) }
        ensures refused { OnErr result (self.new ≡ self.old) }
    {
        if index > self.len() {
            return Err(PlaceError::NoPlace);
        }
        Ok(self.insert_at(alloc, index, item)?)
    }

    // Inserts at an index that is known to be at most the length, so that only memory can be lacking.
    fn insert_at(&mut self, alloc: Global, index: usize, item: T) -> Result<(), AllocError>
        requires copies { CopiesAreEqual T.is_clone × CopiesAreEqual L.is_clone }
        requires within { index ≤ length self.old }
        ensures { MatchResult result (λ _. self.new ≡ insert self.old index item) (λ _. self.new ≡ self.old) }
    {
        if self.len == usize::MAX {
            return Err(AllocError);
        }
        match &mut self.root {
            None => {
                self.root = Some(Tree::of_one(alloc, item)?);
                self.len = 1;
                Ok(())
            }
            Some(tree) => {
                if tree.is_full() {
                    tree.add_level(alloc, self.len)?;
                }
                let Ok(()) = tree.insert(alloc, index, Piece::Item(item)) else {
                    return Err(AllocError);
                };
                self.len += 1;
                Ok(())
            }
        }
    }

    /// Removes the item at `index` and returns it: `let item = list.remove(alloc, index)?;`. O(log n).
    ///
    /// Nodes on the path that another version shares are copied, and the others are written in place. An underfull node
    /// on the path is joined with its neighbour.
    ///
    /// # Errors
    ///
    /// `NoPlace` if `index` is not less than the length, whether or not there is memory. `Memory` if there is no
    /// memory, or if the `clone` of an item or a handle fails. The items stay as they were.
    pub fn remove(&mut self, alloc: Global, index: usize) -> Result<T, PlaceError>
        requires copies { CopiesAreEqual T.is_clone }
        requires labels { CopiesAreEqual L.is_clone }
        ensures item { IfOk result (λ item. slice_get self.old index ≡ Some item) }
        ensures items { OnOk result (self.new ≡ remove self.old index) }
        ensures no_place { (result ≡ Err PlaceError.NoPlace) ↔ (length self.old ≤ index) }
        ensures refused { OnErr result (self.new ≡ self.old) }
    {
        if index >= self.len() {
            return Err(PlaceError::NoPlace);
        }
        let item = self.remove_at(alloc, index)?;
        Ok(item)
    }

    // Removes at an index that is known to have an item, so that only memory can be lacking.
    fn remove_at(&mut self, alloc: Global, index: usize) -> Result<T, AllocError>
        requires copies { CopiesAreEqual T.is_clone × CopiesAreEqual L.is_clone }
        requires there { index < length self.old }
        ensures { MatchResult result
            (λ item. (slice_get self.old index ≡ Some item) × (self.new ≡ remove self.old index))
            (λ _. self.new ≡ self.old) }
    {
        let Some(tree) = &mut self.root else {
            unreachable!()
        };
        tree.shrink()?;
        if self.len == 1 {
            let Some(tree) = self.root.take() else {
                unreachable!()
            };
            return match tree.into_only(alloc) {
                Ok(item) => {
                    self.len = 0;
                    Ok(item)
                }
                Err(tree) => {
                    self.root = Some(tree);
                    Err(AllocError)
                }
            };
        }
        let item = tree.remove(alloc, index)?;
        self.len -= 1;
        Ok(item)
    }

    /// Calls `change` on the item at `index` and returns its result:
    /// `list.modify(alloc, index, |old| mem::replace(old, item))?`. O(log n).
    ///
    /// Nodes on the path that another version shares are copied.
    ///
    /// # Errors
    ///
    /// The same errors as `remove`. `change` is then not called.
    pub fn modify<R, F: FnOnce(&mut T) -> R>(
        &mut self,
        alloc: Global,
        index: usize,
        change: F,
    ) -> Result<R, PlaceError>
        requires copies { CopiesAreEqual T.is_clone }
        requires labels { CopiesAreEqual L.is_clone }
        requires callable { ForSome (slice_get self.old index) (FnOnceTakesAtMut F.FnOnce change) }
        requires keeps { ForSome (slice_get self.old index) (KeepsLabel F.FnOnce change L.label_of) }
        ensures changed { IfOk result (ChangesItem F.FnOnce change index self.old self.new) }
        ensures no_place { (result ≡ Err PlaceError.NoPlace) ↔ (length self.old ≤ index) }
        ensures refused { OnErr result (self.new ≡ self.old) }
    {
        if index >= self.len() {
            return Err(PlaceError::NoPlace);
        }
        Ok(self.modify_at(alloc, index, change)?)
    }

    /// Replaces the item at `index` by `item` and returns the old item: `let old = list.set(alloc, index, item)?;`.
    /// O(log n).
    ///
    /// # Errors
    ///
    /// The same errors as `remove`. `item` is then dropped.
    pub fn set(&mut self, alloc: Global, index: usize, item: T) -> Result<T, PlaceError>
        requires copies { CopiesAreEqual T.is_clone }
        requires labels { CopiesAreEqual L.is_clone }
        requires keeps { ForSome (slice_get self.old index) (λ old. L.label_of item ≡ L.label_of old) }
        ensures item { IfOk result (λ old. slice_get self.old index ≡ Some old) }
        ensures items { OnOk result (self.new ≡ slice_set self.old index item) }
        ensures no_place { (result ≡ Err PlaceError.NoPlace) ↔ (length self.old ≤ index) }
        ensures refused { OnErr result (self.new ≡ self.old) }
    {
        self.modify(alloc, index, |old| mem::replace(old, item))
    }
}
