//! The calls of a `Sequence` that take a list by value or return one, each as that of a `LabelledSequence`; and `for`.
ghost use Rattle.std.specs.Prelude.{◌≡◌, ◌++◌, ◌<◌, ◌↔◌, ◌⊎◌, Err, IfOk, IsTrue, OnErr, OnOk, drop, length, take};
ghost use Rattle.std.specs.Map.Iter.{ShowsInOrder, deref};
ghost use Rattle.handles.specs.Copies.{CopiesAreEqual};

use super::Sequence;
use crate::iter::Iter;
use crate::labelled::LabelledSequence;
use handles::place::PlaceError;
use std::alloc::{AllocError, Global};
use std::ops::{DerefMut, Range};

impl<T> Sequence<T> {
    /// Returns `true` if both lists have the same root node: `Sequence::ptr_eq(&list, &other)`. The answer is as exact
    /// as that of `Arc::ptr_eq`, and `false` for empty lists.
    pub fn ptr_eq(this: &Sequence<T>, other: &Sequence<T>) -> bool
        ensures { IsTrue result → (0 < length this.now) × (0 < length other.now) }
    {
        LabelledSequence::ptr_eq(this, other)
    }
}

impl<T: Drop> Sequence<T> {
    /// Creates a list of `items`, which are moved into full nodes: `Sequence::from_items(alloc, items)?`. O(n).
    ///
    /// # Errors
    ///
    /// `AllocError` if there is no memory. The items are then dropped.
    pub fn from_items(alloc: Global, items: Vec<T>) -> Result<Sequence<T>, AllocError>
        ensures { IfOk result (λ list. list ≡ items.items) }
    {
        Ok(Sequence::of(LabelledSequence::of_items(alloc, items)?))
    }
}

impl<T: Clone> Sequence<T> {
    /// Appends the items of `other`: `list.append(alloc, rest)?`. O(log n) for the longer of the two lists.
    ///
    /// The lower of the two trees becomes a child of the other one. Nodes on the path to that place are copied if
    /// another version (snapshot) shares them, and written in place otherwise.
    ///
    /// # Errors
    ///
    /// `AllocError` if `insert` would return `Memory`, or for more than `usize::MAX` items. The list keeps its items;
    /// `other` is dropped.
    pub fn append(&mut self, alloc: Global, other: Sequence<T>) -> Result<(), AllocError>
        requires copies { CopiesAreEqual T.is_clone }
        ensures items { OnOk result (self.new ≡ self.old ++ other) }
        ensures refused { OnErr result (self.new ≡ self.old) }
    {
        self.deref_mut().append(alloc, other.into_labelled())
    }

    /// Splits the list at `at` and returns the items from `at` on: `let rest = list.split_off(alloc, at)?;`. O(log n).
    ///
    /// Nodes along the cut that another version shares are copied, the others are written in place, and each level gets
    /// one new node. Where a part would have too few items for its height, both lists are built anew along the cut in
    /// O((log n)^2), and share all other nodes with the old list.
    ///
    /// # Errors
    ///
    /// `NoPlace` if `at` is greater than the length, whether or not there is memory. `Memory` if there is no memory, or
    /// if the `clone` of an item or a handle fails. The items stay as they were.
    pub fn split_off(&mut self, alloc: Global, at: usize) -> Result<Sequence<T>, PlaceError>
        requires copies { CopiesAreEqual T.is_clone }
        ensures out { IfOk result (λ out. out ≡ drop at self.old) }
        ensures no_place { (result ≡ Err PlaceError.NoPlace) ↔ (length self.old < at) }
        ensures rest { OnOk result (self.new ≡ take at self.old) }
        ensures refused { OnErr result (self.new ≡ self.old) }
    {
        let rest = self.deref_mut().split_off(alloc, at)?;
        Ok(Sequence::of(rest))
    }

    /// Replaces the items at the indices `numbers` by those of `other`, and returns the old ones:
    /// `let old = list.replace(alloc, 1..4, other)?;`. It takes two `split_off`s and two `append`s, on a clone.
    ///
    /// # Errors
    ///
    /// `NoPlace` if the range ends behind the last item or before it starts, whether or not there is memory. `Memory`
    /// when `clone`, `split_off` or `append` fails. The items stay as they were; `other` is dropped.
    pub fn replace(
        &mut self,
        alloc: Global,
        numbers: Range<usize>,
        other: Sequence<T>,
    ) -> Result<Sequence<T>, PlaceError>
        requires copies { CopiesAreEqual T.is_clone }
        ensures out { IfOk result (λ out. out ≡ drop numbers.start (take numbers.end self.old)) }
        ensures items { OnOk result (self.new
            ≡ take numbers.start self.old ++ other ++ drop numbers.end self.old) }
        ensures no_place { (result ≡ Err PlaceError.NoPlace)
            ↔ ((length self.old < numbers.end) ⊎ (numbers.end < numbers.start)) }
        ensures refused { OnErr result (self.new ≡ self.old) }
    {
        let list = self.deref_mut();
        let old = list.replace(alloc, numbers, other.into_labelled())?;
        Ok(Sequence::of(old))
    }
}

impl<'a, T> IntoIterator for &'a Sequence<T> {
    type Item = &'a T;

    type IntoIter = Iter<'a, T>;

    ghost into_iter_gives = { λ list r. (r ≡ list.now) × ShowsInOrder (deref {X = T}) };

    fn into_iter(self) -> Iter<'a, T> {
        self.iter()
    }
}
