//! More methods of `Vec`, each made of the other calls.
ghost use Rattle.std.specs.Prelude.{◌≡◌, ◌++◌, ◌<◌, ◌≤◌, ◌↔◌, ◌⊎◌, [], Err, IfOk, OnErr, OnOk, Some};
ghost use Rattle.std.specs.Prelude.{length, slice_get, swap};
ghost use Rattle.std.specs.Fn.{CalledAt};
ghost use Rattle.std.specs.List.{list_any};
ghost use Rattle.std.specs.List.Retain.{IsFiltered};
ghost use Rattle.handles.specs.Copies.{CopiesAreEqual};

use crate::label::{Label, NewLabel};
use crate::labelled::LabelledSequence;
use handles::place::PlaceError;
use std::alloc::{AllocError, Global};
use std::ops::Index;

/// Returns the item at `index`, which has to be less than the length: `list[index]`. O(log n).
impl<T, L: Label<T>> Index<usize> for LabelledSequence<T, L> {
    type Output = T;

    ghost can_index = { λ list index. index < length list };

    ghost index_gives = { λ list index item. slice_get list index ≡ Some item };

    fn index(&self, index: usize) -> &T {
        self.get(index).unwrap()
    }
}

impl<T, L: Label<T>> LabelledSequence<T, L> {
    /// Returns `true` if one of the items equals `item`: `list.contains(&item)`. O(n).
    pub fn contains(&self, item: &T) -> bool
    where
        T: PartialEq,
        ensures { result ≡ list_any (λ mine. T.eq mine item.now) self.now }
    {
        self.iter().any(|mine| mine == item)
    }
}

impl<T: Drop, L: Label<T> + Drop> LabelledSequence<T, L> {
    /// Removes all items, with no allocation: `list.clear()`. O(n), or O(1) if another version (snapshot) shares the
    /// root.
    pub fn clear(&mut self)
        ensures { self.new ≡ [] }
    {
        *self = LabelledSequence::empty();
    }
}

impl<T: Clone, L: NewLabel<T>> LabelledSequence<T, L> {
    /// Appends the items of a vector, which are moved into new nodes: `list.extend(alloc, more)?`. O(m + log n) for m
    /// new items.
    ///
    /// # Errors
    ///
    /// `AllocError` when `of_items` or `append` fails. The list keeps its items; the new ones are dropped.
    pub fn extend(&mut self, alloc: Global, items: Vec<T>) -> Result<(), AllocError>
        requires copies { CopiesAreEqual T.is_clone }
        requires labels { CopiesAreEqual L.is_clone }
        ensures items { OnOk result (self.new ≡ self.old ++ items.items) }
        ensures refused { OnErr result (self.new ≡ self.old) }
    {
        let more = LabelledSequence::of_items(alloc, items)?;
        self.append(alloc, more)
    }

    /// Keeps the items for which `keep` returns `true`, and drops the others:
    /// `list.retain(alloc, |item| *item >= least)?`. O(n).
    ///
    /// `keep` is called once for each item, in order, before the item is cloned. If all items stay, the list shares its
    /// nodes as before. Otherwise the list is built anew from clones of the items that stay.
    ///
    /// # Errors
    ///
    /// `AllocError` if there is no memory, or if the `clone` of an item that stays fails. The items stay as they were.
    pub fn retain<F: FnMut(&T) -> bool>(&mut self, alloc: Global, keep: F) -> Result<(), AllocError>
        requires copies { CopiesAreEqual T.is_clone }
        requires labels { CopiesAreEqual L.is_clone }
        requires callable { F.IsAlwaysCallable keep }
        ensures kept { OnOk result (IsFiltered (CalledAt F.FnMut) keep self.old self.new) }
        ensures refused { OnErr result (self.new ≡ self.old) }
    {
        let items = self.kept(alloc, keep)?;
        if items.len() == self.len() {
            return Ok(());
        }
        *self = LabelledSequence::of_items(alloc, items)?;
        Ok(())
    }
}

impl<T: Clone, L: Label<T>> LabelledSequence<T, L> {
    // Clones of the items for which `keep` returns `true`.
    fn kept<F: FnMut(&T) -> bool>(&self, alloc: Global, mut keep: F) -> Result<Vec<T>, AllocError>
        requires copies { CopiesAreEqual T.is_clone }
        requires callable { F.IsAlwaysCallable keep }
        ensures { IfOk result (λ items. IsFiltered (CalledAt F.FnMut) keep self.now items.items) }
    {
        let mut items = Vec::with_capacity(alloc, self.len())?;
        for item in self {
            if keep(item) {
                items.push(item.clone()?)?;
            }
        }
        Ok(items)
    }
}

impl<T: Clone> LabelledSequence<T> {
    /// Swaps the items at `i` and `j`: `list.swap(alloc, 0, 1)?`. O(log n).
    ///
    /// The nodes on the paths to both items are always copied: two `set`s change a clone, which then replaces the list.
    ///
    /// # Errors
    ///
    /// `NoPlace` if `i` or `j` is not less than the length, whether or not there is memory. `Memory` when the `clone`
    /// of the list or of an item, or a `set`, fails. The items stay as they were.
    pub fn swap(&mut self, alloc: Global, i: usize, j: usize) -> Result<(), PlaceError>
        requires copies { CopiesAreEqual T.is_clone }
        ensures items { OnOk result (self.new ≡ swap self.old i j) }
        ensures no_place { (result ≡ Err PlaceError.NoPlace) ↔ (length self.old ≤ i) ⊎ (length self.old ≤ j) }
        ensures refused { OnErr result (self.new ≡ self.old) }
    {
        if i.max(j) >= self.len() {
            return Err(PlaceError::NoPlace);
        }
        let mut swapped: LabelledSequence<T> = self.clone()?;
        let item = swapped[j].clone()?;
        let item = swapped.set(alloc, i, item)?;
        swapped.set(alloc, j, item)?;
        *self = swapped;
        Ok(())
    }
}
