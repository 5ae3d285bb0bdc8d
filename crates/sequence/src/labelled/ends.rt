//! Insertion and removal at the two ends of a list.
ghost use Rattle.std.specs.Prelude.{◌≡◌, ◌-◌, ◌++◌, ◌∷◌, [], IfOk, IsOk, MatchResult, OnErr, OnOk};
ghost use Rattle.std.specs.Prelude.{drop, length, slice_get, take};
ghost use Rattle.std.specs.List.{remove};
ghost use Rattle.handles.specs.Copies.{CopiesAreEqual};
ghost use Rattle.sequence.specs.Spots.{place_at};

use crate::label::NewLabel;
use crate::labelled::LabelledSequence;
use crate::tree::ends::End;
use std::alloc::{AllocError, Global};

impl<T: Clone, L: NewLabel<T>> LabelledSequence<T, L> {
    /// Appends `item`: `list.push(alloc, item)?`. O(log n).
    ///
    /// The last leaf is found without a search and written in one pass. A full leaf takes a second pass, as in
    /// `insert`.
    ///
    /// # Errors
    ///
    /// `AllocError` if `insert` would return `Memory`. The items stay as they were; `item` is dropped.
    pub fn push(&mut self, alloc: Global, item: T) -> Result<(), AllocError>
        requires copies { CopiesAreEqual T.is_clone }
        requires labels { CopiesAreEqual L.is_clone }
        ensures items { OnOk result (self.new ≡ self.old ++ item ∷ []) }
        ensures refused { OnErr result (self.new ≡ self.old) }
    {
        let len = self.len;
        let item = match &mut self.root {
            Some(tree) if len < usize::MAX => match tree.push(alloc, item) {
                Ok(()) => {
                    self.len = len + 1;
                    return Ok(());
                }
                Err(item) => item,
            },
            _ => item,
        };
        self.insert_at(alloc, len, item)
    }

    /// Inserts `item` before all others: `list.push_front(alloc, item)?`. O(log n).
    ///
    /// # Errors
    ///
    /// `AllocError` if `insert` would return `Memory`. The items stay as they were; `item` is dropped.
    pub fn push_front(&mut self, alloc: Global, item: T) -> Result<(), AllocError>
        requires copies { CopiesAreEqual T.is_clone }
        requires labels { CopiesAreEqual L.is_clone }
        ensures items { OnOk result (self.new ≡ item ∷ self.old) }
        ensures refused { OnErr result (self.new ≡ self.old) }
    {
        self.insert_at(alloc, 0, item)
    }

    /// Removes the last item and returns it, or `None` if the list is empty: `list.pop(alloc)?`. O(log n).
    ///
    /// # Errors
    ///
    /// `AllocError` if `remove` would return `Memory`. The items stay as they were.
    pub fn pop(&mut self, alloc: Global) -> Result<Option<T>, AllocError>
        requires copies { CopiesAreEqual T.is_clone }
        requires labels { CopiesAreEqual L.is_clone }
        ensures item { IfOk result (λ item. item ≡ slice_get self.old (length self.old - 1)) }
        ensures items { OnOk result (self.new ≡ take (length self.old - 1) self.old) }
        ensures none { self.old ≡ [] → IsOk result }
        ensures refused { OnErr result (self.new ≡ self.old) }
    {
        self.pop_at(alloc, End::Last)
    }

    /// Removes the first item and returns it, or `None` if the list is empty: `list.pop_front(alloc)?`. O(log n).
    ///
    /// # Errors
    ///
    /// `AllocError` if `remove` would return `Memory`. The items stay as they were.
    pub fn pop_front(&mut self, alloc: Global) -> Result<Option<T>, AllocError>
        requires copies { CopiesAreEqual T.is_clone }
        requires labels { CopiesAreEqual L.is_clone }
        ensures item { IfOk result (λ item. item ≡ slice_get self.old 0) }
        ensures items { OnOk result (self.new ≡ drop 1 self.old) }
        ensures none { self.old ≡ [] → IsOk result }
        ensures refused { OnErr result (self.new ≡ self.old) }
    {
        self.pop_at(alloc, End::First)
    }

    // Removes in one pass if no node on the path gets underfull, and else as `remove` does.
    fn pop_at(&mut self, alloc: Global, end: End) -> Result<Option<T>, AllocError>
        requires copies { CopiesAreEqual T.is_clone × CopiesAreEqual L.is_clone }
        ensures popped { MatchResult result
            (λ item. (item ≡ slice_get self.old (place_at end (length self.old)))
            × (self.new ≡ remove self.old (place_at end (length self.old))))
            (λ _. self.new ≡ self.old) }
        ensures none { self.old ≡ [] → IsOk result }
    {
        let len = self.len;
        if len == 0 {
            return Ok(None);
        }
        if len > 1
            && let Some(tree) = &mut self.root
            && let Ok(item) = tree.pop(alloc, end, 0)
        {
            self.len = len - 1;
            return Ok(Some(item));
        }
        let item = self.remove_at(alloc, end.place(len))?;
        Ok(Some(item))
    }
}
