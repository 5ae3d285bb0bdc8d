//! Removal of the first and of the last entry.
ghost use Rattle.std.specs.Prelude.{◌≡◌, ◌-◌, [], IfOk, IsOk, OnErr, OnOk, drop, length, slice_get, take};
ghost use Rattle.handles.specs.Copies.{CopiesAreEqual};

use crate::entries::Entries;
use std::alloc::{AllocError, Global};

impl<K: Ord + Clone, V: Clone> Entries<K, V> {
    /// Removes the entry with the least key and returns it, or `None` if the map is empty: `map.pop_first(alloc)?`.
    /// O(log n), and compares no keys.
    ///
    /// # Errors
    ///
    /// `AllocError` under the same conditions as `remove`. The entries stay as they were.
    pub fn pop_first(&mut self, alloc: Global) -> Result<Option<(K, V)>, AllocError>
        requires copies_of_keys { CopiesAreEqual K.is_clone }
        requires copies_of_values { CopiesAreEqual V.is_clone }
        ensures entry { IfOk result (λ entry. entry ≡ slice_get self.old 0) }
        ensures rest { OnOk result (self.new ≡ drop 1 self.old) }
        ensures none { self.old ≡ [] → IsOk result }
        ensures refused { OnErr result (self.new ≡ self.old) }
    {
        self.entries.pop_front(alloc)
    }

    /// Removes the entry with the greatest key and returns it, or `None` if the map is empty: `map.pop_last(alloc)?`.
    /// O(log n), and compares no keys.
    ///
    /// # Errors
    ///
    /// `AllocError` under the same conditions as `remove`. The entries stay as they were.
    pub fn pop_last(&mut self, alloc: Global) -> Result<Option<(K, V)>, AllocError>
        requires copies_of_keys { CopiesAreEqual K.is_clone }
        requires copies_of_values { CopiesAreEqual V.is_clone }
        ensures entry { IfOk result (λ entry. entry ≡ slice_get self.old (length self.old - 1)) }
        ensures rest { OnOk result (self.new ≡ take (length self.old - 1) self.old) }
        ensures none { self.old ≡ [] → IsOk result }
        ensures refused { OnErr result (self.new ≡ self.old) }
    {
        self.entries.pop(alloc)
    }
}
