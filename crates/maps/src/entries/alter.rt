//! One call that changes, inserts or removes the value under a key.
ghost use Rattle.std.specs.Prelude.{◌≡◌, OnErr, OnOk};
ghost use Rattle.handles.specs.Copies.{CopiesAreEqual};
ghost use Rattle.maps.specs.Changes.{Alters};
ghost use Rattle.maps.specs.Maps.{lookup};

use crate::entries::Entries;
use std::alloc::{AllocError, Global};

impl<K: Ord + Clone, V: Clone> Entries<K, V> {
    /// Calls `change` on a clone of the value under `key`, or on `None`, and stores its result:
    /// `map.alter(alloc, key, |_| None)?` removes the key. O(log n).
    ///
    /// It searches twice, as `get` and then `insert` or `remove` do. `modify` needs no clone of the value.
    ///
    /// # Errors
    ///
    /// `AllocError` when the `clone` of the value, `insert` or `remove` fails. The entries stay as they were, although
    /// `change` may have been called.
    pub fn alter<F: FnOnce(Option<V>) -> Option<V>>(
        &mut self,
        alloc: Global,
        key: K,
        change: F,
    ) -> Result<(), AllocError>
        requires copies_of_keys { CopiesAreEqual K.is_clone }
        requires copies_of_values { CopiesAreEqual V.is_clone }
        requires callable { F.pre change (lookup K.cmp key self.old) }
        ensures altered { OnOk result (Alters (F.post change) K.cmp key self.old self.new) }
        ensures refused { OnErr result (self.new ≡ self.old) }
    {
        let before = self.get(&key).cloned()?;
        match change(before) {
            None => {
                self.remove(alloc, &key)?;
            }
            Some(value) => {
                self.insert(alloc, key, value)?;
            }
        }
        Ok(())
    }
}
