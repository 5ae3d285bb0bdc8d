//! All entries of another map.
ghost use Rattle.std.specs.Prelude.{◌≡◌, OnErr, OnOk};
ghost use Rattle.handles.specs.Copies.{CopiesAreEqual};
ghost use Rattle.maps.specs.Maps.{with_entries};

use crate::entries::Entries;
use std::alloc::{AllocError, Global};

impl<K: Ord + Clone, V: Clone> Entries<K, V> {
    /// Inserts clones of all entries of `other`, whose values replace those of equal keys:
    /// `map.append(alloc, &other)?`. O(m log(n + m)) for m entries of `other`. `other` keeps its entries, unlike in
    /// `std`.
    ///
    /// # Errors
    ///
    /// `AllocError` when `insert`, or the `clone` of a key, a value or a handle, fails. The entries stay as they were,
    /// since all are inserted into a clone that then replaces this map.
    pub fn append(&mut self, alloc: Global, other: &Entries<K, V>) -> Result<(), AllocError>
        requires copies_of_keys { CopiesAreEqual K.is_clone }
        requires copies_of_values { CopiesAreEqual V.is_clone }
        ensures entries { OnOk result (self.new ≡ with_entries K.cmp other.now self.old) }
        ensures refused { OnErr result (self.new ≡ self.old) }
    {
        let mut both = self.version()?;
        for entry in other {
            let (key, value) = entry.clone()?;
            both.insert(alloc, key, value)?;
        }
        *self = both;
        Ok(())
    }
}
