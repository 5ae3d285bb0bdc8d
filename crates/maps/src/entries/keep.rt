//! Maps of the entries that a predicate keeps.
ghost use Rattle.std.specs.Prelude.{◌≡◌, OnErr, OnOk};
ghost use Rattle.std.specs.List.Retain.{IsFiltered};
ghost use Rattle.handles.specs.Copies.{CopiesAreEqual};
ghost use Rattle.maps.specs.Changes.{AskedOf};

use crate::entries::Entries;
use std::alloc::{AllocError, Global};

impl<K: Ord + Clone, V: Clone> Entries<K, V> {
    /// Keeps the entries for which `keep` returns `true`, and drops the others:
    /// `map.retain(alloc, |key, _| *key >= 7)?`. O(n).
    ///
    /// `keep` is called once for each entry, in ascending order of the keys. The entries that stay are cloned into new
    /// nodes, unless all stay: then the map keeps its nodes.
    ///
    /// # Errors
    ///
    /// `AllocError` if there is no memory, or if the `clone` of a key, a value or a handle fails. The entries stay as
    /// they were.
    pub fn retain<F: FnMut(&K, &V) -> bool>(
        &mut self,
        alloc: Global,
        mut keep: F,
    ) -> Result<(), AllocError>
        requires copies_of_keys { CopiesAreEqual K.is_clone }
        requires copies_of_values { CopiesAreEqual V.is_clone }
        requires callable { F.IsAlwaysCallable keep }
        ensures kept { OnOk result (IsFiltered (AskedOf F.FnMut) keep self.old self.new) }
        ensures refused { OnErr result (self.new ≡ self.old) }
    {
        self.entries.retain(
            alloc,
            |entry: &(K, V)|
                requires { F.IsAlwaysCallable keep }
                ensures { AskedOf F.FnMut keep.entry entry.now result keep.exit }
            { keep(&entry.0, &entry.1) },
        )
    }
}
