//! Iteration over the entries of a map.
ghost use Rattle.std.specs.Prelude.{◌≡◌};
ghost use Rattle.std.specs.Map.Iter.{ShowsInOrder, ShowsValuesInOrder, deref};

use crate::entries::Entries;
use crate::key::Key;

/// An iterator over the entries of a map in ascending order of the keys: `for (key, value) in &map { .. }`.
pub type Iter<'a, K, V> = sequence::Iter<'a, (K, V), Key<K>>;

impl<'a, K: Ord, V> IntoIterator for &'a Entries<K, V> {
    type Item = &'a (K, V);

    type IntoIter = Iter<'a, K, V>;

    ghost into_iter_gives = { λ map r. r ≡ map.now };

    fn into_iter(self) -> Iter<'a, K, V> {
        self.entries.iter()
    }
}

impl<K: Ord, V> Entries<K, V> {
    /// Returns an iterator over the entries in ascending order of the keys: `map.iter()`. A step takes O(1) within a
    /// leaf, and O(log n) to the next leaf.
    pub fn iter(&self) -> Iter<'_, K, V>
        ensures entries { result ≡ self.now }
        ensures runs { ShowsInOrder (deref {X = K × V}) }
        ensures runs_of_values { ShowsValuesInOrder (deref {X = K × V}) }
    {
        self.into_iter()
    }
}
