//! The empty map.
ghost use Rattle.std.specs.Prelude.{◌≡◌, []};

use crate::entries::Entries;
use sequence::LabelledSequence;

impl<K: Ord, V> Entries<K, V> {
    // As `TreeMap::new`.
    pub(crate) fn new() -> Entries<K, V>
        ensures { result ≡ [] }
    {
        Entries {
            entries: LabelledSequence::empty(),
        }
    }
}

impl<K: Ord + Drop, V: Drop> Entries<K, V> {
    /// Removes all entries, with no allocation: `map.clear()`. O(n), or O(1) if another version (snapshot) shares the
    /// root.
    pub fn clear(&mut self)
        ensures { self.new ≡ [] }
    {
        *self = Entries::new();
    }
}
