//! The entries whose keys are within bounds.
ghost use Rattle.std.specs.Prelude.{◌≡◌, ◌≤◌, length};
ghost use Rattle.std.specs.Map.Iter.{ShowsInOrder, ShowsValuesInOrder, deref};
ghost use Rattle.std.specs.Range.Bound.{bound_map};
ghost use Rattle.maps.specs.Bounds.{entries_between, entries_within, rank_with_by};

use crate::cut::UpTo;
use crate::entries::Entries;
use crate::entries::iter::Iter;
use crate::query::Query;
use std::ops::{Bound, RangeBounds};

impl<K: Ord, V> Entries<K, V> {
    /// Returns an iterator over the entries whose keys are within `keys`, in ascending order: `map.range(first..end)`.
    /// O(log n): one search for each bound.
    ///
    /// The range is of keys or of references to keys: `a..b`, `..=&b` or a pair of `Bound`s. A range that ends before
    /// it starts is empty.
    pub fn range<R: RangeBounds<K>>(&self, keys: R) -> Iter<'_, K, V>
        ensures entries { R.has_bounds keys
            → result ≡ entries_within K.cmp (R.start_bound keys) (R.end_bound keys) self.now }
        ensures runs { ShowsInOrder (deref {X = K × V}) }
        ensures runs_of_values { ShowsValuesInOrder (deref {X = K × V}) }
    {
        self.range_by(keys.start_bound(), keys.end_bound())
    }

    /// Returns an iterator over the entries within two bounds, each a `Query`. With keys of type `Arc<String>`:
    /// `map.range_by(Bound::Excluded("ash"), Bound::Unbounded)`. O(log n).
    pub fn range_by<Q: Query<K>>(&self, start: Bound<Q>, end: Bound<Q>) -> Iter<'_, K, V>
        ensures entries { result ≡ entries_between (bound_map Q.order start) (bound_map Q.order end) self.now }
        ensures runs { ShowsInOrder (deref {X = K × V}) }
        ensures runs_of_values { ShowsValuesInOrder (deref {X = K × V}) }
    {
        // The number of keys before the start: the index of the first entry of the range.
        let from = match start {
            Bound::Included(key) => self.rank(key),
            Bound::Excluded(key) => self.rank_with(key),
            Bound::Unbounded => 0,
        };
        // The number of keys up to the end: the index behind the last entry of the range.
        let to = match end {
            Bound::Included(key) => self.rank_with(key),
            Bound::Excluded(key) => self.rank(key),
            Bound::Unbounded => self.len(),
        };
        self.entries.range(from..to)
    }

    // The number of keys at or below `key`.
    pub(super) fn rank_with<Q: Query<K>>(&self, key: Q) -> usize
        ensures rank { result ≡ rank_with_by (Q.order key) self.now }
        ensures within { result ≤ length self.now }
    {
        self.entries.rank(&UpTo { query: key })
    }
}
