//! The calls of a `TreeMap` that take or return a whole map; and `for`.
ghost use Rattle.std.specs.Prelude.{◌≡◌, ◌<◌, [], IfOk, IsTrue, OnErr, OnOk, drop, filter, is_none, is_some};
ghost use Rattle.std.specs.Prelude.{length, take};
ghost use Rattle.std.specs.Map.Iter.{ShowsInOrder, ShowsValuesInOrder, deref};
ghost use Rattle.handles.specs.Copies.{CopiesAreEqual};
ghost use Rattle.maps.specs.Maps.{lookup, rank_by, with_entries};

use super::TreeMap;
use crate::entries::Entries;
use crate::entries::iter::Iter;
use crate::entries::rising::rises;
use crate::query::Query;
use sequence::LabelledSequence;
use std::alloc::{AllocError, Global};
use std::ops::{Deref, DerefMut};

impl<K: Ord, V> TreeMap<K, V> {
    /// Returns `true` if both maps have the same root node: `TreeMap::ptr_eq(&map, &other)`. The answer is as exact as
    /// that of `Arc::ptr_eq`, and `false` for empty maps.
    pub fn ptr_eq(this: &TreeMap<K, V>, other: &TreeMap<K, V>) -> bool
        ensures { IsTrue result → (0 < length this.now) × (0 < length other.now) }
    {
        LabelledSequence::ptr_eq(&this.deref().entries, &other.deref().entries)
    }
}

impl<K: Ord + Clone, V: Clone> TreeMap<K, V> {
    /// Creates a map from `items` as if by `insert`, one after another: `TreeMap::from_items(alloc, items)?`. Of equal
    /// keys the first key and the last value are kept.
    ///
    /// O(n) if the keys are strictly ascending, since the entries are then moved into full nodes; else O(n log n).
    ///
    /// # Errors
    ///
    /// `AllocError` if there is no memory, or if the `clone` of a key fails. The items are then dropped.
    pub fn from_items(alloc: Global, items: Vec<(K, V)>) -> Result<TreeMap<K, V>, AllocError>
        requires copies_of_keys { CopiesAreEqual K.is_clone }
        requires copies_of_values { CopiesAreEqual V.is_clone }
        ensures { IfOk result (λ map. map ≡ with_entries K.cmp items.items []) }
    {
        if rises(&items) {
            let entries = LabelledSequence::of_items(alloc, items)?;
            return Ok(TreeMap::of(Entries { entries }));
        }
        let mut map = Entries::new();
        for (key, value) in items {
            map.insert(alloc, key, value)?;
        }
        Ok(TreeMap::of(map))
    }

    /// Splits the map at `key` and returns the entries from `key` on: `let rest = map.split_off(alloc, &key)?;`. O(log
    /// n), and one clone of a key for each node along the cut.
    ///
    /// # Errors
    ///
    /// `AllocError` if there is no memory, or if the `clone` of a key, a value or a handle fails. The entries stay as
    /// they were.
    pub fn split_off<Q: Query<K>>(
        &mut self,
        alloc: Global,
        key: Q,
    ) -> Result<TreeMap<K, V>, AllocError>
        requires copies_of_keys { CopiesAreEqual K.is_clone }
        requires copies_of_values { CopiesAreEqual V.is_clone }
        ensures out { IfOk result (λ map. map ≡ drop (rank_by (Q.order key) self.old) self.old) }
        ensures rest { OnOk result (self.new ≡ take (rank_by (Q.order key) self.old) self.old) }
        ensures refused { OnErr result (self.new ≡ self.old) }
    {
        let entries = self.deref_mut();
        let at = entries.rank(key);
        match entries.entries.split_off(alloc, at) {
            Ok(entries) => Ok(TreeMap::of(Entries { entries })),
            Err(_) => Err(AllocError),
        }
    }

    /// Returns a map with the entries of both maps, and with this map's value under a key of both:
    /// `map.union(alloc, &other)?`. O(n log(n + m)) for n entries of this map.
    ///
    /// # Errors
    ///
    /// `AllocError` under the same conditions as `append`.
    pub fn union(&self, alloc: Global, other: &TreeMap<K, V>) -> Result<TreeMap<K, V>, AllocError>
        requires copies_of_keys { CopiesAreEqual K.is_clone }
        requires copies_of_values { CopiesAreEqual V.is_clone }
        ensures { IfOk result (λ both. both ≡ with_entries K.cmp self.now other.now) }
    {
        let mut both = other.clone()?;
        both.append(alloc, self)?;
        Ok(both)
    }

    /// Returns the entries of this map whose keys are also in `other`: `map.intersection(alloc, &other)?`. O(n log m)
    /// for maps of n and m entries.
    ///
    /// # Errors
    ///
    /// `AllocError` under the same conditions as `retain`.
    pub fn intersection<W>(
        &self,
        alloc: Global,
        other: &TreeMap<K, W>,
    ) -> Result<TreeMap<K, V>, AllocError>
        requires copies_of_keys { CopiesAreEqual K.is_clone }
        requires copies_of_values { CopiesAreEqual V.is_clone }
        ensures { IfOk result (λ both. both ≡ filter (λ e. is_some (lookup K.cmp e.0 other.now)) self.now) }
    {
        let mut both = self.clone()?;
        both.retain(alloc, |key, _| other.contains_key(key))?;
        Ok(both)
    }

    /// Returns the entries of this map whose keys are not in `other`: `map.difference(alloc, &other)?`. O(n log m) for
    /// maps of n and m entries.
    ///
    /// `im` calls this `relative_complement`; its `difference` also has the entries that only the other map has.
    ///
    /// # Errors
    ///
    /// `AllocError` under the same conditions as `retain`.
    pub fn difference<W>(
        &self,
        alloc: Global,
        other: &TreeMap<K, W>,
    ) -> Result<TreeMap<K, V>, AllocError>
        requires copies_of_keys { CopiesAreEqual K.is_clone }
        requires copies_of_values { CopiesAreEqual V.is_clone }
        ensures { IfOk result (λ rest. rest ≡ filter (λ e. is_none (lookup K.cmp e.0 other.now)) self.now) }
    {
        let mut rest = self.clone()?;
        rest.retain(alloc, |key, _| !other.contains_key(key))?;
        Ok(rest)
    }
}

impl<'a, K: Ord, V> IntoIterator for &'a TreeMap<K, V> {
    type Item = &'a (K, V);

    type IntoIter = Iter<'a, K, V>;

    ghost into_iter_gives = { λ map r. (r ≡ map.now) × ShowsInOrder (deref {X = K × V})
        × ShowsValuesInOrder (deref {X = K × V}) };

    fn into_iter(self) -> Iter<'a, K, V> {
        self.iter()
    }
}
