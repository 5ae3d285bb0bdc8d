//! The entries of a sorted map, in ascending order of their keys.
ghost use Rattle.std.specs.Prelude.{◌≡◌, ◌+◌, ◌^◌, ◌<◌, ◌≤◌, ◌↔◌, [], IsTrue};
ghost use Rattle.std.specs.Prelude.{◌-◌, None, Some, IfOk, IsOk, OnOk, OnErr, IfNone, IfSome};
ghost use Rattle.std.specs.Prelude.{cond, is_some, length, option_map, slice_get};
ghost use Rattle.std.specs.Fn.{FnOnceReturnsAtMut, FnOnceTakesAtMut};
ghost use Rattle.std.specs.List.{IsAmong};
ghost use Rattle.std.specs.Map.{values_of};
ghost use Rattle.std.specs.Option.{ForSome, option_copied};
ghost use Rattle.std.specs.Ordering.{is_eq};
ghost use Rattle.sequence.specs.Nodes.{IsLevel, items_under};
ghost use Rattle.handles.specs.Copies.{CopiesAreEqual};
ghost use Rattle.maps.specs.Changes.{ChangesValue};
ghost use Rattle.maps.specs.Maps.{IsRising, entry_by, lookup, lookup_by, rank_by, with_entry, without_by};
ghost use Rattle.maps.specs.Nodes.{IsDeep};

mod alter;
pub(crate) mod diff;
mod empty;
pub(crate) mod fields;
mod index;
pub(crate) mod iter;
mod keep;
mod merge;
mod near;
mod pop;
mod range;
pub(crate) mod rising;

use crate::cut::{Below, UpTo};
use crate::entry::Entry;
use crate::key::Key;
use crate::query::Query;
use sequence::LabelledSequence;
use std::alloc::{AllocError, Global};
use std::marker::Model;

/// The nodes of a map that is not empty, as `tree` returns them: `map.tree().map(|tree| tree.depth())`.
pub type Tree<K, V> = sequence::Tree<(K, V), Key<K>>;

/// The entries of a [`TreeMap`](crate::TreeMap), in ascending order of their keys:
/// `let entries: &Entries<_, _> = &map;`.
///
/// A `TreeMap` dereferences to this type, as a `Vec` does to a slice. So `Entries` has all calls of a map but those
/// that return a map (`clone` and `union`, say) or compare two maps. A type cannot hold itself in `Entries`.
#[derive(Drop)]
pub struct Entries<K: Ord, V> {
    pub(crate) entries: LabelledSequence<(K, V), Key<K>>,
}

impl<K: Ord, V> Model for Entries<K, V> {
    ghost use Rattle.std.specs.Prelude.{List};

    ghost Value = { List (K × V) };

    ghost view = { λ m. m.entries };

    ghost use Rattle.maps.specs.Maps.{IsRising};

    ghost invariant = { λ m. IsRising K.cmp m.entries };
}

impl<K: Ord, V> Entries<K, V> {
    /// Returns the number of entries: `map.len()`. O(1).
    pub fn len(&self) -> usize
        ensures count { result ≡ length self.now }
        ensures fits { length self.now < 2 ^ 64 }
    {
        self.entries.len()
    }

    /// Returns `true` if there are no entries.
    pub fn is_empty(&self) -> bool
        ensures { IsTrue result ↔ (self.now ≡ []) }
    {
        self.entries.is_empty()
    }

    /// Returns the nodes of the map, or `None` if the map is empty. All leaves are equally deep. O(1).
    #[inline(always)]
    pub fn tree(&self) -> Option<&Tree<K, V>>
        ensures entries { items_under (option_copied result) ≡ self.now }
        ensures none { (result ≡ None) ↔ (self.now ≡ []) }
        ensures level { IfSome result (λ tree. IsLevel tree.now) }
        ensures rising { IsRising K.cmp self.now }
    {
        self.entries.tree()
    }

    /// Returns the number of nodes on a path from the root to a leaf: at most 2 log2(n + 1). O(log n).
    pub fn depth(&self) -> u8
        ensures nodes { 0 < length self.now → IsDeep K.cmp self.now result }
        ensures at_most { 2 ^ result ≤ (length self.now + 1) ^ 2 }
    {
        match self.tree() {
            None => 0,
            Some(tree) => tree.depth(),
        }
    }

    /// Returns the value under `key`, or `None`: `map.get(&key)`, or `map.get("elm")` if the keys are `Arc<String>`.
    /// O(log n).
    pub fn get<Q: Query<K>>(&self, key: Q) -> Option<&V>
        ensures found { option_copied result ≡ lookup_by (Q.order key) self.now }
        ensures member { IfSome result (λ value. IsAmong (values_of self.now) value.now) }
        ensures rising { IsRising K.cmp self.now }
    {
        let (_, value) = self.get_key_value(key)?;
        Some(value)
    }

    /// Returns the entry of `key`, with the key that is stored in the map: `map.get_key_value(&key)`. O(log n).
    pub fn get_key_value<Q: Query<K>>(&self, key: Q) -> Option<&(K, V)>
        ensures found { option_copied result ≡ entry_by (Q.order key) self.now }
        ensures value { option_map (λ e. e.1) (option_copied result) ≡ lookup_by (Q.order key) self.now }
        ensures member { IfSome result (λ e. IsAmong (values_of self.now) e.now.1) }
        ensures rising { IsRising K.cmp self.now }
    {
        let entry = self.entries.last_before(&UpTo { query: key })?;
        if key.order(&entry.0).is_eq() {
            Some(entry)
        } else {
            None
        }
    }

    /// Returns `true` if the map has `key`: `map.contains_key("oak")`. O(log n).
    pub fn contains_key<Q: Query<K>>(&self, key: Q) -> bool
        ensures { result ≡ is_some (lookup_by (Q.order key) self.now) }
    {
        self.get(key).is_some()
    }

    /// Returns the number of keys less than `key`, which is the index of its entry if the map has `key`:
    /// `map.rank(&key)`. O(log n).
    pub fn rank<Q: Query<K>>(&self, key: Q) -> usize
        ensures rank { result ≡ rank_by (Q.order key) self.now }
        ensures within { result ≤ length self.now }
    {
        self.entries.rank(&Below { query: key })
    }

    /// Returns the entry at `index`, counted from 0 in ascending order of the keys, or `None`: `map.nth(3)`. O(log n),
    /// and compares no keys.
    pub fn nth(&self, index: usize) -> Option<&(K, V)>
        ensures entry { option_copied result ≡ slice_get self.now index }
        ensures member { IfSome result (λ e. IsAmong (values_of self.now) e.now.1) }
        ensures rising { IsRising K.cmp self.now }
    {
        self.entries.get(index)
    }

    /// Returns the entry with the least key, or `None` if the map is empty: `map.first()`. O(log n).
    pub fn first(&self) -> Option<&(K, V)>
        ensures entry { option_copied result ≡ slice_get self.now 0 }
        ensures member { IfSome result (λ e. IsAmong (values_of self.now) e.now.1) }
    {
        self.nth(0)
    }

    /// Returns the entry with the greatest key, or `None` if the map is empty: `map.last()`. O(log n).
    pub fn last(&self) -> Option<&(K, V)>
        ensures entry { option_copied result ≡ slice_get self.now (length self.now - 1) }
        ensures member { IfSome result (λ e. IsAmong (values_of self.now) e.now.1) }
    {
        self.entries.last()
    }
}

impl<K: Ord + Clone, V: Clone> Entries<K, V> {
    /// Inserts `value` under `key` and returns the value that the key had: `let old = map.insert(alloc, key, value)?;`.
    /// O(log n).
    ///
    /// If the map has an equal key, that key stays and `key` is dropped. Nodes on the path that another version shares
    /// are copied, and the others are written in place. A full node on the path is split.
    ///
    /// # Errors
    ///
    /// `AllocError` if there is no memory, if the `clone` of a key, a value or a handle fails, or for any key if the
    /// map has `usize::MAX` entries. The entries stay as they were; `key` and `value` are dropped.
    pub fn insert(&mut self, alloc: Global, key: K, value: V) -> Result<Option<V>, AllocError>
        requires copies_of_keys { CopiesAreEqual K.is_clone }
        requires copies_of_values { CopiesAreEqual V.is_clone }
        ensures value { IfOk result (λ old. old ≡ lookup K.cmp key self.old) }
        ensures entries { OnOk result (self.new ≡ with_entry K.cmp key value self.old) }
        ensures changes { OnOk result ((k : K) → lookup K.cmp k self.new
            ≡ cond (is_eq (K.cmp k key)) (Some value) (lookup K.cmp k self.old)) }
        ensures refused { OnErr result (self.new ≡ self.old) }
    {
        self.entries.put_in(alloc, Entry { key, value })
    }

    /// Removes `key` and returns its value, or `None`: `map.remove(alloc, "elm")?`. O(log n).
    ///
    /// Nodes on the path that another version shares are copied, and the others are written in place. An underfull node
    /// on the path is joined with its neighbour. If the map has no such key, nothing is copied.
    ///
    /// # Errors
    ///
    /// `AllocError` if there is no memory, or if the `clone` of a key, a value or a handle fails. The entries stay as
    /// they were.
    pub fn remove<Q: Query<K>>(&mut self, alloc: Global, key: Q) -> Result<Option<V>, AllocError>
        requires copies_of_keys { CopiesAreEqual K.is_clone }
        requires copies_of_values { CopiesAreEqual V.is_clone }
        ensures value { IfOk result (λ value. value ≡ lookup_by (Q.order key) self.old) }
        ensures entries { OnOk result (self.new ≡ without_by (Q.order key) self.old) }
        ensures changes { OnOk result ((k : K) → lookup K.cmp k self.new
            ≡ cond (is_eq (Q.order key k)) None (lookup K.cmp k self.old)) }
        ensures none { lookup_by (Q.order key) self.old ≡ None → IsOk result }
        ensures refused { OnErr result (self.new ≡ self.old) }
    {
        let value = match self.entries.take_out(alloc, UpTo { query: key })? {
            None => None,
            Some((_key, value)) => Some(value),
        };
        Ok(value)
    }

    /// Calls `change` on the value under `key` and returns its result, or returns `None` if the map has no such key:
    /// `map.modify(alloc, &key, |value| mem::replace(value, new))?`. O(log n).
    ///
    /// Nodes on the path that another version shares are copied. If the map has no such key, nothing is copied.
    ///
    /// # Errors
    ///
    /// `AllocError` if there is no memory, or if the `clone` of a key, a value or a handle fails. `change` is then not
    /// called.
    pub fn modify<R, F: FnOnce(&mut V) -> R>(
        &mut self,
        alloc: Global,
        key: &K,
        change: F,
    ) -> Result<Option<R>, AllocError>
        requires copies_of_keys { CopiesAreEqual K.is_clone }
        requires copies_of_values { CopiesAreEqual V.is_clone }
        requires callable { ForSome (lookup K.cmp key.now self.old) (FnOnceTakesAtMut F.FnOnce change) }
        ensures absent { IfOk result (λ answer. IfNone answer
            ((lookup K.cmp key.now self.old ≡ None) × (self.new ≡ self.old))) }
        ensures changed { IfOk result (λ answer. IfSome answer
            (ChangesValue F.FnOnce change K.cmp key.now self.old self.new)) }
        ensures none { lookup K.cmp key.now self.old ≡ None → IsOk result }
        ensures refused { OnErr result (self.new ≡ self.old) }
    {
        self.entries.change(
            alloc,
            UpTo { query: key },
            |entry: &mut (K, V)|
                requires { FnOnceTakesAtMut F.FnOnce change entry.old.1 }
                ensures key { entry.new.0 ≡ entry.old.0 }
                ensures value { FnOnceReturnsAtMut F.FnOnce change entry.old.1 result entry.new.1 }
            { change(&mut entry.1) },
        )
    }
}

impl<K: Ord + Drop, V: Drop> Entries<K, V> {
    // As the `clone` of a `TreeMap`. It is no `clone`, so that no caller gets `Entries` who wants a map.
    pub(crate) fn version(&self) -> Result<Entries<K, V>, AllocError>
        ensures { IfOk result (λ version. version ≡ self.now) }
    {
        Ok(Entries {
            entries: self.entries.clone()?,
        })
    }
}
