//! A sorted map whose versions (snapshots) share their nodes. A type may hold itself in its values.
//
// The checker rejects a type that holds itself in `Entries`, because its nodes are a recursive type. It does not look
// behind a raw pointer. So these structs are laid out as those of `Entries`, with raw pointers, and own what `Entries`
// in their place own.
ghost use Rattle.std.specs.Prelude.{◌≡◌, []};
ghost use types.Logic.{sem};

mod compare;
mod forward;

use crate::entries::Entries;
use std::alloc::AllocError;
use std::marker::{Move, Owns};
use std::mem;
use std::ops::{Deref, DerefMut};

#[derive(Drop)]
struct Handle<T> {
    block: *const T,
}

#[derive(Drop)]
struct Arc<T> {
    handle: Handle<T>,
}

#[derive(Drop)]
struct Tree<T> {
    root: Arc<T>,
}

#[derive(Drop)]
struct Sequence<T> {
    root: Option<Tree<T>>,
    len: usize,
}

/// A sorted map (a B+ tree). A clone is a version: a snapshot that shares all nodes with the original.
///
/// A change of one version is seen in no other. `clone` takes O(1), and `get`, `insert` and `remove` take O(log n). A
/// type may hold itself in the values: `enum Value { Number(u64), Map(TreeMap<u64, Value>) }`. A key may not hold it.
///
/// ```
/// let old: TreeMap<u64, u64> = map.clone()?;
/// map.insert(alloc, key, value)?;
/// let values = (old.get(&key).copied(), map.get(&key).copied());
/// ```
///
/// A `TreeMap` dereferences to its [`Entries`], as a `Vec` does to a slice. They have most of its calls: all but
/// `ptr_eq` and those that return a map.
///
/// Dropping a map recurses to the depth of the tree, which is at most 2 log2(n + 1).
pub struct TreeMap<K: Ord, V> {
    entries: Sequence<(K, V)>,
}

impl<K: Ord, V> Owns for TreeMap<K, V> {
    ghost use Rattle.std.specs.Prelude.{List};
    ghost use Rattle.maps.specs.Laid.Owned.{map_lent};

    ghost Value = { List (K × V) };

    ghost shr_at = { λ m p κ. map_lent K.row V.row K.Ord K.PartialEq K.PartialOrd m p κ };
}

impl<K: Ord, V> Move for TreeMap<K, V> {
    ghost use Rattle.maps.specs.Laid.Owned.{map_row};

    ghost own_val = { λ m vs. (map_row K.row V.row K.Ord K.PartialEq K.PartialOrd).own_val m vs };
}

unsafe impl<K: Ord + Send + Sync, V: Send + Sync> Send for TreeMap<K, V> {}

unsafe impl<K: Ord + Send + Sync, V: Send + Sync> Sync for TreeMap<K, V> {}

impl<K: Ord, V> TreeMap<K, V> {
    /// Creates an empty map, with no allocation: `let mut map = TreeMap::new();`.
    pub fn new() -> TreeMap<K, V>
        ensures { result ≡ [] }
    {
        TreeMap {
            entries: Sequence { root: None, len: 0 },
        }
    }
}

impl<K: Ord + Drop, V: Drop> TreeMap<K, V> {
    fn of(entries: Entries<K, V>) -> TreeMap<K, V>
        ensures { result ≡ entries }
    {
        let mut map = TreeMap::new();
        *map.deref_mut() = entries;
        map
    }
}

/// Lends the entries of the map.
impl<K: Ord, V> Deref for TreeMap<K, V> {
    type Target = Entries<K, V>;

    ghost deref_gives = { λ map entries. entries ≡ map };

    fn deref(&self) -> &Entries<K, V>
        ensures { result.now ≡ self.now }
    {
        unsafe { &*(self as *const TreeMap<K, V> as *const Entries<K, V>) }
    }
}

impl<K: Ord, V> DerefMut for TreeMap<K, V> {
    ghost use Rattle.maps.specs.Laid.Lending.{LendsMap};

    ghost deref_mut_gives = { λ map entries. entries ≡ map };

    fn deref_mut(&mut self) -> &mut Entries<K, V>
        ensures* writes_back { sem 𝓛 (LendsMap K.row V.row K.cmp K.eq K.partial_cmp self.entry result) }
        ensures value { result.now ≡ self.old }
    {
        unsafe { &mut *(self as *mut TreeMap<K, V> as *mut Entries<K, V>) }
    }
}

impl<K: Ord + Drop, V: Drop> Drop for TreeMap<K, V> {
    fn drop(mut self) {
        drop(mem::replace(self.deref_mut(), Entries::new()));
        // They own no entries now.
        let TreeMap { entries: _ } = self;
    }
}

/// Makes a version (snapshot) by one increment of a count, with no copy and no allocation:
/// `let old: TreeMap<u64, u64> = map.clone()?;`. O(1).
///
/// # Errors
///
/// `AllocError` when the `clone` of an `Arc` fails: the count is at its limit, or too many attempts lost to other
/// threads. A lack of memory is no reason.
impl<K: Ord + Drop, V: Drop> Clone for TreeMap<K, V> {
    ghost is_clone = { λ a b. b ≡ a };

    fn clone(&self) -> Result<TreeMap<K, V>, AllocError> {
        Ok(TreeMap::of(self.version()?))
    }
}

/// Creates an empty map, as `TreeMap::new` does.
impl<K: Ord, V> Default for TreeMap<K, V> {
    ghost is_default = { λ map. map ≡ [] };

    fn default() -> TreeMap<K, V> {
        TreeMap::new()
    }
}
