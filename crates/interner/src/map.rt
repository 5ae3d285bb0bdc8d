//! `InternMap`, which keeps a value for each interned key.
ghost use Rattle.std.specs.Prelude.{◌≡◌, ◌++◌, ◌∷◌, [], ◌≤◌, ◌^◌, false, length, position, slice_get};
ghost use Rattle.std.specs.Prelude.{Err, IfNone, IfOk, IfSome, IsOk, IsTrue, OnErr, OnOk, if◌then◌else◌};
ghost use Rattle.std.specs.List.{list_any};
ghost use Rattle.std.specs.Option.{option_copied};
ghost use Rattle.interner.specs.InternMaps.{IsUnder};
ghost use Rattle.interner.specs.Symbols.{IsInterned};

use crate::error::InternError;
use crate::query::Query;
use crate::symbol::Symbol;
use crate::table::Interner;
use handles::arc::Arc;
use std::alloc::Global;
use std::hash::{BuildHasher, BuildHasherDefault, FoldHasher, Hash};
use std::marker::Model;

/// An interner of keys that keeps a value for each: `map.get_or_insert(key, value)?`. Use it as a cache of results.
///
/// No key and no value is ever removed or replaced.
#[derive(Drop)]
pub struct InternMap<K: Eq + Hash, V, S: BuildHasher = BuildHasherDefault<FoldHasher>> {
    keys: Interner<K, S>,
    values: Vec<V>,
}

impl<K: Eq + Hash, V, S: BuildHasher> Model for InternMap<K, V, S> {
    ghost use Rattle.std.specs.Prelude.{◌≡◌, length};
    ghost use Rattle.interner.specs.InternMaps.{KeysAndValues};

    ghost Value = { KeysAndValues K V };

    ghost view = { λ m. record { keys = m.keys; values = m.values.items } };

    ghost invariant = { λ m. length m.values.items ≡ length m.keys };
}

impl<K: Eq + Hash, V> InternMap<K, V, BuildHasherDefault<FoldHasher>> {
    /// Creates an empty map, without an allocation: `InternMap::new(alloc)`.
    pub fn new(alloc: Global) -> InternMap<K, V>
        ensures { result ≡ record { keys = []; values = [] } }
    {
        InternMap::with_hasher(alloc, BuildHasherDefault::new())
    }
}

impl<K: Eq + Hash, V, S: BuildHasher> InternMap<K, V, S> {
    /// Creates an empty map with a hasher of your choice: `InternMap::with_hasher(alloc, RandomState::new(&rt)?)`.
    pub fn with_hasher(alloc: Global, hasher: S) -> InternMap<K, V, S>
        ensures { result ≡ record { keys = []; values = [] } }
    {
        InternMap {
            keys: Interner::with_hasher(alloc, hasher),
            values: Vec::new(alloc),
        }
    }

    /// Returns the interner of the keys, which finds the symbol of a key: `map.keys().find(query)`.
    pub fn keys(&self) -> &Interner<K, S>
        ensures keys { result.now ≡ self.now.keys }
        ensures values { length self.now.values ≡ length self.now.keys }
    {
        &self.keys
    }

    /// Returns the values, in the order of the symbols of their keys: `map.values()`.
    pub fn values(&self) -> &[V]
        ensures { result.now ≡ self.now.values }
    {
        &self.values
    }

    /// Returns the value of the key that the query stands for, or `None`: `map.find_value(query)`. O(1) on average.
    pub fn find_value<Q: Query<K>>(&self, query: Q) -> Option<&V>
        ensures found { IfSome result (λ value. IsUnder (Q.stands_for query) self.now value.now) }
        ensures none { IfNone result (position (Q.stands_for query) self.now.keys ≡ None) }
    {
        let symbol = self.keys.find(query)?;
        self.get(symbol)
    }

    /// Returns the value of the key with the symbol, or `None` if the symbol is of an interner with more keys:
    /// `map.get(symbol)`. O(1).
    pub fn get(&self, symbol: Symbol) -> Option<&V>
        ensures { option_copied result ≡ slice_get self.now.values symbol }
    {
        self.values.get(symbol.index())
    }
}

impl<K: Eq + Hash + Drop, V: Drop, S: BuildHasher> InternMap<K, V, S> {
    /// Returns the symbol of the key, and adds the key with the value if no equal key is there:
    /// `map.get_or_insert(key, 5)?`. If an equal key is there, `key` and `value` are dropped. O(1) on average, and
    /// the key is hashed once.
    ///
    /// # Errors
    ///
    /// Returns `Full` for a new key if no symbol is left, and `Memory` for a new key if a table cannot grow. The map
    /// is unchanged; `key` and `value` are dropped. A key that is there causes no error.
    #[tactic(auto, using(crate::proofs::Symbols::known, crate::proofs::Symbols::any_by_position))]
    pub fn get_or_insert(&mut self, key: Arc<K>, value: V) -> Result<Symbol, InternError>
        ensures interned { IfOk result (IsInterned K.eq self.old.keys key self.new.keys) }
        ensures there { IsTrue (list_any (K.eq key) self.old.keys) → IsOk result }
        ensures value { OnOk result (self.new.values
            ≡ (if list_any (K.eq key) self.old.keys then self.old.values else self.old.values ++ value ∷ [])) }
        ensures full { (result ≡ Err InternError.Full)
            → (list_any (K.eq key) self.old.keys ≡ false) × (2 ^ 32 ≤ length self.old.keys) }
        ensures refused { OnErr result (self.new ≡ self.old) }
    {
        if self.values.reserve(1).is_err() {
            return self.keys.find(&*key).ok_or(InternError::Memory);
        }
        let symbol = self.keys.intern_arc(key)?;
        if symbol.index() < self.values.len() {
            return Ok(symbol);
        }
        self.values.push(value)?;
        Ok(symbol)
    }
}
