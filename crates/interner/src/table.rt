//! `Interner`, which keeps equal values in one block.
ghost use Rattle.std.specs.Prelude.{◌≡◌, ◌<◌, ◌≤◌, ◌^◌, ◌↔◌, [], false, length, position, slice_get};
ghost use Rattle.std.specs.Prelude.{Err, IfErr, IfNone, IfOk, IsOk, IsTrue, OnErr, is_some};
ghost use Rattle.std.specs.List.{IsDistinct, enumerate_from, list_any};
ghost use Rattle.std.specs.Option.{SomeIff, option_copied};
ghost use Rattle.interner.specs.Made.{IsFoundOrMade};
ghost use Rattle.interner.specs.Symbols.{IsInterned};

use crate::asked::Asked;
use crate::error::InternError;
use crate::iter::Iter;
use crate::query::{Make, Query};
use crate::symbol::Symbol;
use handles::arc::Arc;
use indexmap::IndexSet;
use std::alloc::{AllocError, Global};
use std::hash::{BuildHasher, BuildHasherDefault, FoldHasher, Hash};
use std::marker::Model;

/// A set of values, each in one block under its symbol: `interner.intern(alloc, value)?`.
///
/// ```
/// let first = interner.intern(alloc, a)?;
/// let second = interner.intern(alloc, b)?;
/// Ok(first == second)
/// ```
///
/// Two symbols of an interner are equal exactly if their values are. Values are compared by their `Eq` and `Hash`,
/// and the first of equal values is kept. No value is ever removed, so a symbol stays valid as long as the interner
/// lives.
///
/// `S` makes the hash of a value. The hasher of `new` has a fixed seed, so whoever picks the values can make the
/// calls take O(n): use `RandomState` for the values of a stranger. The results do not depend on the hasher.
#[derive(Drop)]
pub struct Interner<T: Eq + Hash, S: BuildHasher = BuildHasherDefault<FoldHasher>> {
    blocks: IndexSet<Arc<T>, S>,
}

impl<T: Eq + Hash, S: BuildHasher> Model for Interner<T, S> {
    ghost use Rattle.std.specs.Prelude.{◌≤◌, ◌^◌, List, length};

    ghost Value = { List T };

    ghost view = { λ i. i.blocks.keys };

    ghost invariant = { λ i. length i.blocks.keys ≤ 2 ^ 32 };
}

impl<T: Eq + Hash> Interner<T, BuildHasherDefault<FoldHasher>> {
    /// Creates an empty interner, without an allocation: `Interner::new(alloc)`.
    pub fn new(alloc: Global) -> Interner<T>
        ensures { result ≡ [] }
    {
        Interner::with_hasher(alloc, BuildHasherDefault::new())
    }

    /// Creates an empty interner with room for `capacity` values: `Interner::with_capacity(alloc, 100)?`. Up to there
    /// an `intern` allocates only the block of the value.
    ///
    /// # Errors
    ///
    /// Returns `AllocError` if the room cannot be allocated.
    pub fn with_capacity(alloc: Global, capacity: usize) -> Result<Interner<T>, AllocError>
        ensures { IfOk result (λ interner. interner ≡ []) }
    {
        Interner::with_capacity_and_hasher(alloc, capacity, BuildHasherDefault::new())
    }
}

impl<T: Eq + Hash, S: BuildHasher> Interner<T, S> {
    /// Creates an empty interner with a hasher of your choice:
    /// `Interner::with_hasher(alloc, RandomState::new(&rt)?)`.
    pub fn with_hasher(alloc: Global, hasher: S) -> Interner<T, S>
        ensures { result ≡ [] }
    {
        Interner {
            blocks: IndexSet::with_hasher(alloc, hasher),
        }
    }

    /// Creates an empty interner with room for `capacity` values and a hasher of your choice:
    /// `Interner::with_capacity_and_hasher(alloc, 100, hasher)?`.
    ///
    /// # Errors
    ///
    /// Returns `AllocError` if the room cannot be allocated.
    pub fn with_capacity_and_hasher(
        alloc: Global,
        capacity: usize,
        hasher: S,
    ) -> Result<Interner<T, S>, AllocError>
    where
        S: Drop,
        ensures { IfOk result (λ interner. interner ≡ []) }
    {
        Ok(Interner {
            blocks: IndexSet::with_capacity_and_hasher(alloc, capacity, hasher)?,
        })
    }

    /// Returns the number of values: `interner.len()`.
    pub fn len(&self) -> usize
        ensures len { result ≡ length self.now }
        ensures distinct { IsDistinct T.eq self.now }
    {
        self.blocks.len()
    }

    /// Returns `true` if there are no values: `interner.is_empty()`.
    pub fn is_empty(&self) -> bool
        ensures { IsTrue result ↔ (self.now ≡ []) }
    {
        self.blocks.is_empty()
    }

    /// Returns the symbol of the value that the query stands for, or `None`: `interner.find(&value)`, or
    /// `interner.find("text")` of an interner of `String`s. O(1) on average.
    pub fn find<Q: Query<T>>(&self, query: Q) -> Option<Symbol>
        ensures { result ≡ position (Q.stands_for query) self.now }
    {
        let index = self.blocks.get_index_of(Asked(query))?;
        Some(Symbol::of(index as u32))
    }

    /// Returns the block of the value with the symbol, or `None` if the symbol is of an interner with more values:
    /// `interner.get(symbol)`. O(1).
    #[inline]
    pub fn get(&self, symbol: Symbol) -> Option<&Arc<T>>
        ensures { option_copied result ≡ slice_get self.now symbol }
    {
        self.blocks.get_index(symbol.index())
    }

    /// Returns the symbol at the index, or `None` if the index is out of range: `interner.symbol(0)`. The inverse of
    /// `Symbol::index`.
    pub fn symbol(&self, number: usize) -> Option<Symbol>
        ensures { SomeIff result (number < length self.now) number }
    {
        if number < self.blocks.len() {
            Some(Symbol::of(number as u32))
        } else {
            None
        }
    }

    /// Returns the values, in the order of their symbols: `interner.values()`.
    pub fn values(&self) -> &[Arc<T>]
        ensures { result.now ≡ self.now }
    {
        self.blocks.as_slice()
    }

    /// Returns an iterator over the values with their symbols, in the order of the symbols: `interner.iter()`.
    pub fn iter(&self) -> Iter<'_, T>
        ensures { result ≡ enumerate_from 0 self.now }
    {
        Iter::over(self.blocks.as_slice())
    }
}

impl<T: Eq + Hash + Drop, S: BuildHasher> Interner<T, S> {
    /// Returns the symbol of the value, and keeps its block if no equal value is there: `interner.intern_arc(node)?`.
    /// If an equal value is there, `value` is dropped. O(1) on average, and the value is hashed once.
    ///
    /// # Errors
    ///
    /// Returns `Full` for a new value if no symbol is left, and `Memory` for a new value if the table cannot grow.
    /// The interner is unchanged. A value that is there causes no error.
    #[tactic(auto, using(crate::proofs::Symbols::known, crate::proofs::Symbols::any_by_position))]
    pub fn intern_arc(&mut self, value: Arc<T>) -> Result<Symbol, InternError>
        ensures interned { IfOk result (IsInterned T.eq self.old value self.new) }
        ensures there { IsTrue (list_any (T.eq value) self.old) → IsOk result }
        ensures full { (result ≡ Err InternError.Full)
            ↔ (list_any (T.eq value) self.old ≡ false) × (2 ^ 32 ≤ length self.old) }
        ensures refused { OnErr result (self.new ≡ self.old) }
    {
        if self.blocks.len() > u32::MAX as usize {
            return self.find(&*value).ok_or(InternError::Full);
        }
        self.add(value)
    }

    /// Returns the symbol of the value, and puts the value into a block if no equal value is there:
    /// `interner.intern(alloc, a)?`. If an equal value is there, `value` is dropped. O(1) on average; a new value is
    /// hashed twice.
    ///
    /// # Errors
    ///
    /// Returns the errors of `intern_arc`, and `Memory` if the block of a new value cannot be allocated.
    #[tactic(auto, using(crate::proofs::Symbols::known))]
    pub fn intern(&mut self, alloc: Global, value: T) -> Result<Symbol, InternError>
        ensures interned { IfOk result (IsInterned T.eq self.old value self.new) }
        ensures there { IsTrue (list_any (T.eq value) self.old) → IsOk result }
        ensures full { (result ≡ Err InternError.Full)
            ↔ (list_any (T.eq value) self.old ≡ false) × (2 ^ 32 ≤ length self.old) }
        ensures refused { OnErr result (self.new ≡ self.old) }
    {
        match self.place_of(&value)? {
            Some(symbol) => Ok(symbol),
            None => self.add(Arc::try_new(alloc, value)?),
        }
    }

    /// Returns the symbol of the value that the query stands for, and lets the query make the value if none is there:
    /// `interner.intern_by(alloc, "text")?` of an interner of `String`s. O(1) on average; the query is hashed, and a
    /// new value too.
    ///
    /// # Errors
    ///
    /// Returns the errors of `intern`, and `Memory` if the query cannot make the value.
    pub fn intern_by<Q: Make<T>>(&mut self, alloc: Global, query: Q) -> Result<Symbol, InternError>
        ensures interned { IfOk result (IsFoundOrMade T.eq (Q.stands_for query) (Q.makes query self.old)
            self.old self.new) }
        ensures there { IsTrue (list_any (Q.stands_for query) self.old) → IsOk result }
        ensures full { (result ≡ Err InternError.Full)
            ↔ (list_any (Q.stands_for query) self.old ≡ false) × (2 ^ 32 ≤ length self.old) }
        ensures refused { OnErr result (self.new ≡ self.old) }
    {
        match self.place_of(query)? {
            Some(symbol) => Ok(symbol),
            None => {
                let block = query.make(alloc, self.values())?;
                self.add(block)
            }
        }
    }

    // Returns the symbol of the query's value, if that is there. If not, there is a symbol left for it.
    #[tactic(auto, using(crate::proofs::Symbols::any_by_position))]
    fn place_of<Q: Query<T>>(&self, query: Q) -> Result<Option<Symbol>, InternError>
        ensures place { IfOk result (λ place. place ≡ position (Q.stands_for query) self.now) }
        ensures any { IfOk result (λ place. list_any (Q.stands_for query) self.now ≡ is_some place) }
        ensures few { IfOk result (λ place. IfNone place (length self.now < 2 ^ 32)) }
        ensures full { IfErr result (λ refusal. (refusal ≡ InternError.Full)
            × (list_any (Q.stands_for query) self.now ≡ false) × (2 ^ 32 ≤ length self.now)) }
    {
        match self.find(query) {
            None if self.blocks.len() > u32::MAX as usize => Err(InternError::Full),
            place => Ok(place),
        }
    }

    // Interns the value as `intern_arc` does, where a symbol is left.
    fn add(&mut self, value: Arc<T>) -> Result<Symbol, InternError>
        requires { length self.old < 2 ^ 32 }
        ensures interned { IfOk result (IsInterned T.eq self.old value self.new) }
        ensures absent { OnErr result (list_any (T.eq value) self.old ≡ false) }
        ensures refused { OnErr result (self.new ≡ self.old) }
        ensures memory { IfErr result (λ refusal. refusal ≡ InternError.Memory) }
    {
        let (index, _) = self.blocks.insert_full(value)?;
        Ok(Symbol::of(index as u32))
    }
}
