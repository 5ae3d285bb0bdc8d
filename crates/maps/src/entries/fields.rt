//! Iteration over the keys or the values of a map.
ghost use Rattle.std.specs.Prelude.{◌≡◌, IfSome, Some, length, ⊤};
ghost use Rattle.std.specs.Iterator.{UpTo, YieldsFirstRef, YieldsLastRef, item_count};
ghost use Rattle.std.specs.Iterator.SizeHint.{IsWithinCount};
ghost use Rattle.std.specs.Map.{keys_of, values_of};
ghost use Rattle.std.specs.Map.Iter.{ShowsInOrder, deref};

use crate::entries::Entries;
use crate::key::Key;
use sequence::{Iter, Label};
use std::alloc::AllocError;
use std::iter::FusedIterator;
use std::marker::Model;

/// A tuple with a field `.N`: an entry `(K, V)` has `.0`, the key, and `.1`, the value.
pub trait Field<const N: usize> {
    type Output;

    ghost field: { Self → Self.Output };

    /// Returns the field `.N`.
    fn field(&self) -> &Self::Output
        ensures { result.now ≡ field self.now };
}

impl<K, V> Field<0> for (K, V) {
    type Output = K;

    ghost field = { λ entry. entry.0 };

    #[inline(always)]
    fn field(&self) -> &K {
        &self.0
    }
}

impl<K, V> Field<1> for (K, V) {
    type Output = V;

    ghost field = { λ entry. entry.1 };

    #[inline(always)]
    fn field(&self) -> &V {
        &self.1
    }
}

/// An iterator over the field `.N` of each entry of a map, in ascending order of the keys: `Keys` or `Values`.
#[derive(Drop)]
pub struct Fields<'a, T: Field<N>, L: Label<T>, const N: usize>
where
    T::Output: 'a,
{
    entries: Iter<'a, T, L>,
}

/// An iterator over the keys of a map in ascending order: `for key in map.keys() { .. }`.
pub type Keys<'a, K, V> = Fields<'a, (K, V), Key<K>, 0>;

/// An iterator over the values of a map in ascending order of the keys: `for value in map.values() { .. }`.
pub type Values<'a, K, V> = Fields<'a, (K, V), Key<K>, 1>;

impl<'a, T: Field<N>, L: Label<T>, const N: usize> Model for Fields<'a, T, L, N> {
    ghost use Rattle.std.specs.Prelude.{List, map};

    ghost Value = { List T.Output };

    ghost view = { λ fields. map T.field fields.entries };
}

impl<K: Ord, V> Entries<K, V> {
    /// Returns an iterator over the keys in ascending order, whose steps cost the same as those of `iter`:
    /// `map.keys()`.
    pub fn keys(&self) -> Keys<'_, K, V>
        ensures { result ≡ keys_of self.now }
    {
        Fields {
            entries: self.iter(),
        }
    }

    /// Returns an iterator over the values in ascending order of the keys, whose steps cost the same as those of
    /// `iter`: `map.values()`.
    pub fn values(&self) -> Values<'_, K, V>
        ensures values { result ≡ values_of self.now }
        ensures runs { ShowsInOrder (deref {X = V}) }
    {
        Fields {
            entries: self.iter(),
        }
    }
}

impl<'a, T: Field<N>, L: Label<T>, const N: usize> Iterator for Fields<'a, T, L, N> {
    type Item = &'a T::Output;

    ghost next_gives = { YieldsFirstRef (λ s. s) };

    ghost remaining = { item_count (λ s. s) };

    #[inline]
    fn next(&mut self) -> Option<&'a T::Output> {
        Some(self.entries.next()?.field())
    }

    fn size_hint(&self) -> (usize, Option<usize>)
        ensures lower { IsWithinCount result.0 (item_count (λ s. s) self.now) }
        ensures upper { IfSome result.1 (UpTo (item_count (λ s. s) self.now)) }
        ensures exact { result ≡ (length self.now, Some (length self.now)) }
    {
        self.entries.size_hint()
    }
}

impl<'a, T: Field<N>, L: Label<T>, const N: usize> DoubleEndedIterator for Fields<'a, T, L, N> {
    ghost next_back_gives = { YieldsLastRef (λ s. s) };

    fn next_back(&mut self) -> Option<&'a T::Output> {
        Some(self.entries.next_back()?.field())
    }
}

impl<'a, T: Field<N>, L: Label<T>, const N: usize> ExactSizeIterator for Fields<'a, T, L, N> {
    fn len(&self) -> usize {
        self.entries.len()
    }
}

impl<'a, T: Field<N>, L: Label<T>, const N: usize> FusedIterator for Fields<'a, T, L, N> {}

impl<'a, T: Field<N>, L: Label<T>, const N: usize> Clone for Fields<'a, T, L, N> {
    ghost is_clone = { λ s r. r ≡ s };

    ghost is_infallible = { λ _. ⊤ };

    fn clone(&self) -> Result<Fields<'a, T, L, N>, AllocError> {
        Ok(Fields {
            entries: self.entries.clone()?,
        })
    }
}
