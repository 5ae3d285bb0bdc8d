//! An entry that is inserted into a map.
ghost use Rattle.std.specs.Prelude.{not};
ghost use Rattle.std.specs.Ordering.{is_eq, is_lt};

use crate::key::Key;
use sequence::{Cut, Put, Seek};
use std::mem;

/// A new entry. It is inserted behind the entries with lesser keys, or its value replaces that of an equal key.
#[derive(Drop)]
pub(crate) struct Entry<K, V> {
    pub(crate) key: K,
    pub(crate) value: V,
}

impl<K: Ord, V> Cut<(K, V), Key<K>> for Entry<K, V> {
    ghost is_before = { λ new entry. not (is_lt (K.cmp new.key entry.0)) };

    #[inline(always)]
    fn item(&self, entry: &(K, V)) -> bool {
        !self.key.cmp(&entry.0).is_lt()
    }

    #[inline(always)]
    fn label(&self, label: &Key<K>) -> bool {
        !self.key.cmp(&label.key).is_lt()
    }
}

impl<K: Ord, V> Seek<(K, V), Key<K>> for Entry<K, V> {
    ghost is_sought = { λ new entry. is_eq (K.cmp new.key entry.0) };

    #[inline(always)]
    fn is_sought(&self, entry: &(K, V)) -> bool {
        self.key.cmp(&entry.0).is_eq()
    }
}

impl<K: Ord + Drop, V: Drop> Put<(K, V), Key<K>> for Entry<K, V> {
    type Old = V;

    ghost made = { λ new. (new.key, new.value) };

    ghost replaced = { λ new entry. (entry.0, new.value) };

    ghost put_out = { λ entry. entry.1 };

    #[inline(always)]
    fn into_item(self) -> (K, V) {
        (self.key, self.value)
    }

    #[inline(always)]
    fn replace(self, entry: &mut (K, V)) -> V {
        mem::replace(&mut entry.1, self.value)
    }
}
