//! Equality, order, hash and `Debug` of the map, each as that of its entries.
ghost use Rattle.std.specs.Prelude.{◌&&◌, ◌++◌};
ghost use Rattle.std.specs.Cmp.{and_equiv, and_per, both_tied, on_equiv, on_per, on_po, on_total};
ghost use Rattle.std.specs.Cmp.{then_agrees, then_po, then_total};
ghost use Rattle.std.specs.Cmp.Lexicographic.{lists_agrees, lists_equiv, lists_per, lists_po, lists_ties, lists_total};
ghost use Rattle.std.specs.Cmp.Lexicographic.{pointwise, slice_cmp, slice_partial_cmp};
ghost use Rattle.std.specs.Hash.{and-Alike, items_Alike, on_Alike, slice};
ghost use Rattle.std.specs.Ordering.{ordering_then, partial_ordering_then};

use super::TreeMap;
use std::cmp::Ordering;
use std::fmt;
use std::fmt::{Debug, Formatter, Write};
use std::hash::{Hash, Hasher};
use std::ops::Deref;

/// Compares the entries, even if both maps share their nodes. O(n).
impl<K: Ord, V: PartialEq> PartialEq for TreeMap<K, V> {
    ghost eq = { pointwise (λ e f. K.eq e.0 f.0 && V.eq e.1 f.1) };

    ghost laws = { lists_per (and_per (on_per (λ e. e.0) K.PartialEq.laws) (on_per (λ e. e.1) V.laws)) };

    fn eq(&self, other: &TreeMap<K, V>) -> bool {
        self.deref().entries == other.deref().entries
    }
}

impl<K: Ord, V: Eq> Eq for TreeMap<K, V> {
    ghost laws = { lists_equiv (and_equiv (on_equiv (λ e. e.0) K.Eq.laws)
        (on_equiv (λ e. e.1) V.Eq.laws)) };
}

/// Compares as slices of the entries do: lexicographically, and each entry by its key and then by its value.
impl<K: Ord, V: PartialOrd> PartialOrd for TreeMap<K, V> {
    ghost partial_cmp = { slice_partial_cmp (λ e f. partial_ordering_then (K.partial_cmp e.0 f.0)
        (V.partial_cmp e.1 f.1)) };

    ghost laws = { lists_po (then_po (on_po (λ e. e.0) K.PartialOrd.laws) (on_po (λ e. e.1) V.PartialOrd.laws)) };

    fn partial_cmp(&self, other: &TreeMap<K, V>) -> Option<Ordering> {
        self.deref().entries.partial_cmp(&other.deref().entries)
    }
}

impl<K: Ord, V: Ord> Ord for TreeMap<K, V> {
    ghost cmp = { slice_cmp (λ e f. ordering_then (K.cmp e.0 f.0) (V.cmp e.1 f.1)) };

    ghost total = { lists_total (then_total (on_total (λ e. e.0) K.total) (on_total (λ e. e.1) V.total)) };

    ghost matches_partial_cmp = { lists_agrees (then_agrees (λ e f. K.matches_partial_cmp e.0 f.0)
        (λ e f. V.matches_partial_cmp e.1 f.1)) };

    ghost matches_eq = { let K' = K.cmp in
        let V' = V.cmp in
        lists_ties (λ e f. ordering_then (K' e.0 f.0) (V' e.1 f.1)) (λ e f. both_tied _ _ (K' e.0 f.0) (V' e.1 f.1)
        (K.matches_eq e.0 f.0) (V.matches_eq e.1 f.1)) };

    fn cmp(&self, other: &TreeMap<K, V>) -> Ordering {
        self.deref().entries.cmp(&other.deref().entries)
    }
}

/// Hashes as a slice of the entries does.
impl<K: Ord + Hash, V: Hash> Hash for TreeMap<K, V> {
    ghost hash_input = { slice (λ e. K.hash_input e.0 ++ V.hash_input e.1) };

    ghost respects_eq = { (items_Alike (and-Alike (on_Alike (λ e. e.0) (record { fed = K.respects_eq }))
        (on_Alike (λ e. e.1) (record { fed = V.respects_eq })))).fed };

    fn hash<H: Hasher>(&self, state: &mut H) {
        self.deref().entries.hash(state);
    }
}

/// Formats as a map of the entries.
impl<K: Ord + Debug, V: Debug> Debug for TreeMap<K, V> {
    fn fmt<W: Write>(&self, f: &mut Formatter<W>) -> fmt::Result {
        let mut out = f.debug_map();
        for (key, value) in self {
            out.entry(key, value);
        }
        out.finish()
    }
}
