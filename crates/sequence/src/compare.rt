//! Equality, order, hash and `Debug` of a list, each as that of a slice of its items, and the empty list by default.
ghost use Rattle.std.specs.Prelude.{◌≡◌, []};
ghost use Rattle.std.specs.Cmp.Lexicographic.{lists_agrees, lists_equiv, lists_per, lists_po, lists_ties, lists_total};
ghost use Rattle.std.specs.Cmp.Lexicographic.{pointwise, slice_cmp, slice_partial_cmp};
ghost use Rattle.std.specs.Hash.{items_Alike, slice};

use crate::label::Label;
use crate::labelled::LabelledSequence;
use std::cmp::Ordering;
use std::fmt;
use std::fmt::{Debug, Formatter, Write};
use std::hash::{Hash, Hasher};

/// Compares the items, even if both lists share their nodes. O(n).
impl<T: PartialEq, L: Label<T>> PartialEq for LabelledSequence<T, L> {
    ghost eq = { pointwise T.eq };

    ghost laws = { lists_per T.laws };

    fn eq(&self, other: &LabelledSequence<T, L>) -> bool {
        self.len() == other.len() && self.into_iter().eq(other)
    }
}

impl<T: Eq, L: Label<T>> Eq for LabelledSequence<T, L> {
    ghost laws = { lists_equiv T.Eq.laws };
}

/// Compares as slices of the items do: lexicographically.
impl<T: PartialOrd, L: Label<T>> PartialOrd for LabelledSequence<T, L> {
    ghost partial_cmp = { slice_partial_cmp T.partial_cmp };

    ghost laws = { lists_po T.PartialOrd.laws };

    fn partial_cmp(&self, other: &LabelledSequence<T, L>) -> Option<Ordering> {
        self.into_iter().partial_cmp(other)
    }
}

impl<T: Ord, L: Label<T>> Ord for LabelledSequence<T, L> {
    ghost cmp = { slice_cmp T.cmp };

    ghost total = { lists_total T.total };

    ghost matches_partial_cmp = { lists_agrees T.matches_partial_cmp };

    ghost matches_eq = { lists_ties T.cmp T.matches_eq };

    fn cmp(&self, other: &LabelledSequence<T, L>) -> Ordering {
        self.into_iter().cmp(other)
    }
}

/// Hashes as a slice of the items does.
impl<T: Hash, L: Label<T>> Hash for LabelledSequence<T, L> {
    ghost hash_input = { slice T.hash_input };

    ghost respects_eq = { (items_Alike (record { fed = T.respects_eq })).fed };

    fn hash<H: Hasher>(&self, state: &mut H) {
        state.write_usize(self.len());
        for item in self {
            item.hash(state);
        }
    }
}

/// Formats as a list of the items.
impl<T: Debug, L: Label<T>> Debug for LabelledSequence<T, L> {
    fn fmt<W: Write>(&self, f: &mut Formatter<W>) -> fmt::Result {
        f.debug_list().entries(self).finish()
    }
}

/// Creates an empty list, as `LabelledSequence::empty` does.
impl<T, L: Label<T>> Default for LabelledSequence<T, L> {
    ghost is_default = { λ list. list ≡ [] };

    fn default() -> LabelledSequence<T, L> {
        LabelledSequence::empty()
    }
}
