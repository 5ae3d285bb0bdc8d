//! Equality, order, hash and `Debug` of stacks, each as that of the list of items.
ghost use Rattle.std.specs.Cmp.Lexicographic.{lists_agrees, lists_equiv, lists_per, lists_po, lists_ties, lists_total};
ghost use Rattle.std.specs.Cmp.Lexicographic.{pointwise, slice_cmp, slice_partial_cmp};
ghost use Rattle.std.specs.Hash.{items_Alike, slice};

use crate::stack::Stack;
use std::cmp::Ordering;
use std::fmt;
use std::fmt::{Debug, Formatter, Write};
use std::hash::{Hash, Hasher};

/// Compares the items, even if both stacks share their nodes. O(n).
impl<T: PartialEq> PartialEq for Stack<T> {
    ghost eq = { pointwise T.eq };

    ghost laws = { lists_per T.laws };

    fn eq(&self, other: &Stack<T>) -> bool {
        self.len() == other.len() && self.into_iter().eq(other)
    }
}

impl<T: Eq> Eq for Stack<T> {
    ghost laws = { lists_equiv T.Eq.laws };
}

/// Compares as slices of the items do: lexicographically.
impl<T: PartialOrd> PartialOrd for Stack<T> {
    ghost partial_cmp = { slice_partial_cmp T.partial_cmp };

    ghost laws = { lists_po T.PartialOrd.laws };

    fn partial_cmp(&self, other: &Stack<T>) -> Option<Ordering> {
        self.into_iter().partial_cmp(other)
    }
}

impl<T: Ord> Ord for Stack<T> {
    ghost cmp = { slice_cmp T.cmp };

    ghost total = { lists_total T.total };

    ghost matches_partial_cmp = { lists_agrees T.matches_partial_cmp };

    ghost matches_eq = { lists_ties T.cmp T.matches_eq };

    fn cmp(&self, other: &Stack<T>) -> Ordering {
        self.into_iter().cmp(other)
    }
}

/// Hashes as a slice of the items does.
impl<T: Hash> Hash for Stack<T> {
    ghost hash_input = { slice T.hash_input };

    ghost respects_eq = { (items_Alike (record { fed = T.respects_eq })).fed };

    fn hash<H: Hasher>(&self, state: &mut H) {
        state.write_usize(self.len());
        for item in self {
            item.hash(state);
        }
    }
}

/// Formats as a list of the items.
impl<T: Debug> Debug for Stack<T> {
    fn fmt<W: Write>(&self, f: &mut Formatter<W>) -> fmt::Result {
        f.debug_list().entries(self).finish()
    }
}
