//! The traits that an interner has by its values: equality and a text.
ghost use Rattle.std.specs.Cmp.Lexicographic.{lists_equiv, lists_per, pointwise};

use crate::table::Interner;
use std::fmt;
use std::fmt::{Debug, Formatter, Write};
use std::hash::{BuildHasher, Hash};

/// Compares the values, in the order of their symbols. The hashers may differ.
impl<T: Eq + Hash, S: BuildHasher> PartialEq for Interner<T, S> {
    ghost eq = { pointwise T.eq };

    ghost laws = { lists_per T.PartialEq.laws };

    fn eq(&self, other: &Interner<T, S>) -> bool {
        self.values() == other.values()
    }
}

impl<T: Eq + Hash, S: BuildHasher> Eq for Interner<T, S> {
    ghost laws = { lists_equiv T.Eq.laws };
}

/// Writes the values as a list, in the order of their symbols.
impl<T: Eq + Hash + Debug, S: BuildHasher> Debug for Interner<T, S> {
    fn fmt<W: Write>(&self, f: &mut Formatter<W>) -> fmt::Result {
        f.debug_list().entries(self.values()).finish()
    }
}
