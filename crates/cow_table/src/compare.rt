//! The traits that a table has by its items: equality and a text.
ghost use Rattle.std.specs.Cmp.Lexicographic.{lists_equiv, lists_per, pointwise};

use crate::table::CowTable;
use std::fmt;
use std::fmt::{Debug, Formatter, Write};

/// Compares the items, in O(n), even if both tables share their pages.
impl<T: PartialEq> PartialEq for CowTable<T> {
    ghost eq = { pointwise T.eq };

    ghost laws = { lists_per T.laws };

    fn eq(&self, other: &CowTable<T>) -> bool {
        if self.len() != other.len() {
            return false;
        }
        for i in 0..self.len() {
            if self[i] != other[i] {
                return false;
            }
        }
        true
    }
}

impl<T: Eq> Eq for CowTable<T> {
    ghost laws = { lists_equiv T.Eq.laws };
}

/// Writes the items as a list.
impl<T: Debug> Debug for CowTable<T> {
    fn fmt<W: Write>(&self, f: &mut Formatter<W>) -> fmt::Result {
        let mut list = f.debug_list();
        for i in 0..self.len() {
            list.entry(&self[i]);
        }
        list.finish()
    }
}
