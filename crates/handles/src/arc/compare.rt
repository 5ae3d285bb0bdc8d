//! The traits that a handle has by its value: equality, order, hash and texts.
use super::Arc;
use std::cmp::Ordering;
use std::fmt;
use std::fmt::{Debug, Display, Formatter, Write};
use std::hash::{Hash, Hasher};
use std::ops::Deref;

/// Compares the values, even if both handles have one block.
impl<T: PartialEq> PartialEq for Arc<T> {
    ghost eq = { T.eq };

    ghost laws = { T.laws };

    fn eq(&self, other: &Arc<T>) -> bool {
        **self == **other
    }
}

impl<T: Eq> Eq for Arc<T> {
    ghost laws = { T.Eq.laws };
}

impl<T: PartialOrd> PartialOrd for Arc<T> {
    ghost partial_cmp = { T.partial_cmp };

    ghost laws = { T.PartialOrd.laws };

    fn partial_cmp(&self, other: &Arc<T>) -> Option<Ordering> {
        (**self).partial_cmp(&**other)
    }
}

impl<T: Ord> Ord for Arc<T> {
    ghost cmp = { T.cmp };

    ghost total = { T.total };

    ghost matches_partial_cmp = { T.matches_partial_cmp };

    ghost matches_eq = { T.matches_eq };

    fn cmp(&self, other: &Arc<T>) -> Ordering {
        (**self).cmp(&**other)
    }
}

impl<T: Hash> Hash for Arc<T> {
    ghost hash_input = { T.hash_input };

    ghost respects_eq = { T.respects_eq };

    fn hash<H: Hasher>(&self, state: &mut H) {
        (**self).hash(state)
    }
}

impl<T: Display> Display for Arc<T> {
    ghost output = { T.output };

    ghost styled_output = { T.styled_output };

    fn fmt<W: Write>(&self, f: &mut Formatter<W>) -> fmt::Result {
        Display::fmt(self.deref(), f)
    }
}

impl<T: Debug> Debug for Arc<T> {
    ghost debug_output = { T.debug_output };

    fn fmt<W: Write>(&self, f: &mut Formatter<W>) -> fmt::Result {
        Debug::fmt(self.deref(), f)
    }
}
