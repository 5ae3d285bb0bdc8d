//! The traits that a handle has by its value: equality and texts.
use super::UniqueArc;
use std::fmt;
use std::fmt::{Debug, Display, Formatter, Write};
use std::ops::Deref;

/// Compares the values.
impl<T: PartialEq> PartialEq for UniqueArc<T> {
    ghost eq = { T.eq };

    ghost laws = { T.laws };

    fn eq(&self, other: &UniqueArc<T>) -> bool {
        **self == **other
    }
}

impl<T: Eq> Eq for UniqueArc<T> {
    ghost laws = { T.Eq.laws };
}

impl<T: Display> Display for UniqueArc<T> {
    ghost output = { T.output };

    ghost styled_output = { T.styled_output };

    fn fmt<W: Write>(&self, f: &mut Formatter<W>) -> fmt::Result {
        Display::fmt(self.deref(), f)
    }
}

impl<T: Debug> Debug for UniqueArc<T> {
    ghost debug_output = { T.debug_output };

    fn fmt<W: Write>(&self, f: &mut Formatter<W>) -> fmt::Result {
        Debug::fmt(self.deref(), f)
    }
}
