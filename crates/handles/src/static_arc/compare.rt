//! The traits that a handle has by its value: equality, order, hash and texts.
use super::StaticArc;
use std::cmp::Ordering;
use std::fmt;
use std::fmt::{Debug, Display, Formatter, Write};
use std::hash::{Hash, Hasher};
use std::ops::Deref;

/// Compares the values, even if both handles have one block.
impl<T: PartialEq> PartialEq for StaticArc<'_, T> {
    ghost use Rattle.std.specs.Cmp.{on_per};
    ghost use Rattle.handles.specs.Stays.{value_of};

    ghost eq = { λ x y. T.eq (value_of x) (value_of y) };

    ghost laws = { on_per value_of T.laws };

    fn eq(&self, other: &Self) -> bool {
        **self == **other
    }
}

impl<T: Eq> Eq for StaticArc<'_, T> {
    ghost use Rattle.std.specs.Cmp.{on_equiv};
    ghost use Rattle.handles.specs.Stays.{value_of};

    ghost laws = { on_equiv value_of T.Eq.laws };
}

impl<T: PartialOrd> PartialOrd for StaticArc<'_, T> {
    ghost use Rattle.std.specs.Cmp.{on_po};
    ghost use Rattle.handles.specs.Stays.{value_of};

    ghost partial_cmp = { λ x y. T.partial_cmp (value_of x) (value_of y) };

    ghost laws = { on_po value_of T.PartialOrd.laws };

    fn partial_cmp(&self, other: &Self) -> Option<Ordering> {
        (**self).partial_cmp(&**other)
    }
}

impl<T: Ord> Ord for StaticArc<'_, T> {
    ghost use Rattle.std.specs.Cmp.{on_total};
    ghost use Rattle.handles.specs.Stays.{value_of};

    ghost cmp = { λ x y. T.cmp (value_of x) (value_of y) };

    ghost total = { on_total value_of T.total };

    ghost matches_partial_cmp = { λ x y. T.matches_partial_cmp (value_of x) (value_of y) };

    ghost matches_eq = { λ x y. T.matches_eq (value_of x) (value_of y) };

    fn cmp(&self, other: &Self) -> Ordering {
        (**self).cmp(&**other)
    }
}

impl<T: Hash> Hash for StaticArc<'_, T> {
    ghost use Rattle.handles.specs.Stays.{value_of};

    ghost hash_input = { λ s. T.hash_input (value_of s) };

    ghost respects_eq = { λ x y. T.respects_eq (value_of x) (value_of y) };

    fn hash<H: Hasher>(&self, state: &mut H) {
        (**self).hash(state)
    }
}

impl<T: Display> Display for StaticArc<'_, T> {
    ghost use Rattle.handles.specs.Stays.{value_of};

    ghost output = { λ s. T.output (value_of s) };

    ghost styled_output = { λ s. T.styled_output (value_of s) };

    fn fmt<W: Write>(&self, f: &mut Formatter<W>) -> fmt::Result {
        Display::fmt(self.deref(), f)
    }
}

impl<T: Debug> Debug for StaticArc<'_, T> {
    ghost use Rattle.handles.specs.Stays.{value_of};

    ghost debug_output = { λ s. T.debug_output (value_of s) };

    fn fmt<W: Write>(&self, f: &mut Formatter<W>) -> fmt::Result {
        Debug::fmt(self.deref(), f)
    }
}
