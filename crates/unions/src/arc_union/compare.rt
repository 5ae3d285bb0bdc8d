//! The traits that a union has by its variant and its value: equality, order, hash and texts.
ghost use Rattle.unions.specs.Unions.{union_eq, union_partial_cmp, union_cmp, union_hash_input};
ghost use Rattle.unions.specs.UnionLaws.{union_eq_per, union_eq_equiv, union_po, union_agrees, union_total};
ghost use Rattle.unions.specs.UnionLaws.{union_ties, union_respects_eq};

use super::{ArcUnion, EitherArc};
use std::cmp::Ordering;
use std::fmt;
use std::fmt::{Debug, Formatter, Write};
use std::hash::{Hash, Hasher};

/// Compares the values, if both are the same variant. Different variants are not equal.
impl<A: PartialEq, B: PartialEq> PartialEq for ArcUnion<A, B> {
    ghost eq = { union_eq A.eq B.eq };

    ghost laws = { union_eq_per A.laws B.laws };

    fn eq(&self, other: &ArcUnion<A, B>) -> bool {
        match (&self.handle, &other.handle) {
            (EitherArc::First(a), EitherArc::First(b)) => a == b,
            (EitherArc::Second(a), EitherArc::Second(b)) => a == b,
            _ => false,
        }
    }
}

impl<A: Eq, B: Eq> Eq for ArcUnion<A, B> {
    ghost laws = { union_eq_equiv A.Eq.laws B.Eq.laws };
}

/// Compares the values, if both are the same variant. The first variant is less than the second.
impl<A: PartialOrd, B: PartialOrd> PartialOrd for ArcUnion<A, B> {
    ghost partial_cmp = { union_partial_cmp A.partial_cmp B.partial_cmp };

    ghost laws = { union_po A.PartialOrd.laws B.PartialOrd.laws };

    fn partial_cmp(&self, other: &ArcUnion<A, B>) -> Option<Ordering> {
        match (&self.handle, &other.handle) {
            (EitherArc::First(a), EitherArc::First(b)) => a.partial_cmp(b),
            (EitherArc::First(_), EitherArc::Second(_)) => Some(Ordering::Less),
            (EitherArc::Second(_), EitherArc::First(_)) => Some(Ordering::Greater),
            (EitherArc::Second(a), EitherArc::Second(b)) => a.partial_cmp(b),
        }
    }
}

impl<A: Ord, B: Ord> Ord for ArcUnion<A, B> {
    ghost cmp = { union_cmp A.cmp B.cmp };

    ghost total = { union_total A.PartialOrd.laws B.PartialOrd.laws A.matches_partial_cmp B.matches_partial_cmp };

    ghost matches_partial_cmp = { union_agrees A.matches_partial_cmp B.matches_partial_cmp };

    ghost matches_eq = { union_ties A.PartialOrd.laws B.PartialOrd.laws A.matches_partial_cmp B.matches_partial_cmp };

    fn cmp(&self, other: &ArcUnion<A, B>) -> Ordering {
        match (&self.handle, &other.handle) {
            (EitherArc::First(a), EitherArc::First(b)) => a.cmp(b),
            (EitherArc::First(_), EitherArc::Second(_)) => Ordering::Less,
            (EitherArc::Second(_), EitherArc::First(_)) => Ordering::Greater,
            (EitherArc::Second(a), EitherArc::Second(b)) => a.cmp(b),
        }
    }
}

/// Hashes the number of the variant, as a derived hash of an enum begins, and then the value.
impl<A: Hash, B: Hash> Hash for ArcUnion<A, B> {
    ghost hash_input = { union_hash_input A.hash_input B.hash_input };

    ghost respects_eq = { union_respects_eq A.respects_eq B.respects_eq };

    fn hash<H: Hasher>(&self, state: &mut H) {
        match &self.handle {
            EitherArc::First(handle) => {
                state.write_isize(0);
                handle.hash(state);
            }
            EitherArc::Second(handle) => {
                state.write_isize(1);
                handle.hash(state);
            }
        }
    }
}

impl<A: Debug, B: Debug> Debug for ArcUnion<A, B> {
    fn fmt<W: Write>(&self, f: &mut Formatter<W>) -> fmt::Result {
        Debug::fmt(&self.borrow(), f)
    }
}
