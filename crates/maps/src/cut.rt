//! The partition points of a query among the entries of a map.
ghost use Rattle.std.specs.Prelude.{not};
ghost use Rattle.std.specs.Ordering.{is_eq, is_gt, is_lt};

use crate::key::Key;
use crate::query::Query;
use sequence::{Cut, Seek};

/// The entries whose keys are at or below the query are before this cut.
#[derive(Drop)]
pub(crate) struct UpTo<Q> {
    pub(crate) query: Q,
}

/// The entries whose keys are below the query are before this cut.
#[derive(Drop)]
pub(crate) struct Below<Q> {
    pub(crate) query: Q,
}

impl<K: Ord, V, Q: Query<K>> Cut<(K, V), Key<K>> for UpTo<Q> {
    ghost is_before = { λ cut entry. not (is_lt (Q.order cut.query entry.0)) };

    #[inline(always)]
    fn item(&self, entry: &(K, V)) -> bool {
        !self.query.order(&entry.0).is_lt()
    }

    #[inline(always)]
    fn label(&self, label: &Key<K>) -> bool {
        !self.query.order(&label.key).is_lt()
    }
}

impl<K: Ord, V, Q: Query<K>> Seek<(K, V), Key<K>> for UpTo<Q> {
    ghost is_sought = { λ cut entry. is_eq (Q.order cut.query entry.0) };

    #[inline(always)]
    fn is_sought(&self, entry: &(K, V)) -> bool {
        self.query.order(&entry.0).is_eq()
    }
}

impl<K: Ord, V, Q: Query<K>> Cut<(K, V), Key<K>> for Below<Q> {
    ghost is_before = { λ cut entry. is_gt (Q.order cut.query entry.0) };

    #[inline(always)]
    fn item(&self, entry: &(K, V)) -> bool {
        self.query.order(&entry.0).is_gt()
    }

    #[inline(always)]
    fn label(&self, label: &Key<K>) -> bool {
        self.query.order(&label.key).is_gt()
    }
}
