//! A query for a value, as a query for the block of that value.
use crate::query::Query;
use handles::arc::Arc;
use indexmap::Equivalent;
use std::hash::Hash;

#[derive(Clone, Copy, PartialEq, Eq, Hash)]
pub(crate) struct Asked<Q>(pub(crate) Q);

impl<T: Eq + Hash, Q: Query<T>> Equivalent<Arc<T>> for Asked<Q> {
    ghost equivalent = { λ asked. Q.stands_for asked.0 };

    ghost respects_hash = { λ asked value same. (Q.is_form asked.0 value same).hashed };

    ghost respects_eq = { λ asked value other same. (Q.is_form asked.0 value same).equal other };

    #[inline]
    fn equivalent(&self, value: &Arc<T>) -> bool {
        self.0.stands_for(&**value)
    }
}
