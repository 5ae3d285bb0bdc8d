//! The order and the hash of header slices: the header first, then the items, as a derive has them for two fields.
ghost use Rattle.handles.specs.HeaderSlice.Order.{slice_order, slice_partial_order, slice_hash_input};
ghost use Rattle.handles.specs.HeaderSlice.Order.{slices_po, slices_total, slices_agree, slices_tie, slices_hash_alike};

use super::HeaderSlice;
use std::cmp::Ordering;
use std::hash::{Hash, Hasher};

/// Compares the headers, and if these are equal the items in lexicographic order.
impl<H: PartialOrd, T: PartialOrd> PartialOrd for HeaderSlice<H, T> {
    ghost partial_cmp = { slice_partial_order H.partial_cmp T.partial_cmp };

    ghost laws = { slices_po H.PartialOrd.laws T.PartialOrd.laws };

    fn partial_cmp(&self, other: &HeaderSlice<H, T>) -> Option<Ordering> {
        (&self.header, self.slice()).partial_cmp(&(&other.header, other.slice()))
    }
}

/// Compares the headers, and if these are equal the items in lexicographic order.
impl<H: Ord, T: Ord> Ord for HeaderSlice<H, T> {
    ghost cmp = { slice_order H.cmp T.cmp };

    ghost total = { slices_total H.total T.total };

    ghost matches_partial_cmp = { slices_agree H.matches_partial_cmp T.matches_partial_cmp };

    ghost matches_eq = { slices_tie H.cmp T.cmp H.matches_eq T.matches_eq };

    fn cmp(&self, other: &HeaderSlice<H, T>) -> Ordering {
        (&self.header, self.slice()).cmp(&(&other.header, other.slice()))
    }
}

/// Hashes the header, then the items as a slice is hashed.
impl<H: Hash, T: Hash> Hash for HeaderSlice<H, T> {
    ghost hash_input = { slice_hash_input H.hash_input T.hash_input };

    ghost respects_eq = { (slices_hash_alike (record { fed = H.respects_eq }) (record { fed = T.respects_eq })).fed };

    fn hash<S: Hasher>(&self, state: &mut S) {
        self.header.hash(state);
        self.slice().hash(state);
    }
}
