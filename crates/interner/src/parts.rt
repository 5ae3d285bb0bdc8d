//! Queries for a header slice by its header and its items.
ghost use Rattle.std.specs.Prelude.{◌≡◌, ◌&&◌};
ghost use Rattle.std.specs.Cmp.Lexicographic.{pointwise};
ghost use Rattle.interner.specs.Parts.{is_form_of_parts};

use crate::query::{Make, Query};
use handles::arc::Arc;
use handles::header_slice::HeaderSlice;
use std::alloc::{AllocError, Global};
use std::hash::Hash;

impl<H: Eq + Hash, T: Eq + Hash> Query<HeaderSlice<H, T>> for (&H, &[T]) {
    ghost stands_for = { λ parts slice. H.eq parts.0.now slice.header && pointwise T.eq parts.1.now slice.items };

    ghost is_form = { λ parts slice same. is_form_of_parts H.Eq.laws T.Eq.laws (record { fed = H.respects_eq })
        (record { fed = T.respects_eq }) (record { header = parts.0.now; items = parts.1.now }) slice same };

    fn stands_for(&self, slice: &HeaderSlice<H, T>) -> bool {
        *self.0 == slice.header && self.1 == slice.slice()
    }
}

impl<H: Eq + Hash + Copy, T: Eq + Hash + Copy> Make<HeaderSlice<H, T>> for (&H, &[T]) {
    ghost makes = { λ parts _ slice. slice ≡ record { header = parts.0.now; items = parts.1.now } };

    fn make(
        self,
        alloc: Global,
        _slices: &[Arc<HeaderSlice<H, T>>],
    ) -> Result<Arc<HeaderSlice<H, T>>, AllocError> {
        Arc::from_header_and_slice(alloc, *self.0, self.1)
    }
}
