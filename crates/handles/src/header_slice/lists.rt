//! The builders that take a slice or a vector.
ghost use Rattle.std.specs.Prelude.{◌≡◌, [], IfOk, OnOk, length};
ghost use Rattle.std.specs.List.{AllZip};
ghost use Rattle.handles.specs.Copies.{CopiesAreEqual};

use super::HeaderSlice;
use crate::arc::Arc;
use std::alloc::{AllocError, Global};

impl<H: Drop, T: Copy> Arc<HeaderSlice<H, T>> {
    /// Builds a header slice from a copy of the items, in O(n): `Arc::from_header_and_slice(alloc, 100, &[5, 6])?`.
    /// For items that are not `Copy`, call `from_header_and_clones`.
    ///
    /// # Errors
    ///
    /// Returns `AllocError` if an allocation fails, and drops the header. At most two allocations are made.
    pub fn from_header_and_slice(
        alloc: Global,
        header: H,
        items: &[T],
    ) -> Result<Arc<HeaderSlice<H, T>>, AllocError>
        ensures { IfOk result (λ slice. slice ≡ record { header = header; items = items.now }) }
    {
        // This iterator yields as many items as it says, so only an allocation can fail.
        let slice = Arc::from_header_and_iter(alloc, header, items.iter().copied());
        slice.map_err(AllocError::from)
    }
}

impl<H: Drop, T: Clone> Arc<HeaderSlice<H, T>> {
    /// Builds a header slice from a clone of each item, in O(n): `Arc::from_header_and_clones(alloc, 5, &items)?`.
    /// The items are cloned in order.
    ///
    /// # Errors
    ///
    /// Returns `AllocError` if an allocation fails, before the first clone, or if a clone fails. The clones made so
    /// far are dropped, then the header. At most two allocations are made, beside those of the clones.
    pub fn from_header_and_clones(
        alloc: Global,
        header: H,
        items: &[T],
    ) -> Result<Arc<HeaderSlice<H, T>>, AllocError>
        ensures header { IfOk result (λ slice. slice.header ≡ header) }
        ensures clones { IfOk result (λ slice. AllZip T.is_clone items.now slice.items) }
        ensures if_clones_equal { IfOk result (λ slice. CopiesAreEqual T.is_clone
            → slice ≡ record { header = header; items = items.now }) }
    {
        Arc::try_from_header_and_iter(alloc, header, items.iter().map(T::clone))
    }
}

impl<H: Drop, T: Drop> Arc<HeaderSlice<H, T>> {
    /// Builds a header slice from the items of a vector, in O(n): `Arc::from_header_and_vec(alloc, 5, items)?`. The
    /// items are moved, and the vector's own memory is freed.
    ///
    /// # Errors
    ///
    /// Returns `AllocError` if an allocation fails, and drops the header and the items. At most two allocations are
    /// made.
    pub fn from_header_and_vec(
        alloc: Global,
        header: H,
        items: Vec<T>,
    ) -> Result<Arc<HeaderSlice<H, T>>, AllocError>
        ensures { IfOk result (λ slice. slice ≡ record { header = header; items = items.items }) }
    {
        Arc::from_header_and_iter(alloc, header, items.into_iter()).map_err(AllocError::from)
    }
}
