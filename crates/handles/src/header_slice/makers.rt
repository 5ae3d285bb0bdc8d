//! The builders that take an iterator, and writing to a header slice before it is shared.
ghost use Rattle.std.specs.Prelude.{◌≡◌};
ghost use Rattle.std.specs.Iterator.{size};
ghost use Rattle.std.specs.Borrow.{sem};
ghost use Rattle.handles.specs.HeaderSlice.Builders.{Builds};
ghost use Rattle.handles.specs.HeaderSlice.TryBuilders.{BuildsGood};

use super::HeaderSlice;
use super::build::{BuildError, build};
use crate::arc::Arc;
use crate::unique::UniqueArc;
use std::alloc::Global;
use std::ops::DerefMut;

impl<H: Drop, T: Drop> Arc<HeaderSlice<H, T>> {
    /// Builds a header slice from as many items as `items.len()` says, in O(n):
    /// `Arc::from_header_and_iter(alloc, 5, items.into_iter())?`. `len` is called once.
    ///
    /// # Errors
    ///
    /// Returns the errors of `from_header_and_iter_with_size`.
    pub fn from_header_and_iter<I: Iterator<Item = T> + ExactSizeIterator>(
        alloc: Global,
        header: H,
        items: I,
    ) -> Result<Arc<HeaderSlice<H, T>>, BuildError>
        requires { I.can_next items }
        ensures { Builds I.next_gives items (size (I.remaining items)) header result }
    {
        let num_items = items.len();
        Arc::from_header_and_iter_with_size(alloc, header, items, num_items)
    }

    /// Builds a header slice from `num_items` items, in O(n):
    /// `Arc::from_header_and_iter_with_size(alloc, 5, items.into_iter(), 1)?`.
    ///
    /// All requests for memory are made before `next` is called: one for the block, and one for the items unless they
    /// take no bytes. `next` is called at most `num_items + 1` times, and not after a `None`.
    ///
    /// # Errors
    ///
    /// Returns `Memory` if an allocation fails, `OverReported` if the iterator yields fewer than `num_items` items,
    /// and `UnderReported` if it yields more.
    pub fn from_header_and_iter_with_size<I: Iterator<Item = T>>(
        alloc: Global,
        header: H,
        items: I,
        num_items: usize,
    ) -> Result<Arc<HeaderSlice<H, T>>, BuildError>
        requires { I.can_next items }
        ensures { Builds I.next_gives items num_items header result }
    {
        Arc::from_header_and_iter_alloc(alloc, header, items, num_items, false)
    }

    /// Builds a header slice as `from_header_and_iter_with_size` does, in a static block if `is_static`:
    /// `Arc::from_header_and_iter_alloc(alloc, 5, items.into_iter(), 1, true)?`. A static block is never freed, and
    /// its value is never dropped.
    ///
    /// # Errors
    ///
    /// Returns the errors of `from_header_and_iter_with_size`.
    pub fn from_header_and_iter_alloc<I: Iterator<Item = T>>(
        alloc: Global,
        header: H,
        items: I,
        num_items: usize,
        is_static: bool,
    ) -> Result<Arc<HeaderSlice<H, T>>, BuildError>
        requires { I.can_next items }
        ensures { Builds I.next_gives items num_items header result }
    {
        let slice = UniqueArc::from_header_and_iter_with_size(alloc, header, items, num_items);
        Ok(slice?.into_arc(is_static))
    }

    /// Builds a header slice from as many results as `items.len()` says, or returns the first error among them:
    /// `Arc::try_from_header_and_iter(alloc, 1, results)?`.
    ///
    /// # Errors
    ///
    /// Returns the first error that the iterator yields, and calls `next` no more: the items taken so far and the
    /// header are dropped. Returns a `BuildError`, converted to that type, as `from_header_and_iter_with_size` does;
    /// one result too many is `UnderReported`, be it an error or not.
    pub fn try_from_header_and_iter<
        E: From<BuildError> + Drop,
        I: Iterator<Item = Result<T, E>> + ExactSizeIterator,
    >(alloc: Global, header: H, items: I) -> Result<Arc<HeaderSlice<H, T>>, E>
        requires { I.can_next items }
        ensures { BuildsGood I.next_gives items (size (I.remaining items)) E.from_gives header result }
    {
        UniqueArc::try_from_header_and_iter(alloc, header, items).map(UniqueArc::shareable)
    }
}

impl<H: Drop, T: Drop> UniqueArc<HeaderSlice<H, T>> {
    /// Builds a header slice to write to, as `Arc::from_header_and_iter` does:
    /// `UniqueArc::from_header_and_iter(alloc, 5, items.into_iter())?`.
    ///
    /// # Errors
    ///
    /// Returns the errors of `Arc::from_header_and_iter_with_size`.
    pub fn from_header_and_iter<I: Iterator<Item = T> + ExactSizeIterator>(
        alloc: Global,
        header: H,
        items: I,
    ) -> Result<UniqueArc<HeaderSlice<H, T>>, BuildError>
        requires { I.can_next items }
        ensures { Builds I.next_gives items (size (I.remaining items)) header result }
    {
        let num_items = items.len();
        UniqueArc::from_header_and_iter_with_size(alloc, header, items, num_items)
    }

    /// Builds a header slice to write to, as `Arc::from_header_and_iter_with_size` does.
    ///
    /// # Errors
    ///
    /// Returns the errors of `Arc::from_header_and_iter_with_size`.
    pub fn from_header_and_iter_with_size<I: Iterator<Item = T>>(
        alloc: Global,
        header: H,
        items: I,
        num_items: usize,
    ) -> Result<UniqueArc<HeaderSlice<H, T>>, BuildError>
        requires { I.can_next items }
        ensures { Builds I.next_gives items num_items header result }
    {
        let mut results = items.map(Ok::<T, BuildError>);
        build(alloc, header, &mut results, num_items)
    }

    /// Builds a header slice to write to, as `Arc::try_from_header_and_iter` does.
    ///
    /// # Errors
    ///
    /// Returns the errors of `Arc::try_from_header_and_iter`.
    pub fn try_from_header_and_iter<
        E: From<BuildError> + Drop,
        I: Iterator<Item = Result<T, E>> + ExactSizeIterator,
    >(alloc: Global, header: H, mut items: I) -> Result<UniqueArc<HeaderSlice<H, T>>, E>
        requires { I.can_next items }
        ensures { BuildsGood I.next_gives items (size (I.remaining items)) E.from_gives header result }
    {
        let num_items = items.len();
        build(alloc, header, &mut items, num_items)
    }
}

impl<H, T> UniqueArc<HeaderSlice<H, T>> {
    ghost use Rattle.handles.specs.HeaderSlice.UniqueLending.{LendsUniqueHeader, LendsUniqueItems};

    /// Returns the header to write to: `*unique.header_mut() = 3`.
    #[inline]
    pub fn header_mut(&mut self) -> &mut H
        ensures* writes_back { sem 𝓛 (LendsUniqueHeader H.row T.row self.entry result) }
        ensures value { result.now ≡ self.old.header }
    {
        let slice = self.deref_mut();
        &mut slice.header
    }

    /// Returns the items to write to: `unique.data_mut().get_mut(1)`. Their number stays.
    #[inline]
    pub fn data_mut(&mut self) -> &mut [T]
        ensures* writes_back { sem 𝓛 (LendsUniqueItems H.row T.row self.entry result) }
        ensures value { result.now ≡ self.old.items }
    {
        self.deref_mut().slice_mut()
    }
}
