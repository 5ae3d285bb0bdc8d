//! How a header slice takes its items from an iterator, and the error of its builders.
ghost use Rattle.std.specs.Prelude.{◌≡◌, [], IfOk, IfErr};
ghost use Rattle.handles.specs.HeaderSlice.TryBuilders.{IsBuiltGoodUpTo, TakesGoodUpTo, FailsUpTo};
ghost use Rattle.handles.specs.declared.header_slice.build.BuildError.TheVariants.{Memory};

use super::HeaderSlice;
use super::items::Items;
use crate::unique::UniqueArc;
use std::alloc::{AllocError, AllocFailed, Global};
use thiserror::Error;

/// The error of the builders of header slices, as `Arc::from_header_and_iter(alloc, 5, items)?`.
///
/// The items that were taken are dropped in order, then the header. The iterator is dropped too.
#[derive(Clone, Copy, Debug, PartialEq, Eq, Error)]
pub enum BuildError {
    /// An allocation failed, or the items would take more bytes than one allocation can have. `next` was not called.
    #[error("out of memory")]
    Memory,
    /// The iterator yielded fewer items than its length, or than `num_items`.
    #[error("ExactSizeIterator over-reported length")]
    OverReported,
    /// The iterator yielded more items than its length, or than `num_items`.
    #[error("ExactSizeIterator under-reported length")]
    UnderReported,
}

impl From<AllocError> for BuildError {
    ghost from_gives = { λ _ refusal. refusal ≡ Memory };

    fn from(_error: AllocError) -> BuildError {
        BuildError::Memory
    }
}

/// Converts the error of a `push` or of a constructor to `Memory`, for `?`. The value in that error is dropped.
impl<T: Drop> From<AllocFailed<T>> for BuildError {
    ghost from_gives = { λ _ refusal. refusal ≡ Memory };

    fn from(_refusal: AllocFailed<T>) -> BuildError {
        BuildError::Memory
    }
}

/// Converts each of the errors to `AllocError`, for a caller that can only fail for memory. Where an iterator may be
/// wrong about its length, keep the `BuildError`, which says more.
impl From<BuildError> for AllocError {
    fn from(_refusal: BuildError) -> AllocError {
        AllocError
    }
}

// Makes all requests for memory before it calls the source. An error of either drops what was taken, then the header.
pub(super) fn build<H: Drop, T: Drop, E: From<BuildError> + Drop, I: Iterator<Item = Result<T, E>>>(
    alloc: Global,
    header: H,
    source: &mut I,
    number: usize,
) -> Result<UniqueArc<HeaderSlice<H, T>>, E>
    requires { I.can_next source.old }
    ensures built { IfOk result (IsBuiltGoodUpTo I.next_gives source.old number source.new header) }
    ensures failed { IfErr result (FailsUpTo I.next_gives source.old number E.from_gives source.new) }
{
    if let Ok(items) = Items::with_room(alloc, number)
        && let Ok(block) = UniqueArc::new_uninit(alloc)
    {
        let items = items.take_all(source, number)?;
        return Ok(block.write(HeaderSlice { header, items }));
    }
    Err(E::from(BuildError::Memory))
}

impl<T: Drop> Items<T> {
    // Calls `next` until every place is filled and then once more, or until `None` or an error.
    fn take_all<E: From<BuildError> + Drop, I: Iterator<Item = Result<T, E>>>(
        mut self,
        source: &mut I,
        number: usize,
    ) -> Result<Items<T>, E>
        requires can_next { I.can_next source.old }
        requires empty { self.items ≡ [] }
        requires room { self.room ≡ number }
        ensures taken { IfOk result (TakesGoodUpTo I.next_gives source.old number source.new) }
        ensures failed { IfErr result (FailsUpTo I.next_gives source.old number E.from_gives source.new) }
    {
        while self.len() < number {
            match source.next() {
                Some(Ok(item)) => self.push(item),
                Some(Err(error)) => return Err(error),
                None => return Err(E::from(BuildError::OverReported)),
            }
        }
        let Some(extra) = source.next() else {
            return Ok(self);
        };
        drop(self);
        drop(extra);
        Err(E::from(BuildError::UnderReported))
    }
}
