//! The error of a call that changes a collection at an index or a path.
ghost use Rattle.std.specs.Prelude.{◌≡◌};
ghost use Rattle.handles.specs.declared.place.PlaceError.TheVariants.{Memory};

use std::alloc::{AllocError, AllocFailed};
use thiserror::Error;

/// The error of a call that changes a collection at an index or a path, as `table.set(alloc, i, value)?` of a
/// `CowTable`. The collection has the same items as before.
#[derive(Clone, Copy, Debug, PartialEq, Eq, Error)]
pub enum PlaceError {
    /// The index or the path is out of range. A call returns this error whether or not there is memory.
    #[error("no such place")]
    NoPlace,
    /// An allocation failed, the `clone` of an item or of a handle failed, or the collection has the most items that
    /// it can have.
    #[error("out of memory")]
    Memory,
}

impl From<AllocError> for PlaceError {
    ghost from_gives = { λ _ refusal. refusal ≡ Memory };

    fn from(_error: AllocError) -> PlaceError {
        PlaceError::Memory
    }
}

/// Converts the error of a `push` or of a constructor to `Memory`, for `?`. The value in that error is dropped.
impl<T: Drop> From<AllocFailed<T>> for PlaceError {
    ghost from_gives = { λ _ refusal. refusal ≡ Memory };

    fn from(_refusal: AllocFailed<T>) -> PlaceError {
        PlaceError::Memory
    }
}
