//! The error of the calls that intern a value.
ghost use Rattle.std.specs.Prelude.{◌≡◌};
ghost use Rattle.interner.specs.declared.error.InternError.TheVariants.{Memory};

use std::alloc::{AllocError, AllocFailed};
use thiserror::Error;

/// The error of a call that interns a value: `interner.intern(alloc, value)?`. The interner has the values that it
/// had.
#[derive(Clone, Copy, Debug, PartialEq, Eq, Error)]
pub enum InternError {
    /// The interner has 2^32 values, and no more symbols.
    #[error("no symbol is left")]
    Full,
    /// The block of the value or its entry cannot be allocated, or the hash table has 9 · 2^28 entries, its most.
    #[error("out of memory")]
    Memory,
}

impl From<AllocError> for InternError {
    ghost from_gives = { λ _ refusal. refusal ≡ Memory };

    fn from(_error: AllocError) -> InternError {
        InternError::Memory
    }
}

impl<T: Drop> From<AllocFailed<T>> for InternError {
    ghost from_gives = { λ _ refusal. refusal ≡ Memory };

    fn from(_error: AllocFailed<T>) -> InternError {
        InternError::Memory
    }
}
