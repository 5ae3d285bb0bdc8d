//! Conversions from a value to a handle, in place of `Default` and `From`, whose methods take no allocator; and back.
ghost use Rattle.std.specs.Prelude.{◌≡◌, IfOk, IfErr, IfSome, IsOk};
ghost use Rattle.handles.specs.Copies.{SameOrCopy};

use super::Arc;
use std::alloc::{AllocError, Global};
use std::convert::AsRef;

impl<T: Drop> Arc<T> {
    /// Creates a block for a default value: `Arc::try_default(alloc)`.
    ///
    /// # Errors
    ///
    /// Returns the default value that was made if the allocation fails.
    pub fn try_default(alloc: Global) -> Result<Arc<T>, T>
    where
        T: Default,
        ensures made { IfOk result T.is_default }
        ensures refused { IfErr result T.is_default }
    {
        Arc::new(alloc, T::default())
    }

    /// Creates a block for the value, as `new` does: `Arc::from_value(alloc, 9)`. The call takes the place of `From`.
    ///
    /// # Errors
    ///
    /// Returns the value if the allocation fails.
    pub fn from_value(alloc: Global, value: T) -> Result<Arc<T>, T>
        ensures made { IfOk result (λ a. a ≡ value) }
        ensures refused { IfErr result (λ x. x ≡ value) }
    {
        Arc::new(alloc, value)
    }

    /// Drops the handle, and returns the value if it was the last handle and the block is not static:
    /// `Arc::into_inner(a)`.
    ///
    /// If all handles of such a block end by this call, exactly one of the calls returns the value, however many
    /// threads make them. So a loop can take a long chain of handles apart, where a drop would recurse along the
    /// chain. The call makes a load and a subtraction.
    pub fn into_inner(this: Arc<T>) -> Option<T>
        ensures { IfSome result (λ value. value ≡ this) }
    {
        match this.handle.end() {
            Ok(block) => Some(Box::into_inner(block).into_value()),
            Err(_) => None,
        }
    }

    /// Returns the value if this is the only handle and the block is not static: `Arc::try_unwrap(a)`.
    ///
    /// # Errors
    ///
    /// Returns the handle if the block has other handles or is static. One load decides, as in `get_mut`. Two threads
    /// that call it for the last two handles may both get their handle back, while of two calls of `into_inner` one
    /// returns the value.
    pub fn try_unwrap(this: Arc<T>) -> Result<T, Arc<T>>
        ensures alone { IfOk result (λ value. value ≡ this) }
        ensures shared { IfErr result (λ a. a ≡ this) }
    {
        Ok(Arc::into_unique(this)?.into_inner())
    }

    /// Returns the value if this is the only handle and the block is not static, and a clone of it otherwise:
    /// `Arc::unwrap_or_clone(a)?`. The handle is dropped.
    ///
    /// # Errors
    ///
    /// Returns `AllocError` if `T::clone` does. The handle is dropped then too.
    pub fn unwrap_or_clone(this: Arc<T>) -> Result<T, AllocError>
    where
        T: Clone,
        ensures value { IfOk result (SameOrCopy T.is_clone this) }
        ensures given { T.is_infallible this → IsOk result }
    {
        match Arc::try_unwrap(this) {
            Ok(value) => Ok(value),
            Err(shared) => (*shared).clone(),
        }
    }
}

impl<T> AsRef<T> for Arc<T> {
    fn as_ref(&self) -> &T
        ensures { result.now ≡ self.now }
    {
        self
    }
}
