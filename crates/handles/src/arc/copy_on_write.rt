//! Writing through a handle whose block may have other handles.
ghost use Rattle.std.specs.Prelude.{◌≡◌, ◌⊎◌, IfSome, IfOk};
ghost use types.Logic.{sem};

use super::Arc;
use std::alloc::{AllocError, Global};

impl<T> Arc<T> {
    ghost use Rattle.handles.specs.WriteBack.{LendsIfAlone, LendsOwn};

    /// Returns the value to write to, if this is the only handle and the block is not static: `Arc::get_mut(&mut a)`.
    /// The call makes one load.
    #[inline]
    pub fn get_mut(this: &mut Arc<T>) -> Option<&mut T>
        ensures* writes_back { sem 𝓛 (LendsIfAlone T.row this.entry result) }
        ensures value { IfSome result (λ x. x.now ≡ this.old) }
    {
        match this.handle.get_mut() {
            Ok(value) => Some(value),
            Err(_) => None,
        }
    }

    /// Returns the value to write to, and clones it into a new block first if the block has other handles or is
    /// static: `*Arc::make_mut(&mut a, alloc)? = 9`.
    ///
    /// If this is the only handle, the call makes one load. Otherwise it also makes one allocation, beside those of
    /// `T::clone`, and drops the old handle.
    ///
    /// # Errors
    ///
    /// Returns `AllocError` if the allocation fails or `T::clone` does. The handle is unchanged.
    #[inline(always)]
    pub fn make_mut(this: &mut Arc<T>, alloc: Global) -> Result<&mut T, AllocError>
    where
        T: Clone + Drop,
        ensures* writes_back { sem 𝓛 (LendsOwn T.row this.entry result) }
        ensures value { IfOk result (λ x. (x.now ≡ this.old) ⊎ T.is_clone this.old x.now) }
    {
        this.handle.make_sole(alloc)?;
        Ok(this.handle.value_mut())
    }
}
