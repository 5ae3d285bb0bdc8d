//! Borrowed handles.
ghost use Rattle.std.specs.Prelude.{◌≡◌, IfOk};
ghost use Rattle.std.specs.Fn.{FnOnceTakesAt, FnOnceReturnsAt};

use crate::arc::{Arc, Full};
use std::ops::Deref;
use std::sync::Wait;

/// A borrowed handle, which is not counted and is copied like a reference: `a.borrow_arc()`. A borrowed handle
/// dereferences to `T`.
///
/// Take it as a parameter where the callee may need a handle of its own, which `clone_arc` makes.
#[derive(Debug, PartialEq, Eq, PartialOrd, Ord, Hash)]
#[derive_where(Clone, Copy)]
pub struct ArcBorrow<'a, T>(pub(crate) &'a Arc<T>);

impl<T> Arc<T> {
    ghost use Rattle.handles.specs.Borrowed.{borrowed};

    /// Borrows the handle: `a.borrow_arc()`. The count stays as it is.
    pub fn borrow_arc(&self) -> ArcBorrow<'_, T>
        ensures { borrowed result ≡ self.now }
    {
        ArcBorrow(self)
    }
}

impl<'a, T> ArcBorrow<'a, T> {
    ghost use Rattle.handles.specs.Borrowed.{borrowed};

    /// Returns the value, for as long as the handle is borrowed: `b.get()`.
    pub fn get(&self) -> &'a T
        ensures { result.now ≡ borrowed self.now }
    {
        self.0
    }

    /// Clones the handle, at the cost of `Arc::clone`: `b.clone_arc(&rt)?`.
    ///
    /// # Errors
    ///
    /// Returns `Full` if the block is at its limit.
    pub fn clone_arc(&self, rt: &impl Wait) -> Result<Arc<T>, Full>
    where
        T: Drop,
        ensures { IfOk result (λ a. a ≡ borrowed self.now) }
    {
        Arc::clone(self.0, rt)
    }

    /// Returns `true` if both are of one block: `ArcBorrow::ptr_eq(&b, &c)`. The answer is as exact as that of
    /// `Arc::ptr_eq`.
    pub fn ptr_eq(this: &Self, other: &Self) -> bool {
        Arc::ptr_eq(this.0, other.0)
    }

    /// Calls `f` with the handle and returns its result: `b.with_arc(|handle: &Arc<u32>| handle.is_unique())`. The
    /// count stays as it is, unless `f` changes it.
    pub fn with_arc<F: FnOnce(&Arc<T>) -> U, U>(&self, f: F) -> U
        requires { FnOnceTakesAt F.FnOnce f (borrowed self.now) }
        ensures { FnOnceReturnsAt F.FnOnce f (borrowed self.now) result }
    {
        f(self.0)
    }
}

impl<T> Deref for ArcBorrow<'_, T> {
    type Target = T;

    ghost use Rattle.handles.specs.Borrowed.{borrowed};

    ghost deref_gives = { λ b x. x ≡ borrowed b };

    fn deref(&self) -> &T
        ensures { result.now ≡ borrowed self.now }
    {
        self.0
    }
}
