//! Handles of values that are never dropped.
ghost use Rattle.std.specs.Prelude.{◌≡◌, IfOk, IfErr, IfSome, true, ⊤};

mod compare;

use crate::arc::Arc;
use crate::block::marked::Marked;
use crate::unique::UniqueArc;
use std::alloc::{AllocError, Global};
use std::ops::Deref;

/// A handle of a static block, which is never freed: `StaticArc::new(alloc, x)?`. Use it for defaults that live as
/// long as the program.
///
/// A `StaticArc` is one pointer, and is copied like a reference. Copies are not counted. A `StaticArc` dereferences
/// to `T`, and its `arc` makes an `Arc`.
pub struct StaticArc<'a, T>(&'a Marked<T>);

/// Copies the handle and never fails: `kept.clone()?`. The type is `Copy`: this impl is for code that is generic over
/// `Clone`.
impl<T> Clone for StaticArc<'_, T> {
    ghost is_clone = { λ x y. y ≡ x };

    ghost is_infallible = { λ _. ⊤ };

    fn clone(&self) -> Result<Self, AllocError> {
        Ok(*self)
    }
}

impl<T> Copy for StaticArc<'_, T> {}

impl<'a, T: Drop> StaticArc<'a, T> {
    ghost use Rattle.handles.specs.Stays.{value_of};

    /// Creates a static block: `StaticArc::new(alloc, 9)?`. Its one allocation is never freed.
    ///
    /// # Errors
    ///
    /// Returns the value if the allocation fails.
    pub fn new(alloc: Global, value: T) -> Result<StaticArc<'a, T>, T>
        ensures made { IfOk result (λ s. value_of s ≡ value) }
        ensures refused { IfErr result (λ x. x ≡ value) }
    {
        Ok(UniqueArc::new(alloc, value)?.into_static())
    }
}

impl<'a, T> StaticArc<'a, T> {
    ghost use Rattle.handles.specs.Stays.{value_of};

    // Makes the handle from the reference, whose type says that the block is marked.
    pub(crate) fn of(marked: &'a Marked<T>) -> StaticArc<'a, T>
        ensures { value_of result ≡ marked.now.held.value }
    {
        StaticArc(marked)
    }

    /// Returns the value, for the whole of `'a`: `kept.get()`.
    #[inline]
    pub fn get(&self) -> &'a T
        ensures { result.now ≡ value_of self.now }
    {
        self.0.value()
    }

    /// Creates an `Arc` of the block, with no atomic step: `kept.arc()`. The call cannot fail. The drop of that `Arc`
    /// makes one load.
    #[inline]
    pub fn arc(&self) -> Arc<T>
        ensures { result ≡ value_of self.now }
    {
        Arc::of(self.0.handle())
    }

    /// Returns `true`, without a look at the block: `kept.is_static()`.
    #[inline]
    pub fn is_static(&self) -> bool
        ensures { result ≡ true }
    {
        true
    }
}

impl<T> Arc<T> {
    ghost use Rattle.handles.specs.Stays.{value_of};

    /// Returns a `StaticArc` of the block if the block is static, by one load: `a.find_static()`.
    pub fn find_static<'a>(&self) -> Option<StaticArc<'a, T>>
    where
        T: 'a,
        ensures { IfSome result (λ s. value_of s ≡ self.now) }
    {
        match self.handle.find_marked() {
            Ok(marked) => Some(StaticArc::of(marked)),
            Err(_) => None,
        }
    }
}

impl<T: Drop> Arc<T> {
    ghost use Rattle.handles.specs.Stays.{value_of};

    /// Makes the block static and turns this handle into a `StaticArc`: `a.into_static()`. The cost is an or and a
    /// load. Other handles of the block stay as they are.
    pub fn into_static<'a>(self) -> StaticArc<'a, T>
    where
        T: 'a,
        ensures { value_of result ≡ self }
    {
        StaticArc::of(self.handle.to_marked())
    }
}

impl<T> Deref for StaticArc<'_, T> {
    type Target = T;

    ghost use Rattle.handles.specs.Stays.{value_of};

    ghost deref_gives = { λ s x. x ≡ value_of s };

    #[inline]
    fn deref(&self) -> &T
        ensures { result.now ≡ value_of self.now }
    {
        self.0.value()
    }
}
