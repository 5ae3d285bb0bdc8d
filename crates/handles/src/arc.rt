//! `Arc`, whose handles share a value, and `RawArc`, a handle that is kept as a token.
ghost use Rattle.std.specs.Prelude.{◌≡◌, IfOk, IfErr, false};
ghost use Rattle.counting_word.specs.CountingWord.{IsLimit};

mod compare;
mod convert;
mod copy_on_write;
mod full;

use crate::block::Handle;
use crate::limit::Limit;
use crate::static_arc::StaticArc;
use crate::unique::UniqueArc;
pub use full::Full;
use std::alloc::{AllocError, AllocFailed, Global};
use std::marker::Model;
use std::ops::Deref;
use std::sync::Wait;

/// How many compare-exchanges the trait's `clone` makes before it gives up.
const MOST_RAISES: u8 = 64;

/// An atomically reference-counted pointer, for one thread or many: `Arc::try_new(alloc, 5)?`.
///
/// The handles of a value share one block, an allocation with the value and the count of its handles. A handle
/// dereferences to `T`. To write a value that may be shared, call `make_mut`, which copies it on write:
///
/// ```
/// let first = Arc::try_new(alloc, 5)?;
/// let mut second = first.clone()?;
/// *Arc::make_mut(&mut second, alloc)? = 9;
/// ```
///
/// Then `*first` is still 5. The drop of the last handle drops the value and frees the block. A static block is never
/// freed: see `StaticArc`.
#[derive(Drop)]
pub struct Arc<T> {
    pub(crate) handle: Handle<T>,
}

impl<T> Model for Arc<T> {
    ghost use Rattle.std.specs.Prelude.{◌≡◌, false};

    ghost Value = { T };

    ghost view = { λ a. a.handle.held.value };

    ghost invariant = { λ a. a.handle.sole ≡ false };
}

impl<T: Drop> Arc<T> {
    /// Creates a block for the value and returns its first handle: `Arc::new(alloc, 5)`.
    ///
    /// # Errors
    ///
    /// Returns the value if the allocation fails.
    pub fn new(alloc: Global, value: T) -> Result<Arc<T>, T>
        ensures made { IfOk result (λ a. a ≡ value) }
        ensures refused { IfErr result (λ x. x ≡ value) }
    {
        UniqueArc::new(alloc, value).map(UniqueArc::shareable)
    }

    /// Creates a block for the value, as `new` does, but with an error that `?` converts: `Arc::try_new(alloc, 5)?`.
    ///
    /// # Errors
    ///
    /// Returns `AllocFailed`, with the value in it, if the allocation fails. `?` converts it to an `AllocError`.
    pub fn try_new(alloc: Global, value: T) -> Result<Arc<T>, AllocFailed<T>>
        ensures made { IfOk result (λ a. a ≡ value) }
        ensures refused { IfErr result (λ failed. failed.value ≡ value) }
    {
        UniqueArc::try_new(alloc, value).map(UniqueArc::shareable)
    }

    /// Creates a block that allows at most `limit` handles: `Arc::new_with_limit(alloc, 7, 1)`.
    ///
    /// All handles of the block count, however they are made. A static block has no limit. The blocks of the other
    /// constructors have the limit `MAX_REFCOUNT`, 2^63 - 1.
    ///
    /// # Errors
    ///
    /// Returns the value if the allocation fails.
    pub fn new_with_limit(alloc: Global, value: T, limit: u64) -> Result<Arc<T>, T>
        requires { IsLimit limit }
        ensures made { IfOk result (λ a. a ≡ value) }
        ensures refused { IfErr result (λ x. x ≡ value) }
    {
        UniqueArc::with_limit(alloc, value, Limit::of(limit)).map(UniqueArc::shareable)
    }

    /// Creates a static block, which is never freed: `Arc::new_leaked(alloc, 5)`. The value is never dropped.
    ///
    /// # Errors
    ///
    /// Returns the value if the allocation fails.
    pub fn new_leaked(alloc: Global, value: T) -> Result<Arc<T>, T>
        ensures made { IfOk result (λ a. a ≡ value) }
        ensures refused { IfErr result (λ x. x ≡ value) }
    {
        Ok(StaticArc::new(alloc, value)?.arc())
    }

    /// Creates a static block, as `new_leaked` does: `Arc::new_static(alloc, 5)`. `servo_arc` of Rust has the call
    /// under this name.
    ///
    /// # Errors
    ///
    /// Returns the value if the allocation fails.
    pub fn new_static(alloc: Global, value: T) -> Result<Arc<T>, T>
        ensures made { IfOk result (λ a. a ≡ value) }
        ensures refused { IfErr result (λ x. x ≡ value) }
    {
        Arc::new_leaked(alloc, value)
    }

    /// Clones the handle that the token keeps: `Arc::from_raw_addrefed(&raw, &rt)`. The cost is that of `Arc::clone`.
    ///
    /// # Errors
    ///
    /// Returns `Full` if the block is at its limit.
    pub fn from_raw_addrefed(raw: &RawArc<T>, rt: &impl Wait) -> Result<Arc<T>, Full>
        ensures { IfOk result (λ a. a ≡ raw.now) }
    {
        Arc::clone(&raw.arc, rt)
    }

    /// Clones the handle, and retries until it succeeds or the block is full: `Arc::clone(&first, &rt)?`. Takes no
    /// memory.
    ///
    /// A clone makes a load and a compare-exchange, and of a static block the load alone. Each change of the count by
    /// another thread in between costs one more compare-exchange, without a bound. A clone that had to retry spins
    /// for about a microsecond before it returns, which lets the other threads continue.
    ///
    /// # Errors
    ///
    /// Returns `Full` if the block is at its limit.
    #[inline]
    pub fn clone(this: &Arc<T>, rt: &impl Wait) -> Result<Arc<T>, Full>
        ensures { IfOk result (λ a. a ≡ this.now) }
    {
        let handle = this.handle.clone_or_full(rt)?;
        Ok(Arc { handle })
    }
}

impl<T> Arc<T> {
    pub(crate) fn of(handle: Handle<T>) -> Arc<T>
        requires { handle.sole ≡ false }
        ensures { result ≡ handle.held.value }
    {
        Arc { handle }
    }

    /// Returns `true` if both are handles of one block: `Arc::ptr_eq(&a, &b)`.
    ///
    /// The answer is exact if no other `ptr_eq` runs on either block meanwhile. If one does, the answer may be wrong
    /// either way: two threads that compare two blocks from opposite ends at once may both get `true`.
    ///
    /// The call reads no count and does not wait. It adds to a word of the block that nothing else uses, by 3 atomic
    /// steps for two blocks and 6 for one block. If other threads compare these blocks too, there are at most 192
    /// steps.
    pub fn ptr_eq(this: &Arc<T>, other: &Arc<T>) -> bool {
        this.handle.has_block_of(&other.handle)
    }

    /// Returns `true` if this is the only handle and the block is not static, by one load: `a.is_unique()`.
    ///
    /// The answer may be stale at once: another thread may drop its handle, or clone this handle through a borrow. To
    /// write, call `get_mut`.
    #[inline]
    pub fn is_unique(&self) -> bool {
        self.handle.is_only().0
    }

    /// Returns `true` if the block is static, by one load: `a.is_static()`. A static block stays static.
    #[inline]
    pub fn is_static(&self) -> bool {
        self.handle.is_marked().0
    }

    /// Makes the block static, by one atomic or: `a.mark_as_intentionally_leaked()`. The block is then never freed,
    /// and its value is never dropped. A second call changes nothing.
    #[inline]
    pub fn mark_as_intentionally_leaked(&self) {
        self.handle.mark();
    }

    /// Turns the handle into a token that keeps it alive: `Arc::into_raw(a)`. `from_raw` turns the token back.
    pub fn into_raw(this: Arc<T>) -> RawArc<T>
        ensures { result ≡ this }
    {
        RawArc { arc: this }
    }

    /// Turns the token back into the handle that it kept: `Arc::from_raw(raw)`.
    pub fn from_raw(raw: RawArc<T>) -> Arc<T>
        ensures { result ≡ raw }
    {
        let RawArc { arc } = raw;
        arc
    }
}

impl<T> Deref for Arc<T> {
    type Target = T;

    ghost deref_gives = { λ a x. x ≡ a };

    #[inline]
    fn deref(&self) -> &T
        ensures { result.now ≡ self.now }
    {
        self.handle.value()
    }
}

/// Clones the handle, as `a.clone()?`, by a load and at most 64 compare-exchanges. Takes no memory.
///
/// # Errors
///
/// Returns `AllocError` if the block is at its limit, or if 64 compare-exchanges in a row lost to other threads. The
/// error never means a lack of memory. `Arc::clone(&a, &rt)` does not give up.
impl<T: Drop> Clone for Arc<T> {
    ghost is_clone = { λ a b. b ≡ a };

    #[inline]
    fn clone(&self) -> Result<Arc<T>, AllocError> {
        match self.handle.try_clone(MOST_RAISES) {
            Ok(handle) => Ok(Arc { handle }),
            Err(_) => Err(AllocError),
        }
    }
}

/// A handle kept as a token: `Arc::into_raw(a)`. Code can hand the token out as a plain value and take it back later.
///
/// The token counts as a handle. It cannot be dropped: only `Arc::from_raw(raw)` ends it.
pub struct RawArc<T> {
    arc: Arc<T>,
}

impl<T> Model for RawArc<T> {
    ghost Value = { T };

    ghost view = { λ r. r.arc };
}

impl<T> RawArc<T> {
    /// Returns the value, for as long as the token is borrowed: `raw.value()`.
    pub fn value(&self) -> &T
        ensures { result.now ≡ self.now }
    {
        &self.arc
    }
}
