//! `UniqueArc`, the only handle of its block, through which the value can be written.
ghost use Rattle.std.specs.Prelude.{◌≡◌, IfOk, IfErr};
ghost use types.Logic.{sem};

mod compare;

use crate::arc::Arc;
use crate::block::marked::Marked;
use crate::block::{Block, Handle, RawBox};
use crate::limit::Limit;
use crate::static_arc::StaticArc;
use std::alloc::{AllocError, AllocFailed, Global};
use std::marker::Model;
use std::ops::{Deref, DerefMut};
use std_alloc::room::Vacant;

/// The only handle of a block, through which the value can be written: `UniqueArc::try_new(alloc, 5)?`.
///
/// A `UniqueArc` dereferences to `T`, also to write. Fill the value in, then turn the handle into an `Arc` by
/// `shareable`, without a second allocation.
#[derive(Drop)]
pub struct UniqueArc<T> {
    block: Box<Block<T>>,
}

impl<T> Model for UniqueArc<T> {
    ghost use Rattle.std.specs.Prelude.{◌≡◌};

    ghost Value = { T };

    ghost view = { λ u. u.block.value.held.value };

    ghost invariant = { λ u. u.block.value.word ≡ 1 };
}

impl<T: Drop> UniqueArc<T> {
    ghost use Rattle.handles.specs.Stays.{value_of};

    /// Creates a block for the value and returns its only handle: `UniqueArc::new(alloc, 8)`.
    ///
    /// # Errors
    ///
    /// Returns the value if the allocation fails.
    pub fn new(alloc: Global, value: T) -> Result<UniqueArc<T>, T>
        ensures made { IfOk result (λ u. u ≡ value) }
        ensures refused { IfErr result (λ x. x ≡ value) }
    {
        UniqueArc::with_limit(alloc, value, Limit::GREATEST)
    }

    /// Creates a block for the value, as `new` does, but with an error that `?` converts:
    /// `UniqueArc::try_new(alloc, 5)?`.
    ///
    /// # Errors
    ///
    /// Returns `AllocFailed`, with the value in it, if the allocation fails. `?` converts it to an `AllocError`.
    pub fn try_new(alloc: Global, value: T) -> Result<UniqueArc<T>, AllocFailed<T>>
        ensures made { IfOk result (λ u. u ≡ value) }
        ensures refused { IfErr result (λ failed. failed.value ≡ value) }
    {
        UniqueArc::new(alloc, value).map_err(|value| AllocFailed { value })
    }

    pub(crate) fn with_limit(alloc: Global, value: T, limit: Limit) -> Result<UniqueArc<T>, T>
        ensures made { IfOk result (λ u. u ≡ value) }
        ensures refused { IfErr result (λ x. x ≡ value) }
    {
        Ok(UniqueArc {
            block: Block::boxed(alloc, value, limit)?,
        })
    }

    /// Turns the handle into an `Arc`, which can be cloned: `unique.shareable()`. Takes no memory, and the block is
    /// not moved.
    pub fn shareable(self) -> Arc<T>
        ensures { result ≡ self }
    {
        let UniqueArc { block } = self;
        Arc::of(Handle::first(RawBox::of(block)).into_shared())
    }

    /// Returns the value and frees the block: `unique.into_inner()`. The value is moved, and neither cloned nor
    /// dropped.
    pub fn into_inner(self) -> T
        ensures { result ≡ self }
    {
        let UniqueArc { block } = self;
        Box::into_inner(block).into_value()
    }

    /// Leaks the value and returns a reference to write to: `UniqueArc::try_new(alloc, 5)?.leak()`. The block is
    /// never freed, and the value is never dropped.
    pub fn leak<'a>(self) -> &'a mut T
    where
        T: 'a,
        ensures { result.now ≡ self }
    {
        let UniqueArc { block } = self;
        Box::leak(block).value_mut()
    }

    /// Makes the block static, with no atomic step, since nobody shares it yet: `unique.into_static()`.
    pub fn into_static<'a>(self) -> StaticArc<'a, T>
    where
        T: 'a,
        ensures { value_of result ≡ self }
    {
        let UniqueArc { mut block } = self;
        block.mark();
        StaticArc::of(Marked::of(RawBox::of(block)))
    }

    pub(crate) fn into_arc(self, is_static: bool) -> Arc<T>
        ensures { result ≡ self }
    {
        if is_static {
            self.into_static().arc()
        } else {
            self.shareable()
        }
    }
}

impl<T: Drop> Arc<T> {
    /// Returns a handle to write to, if this is the only handle and the block is not static: `Arc::into_unique(a)`.
    /// The call makes one load and takes no memory, and the block is not moved.
    ///
    /// # Errors
    ///
    /// Returns the handle if the block has other handles or is static.
    pub fn into_unique(this: Arc<T>) -> Result<UniqueArc<T>, Arc<T>>
        ensures alone { IfOk result (λ u. u ≡ this) }
        ensures shared { IfErr result (λ a. a ≡ this) }
    {
        match this.handle.into_block() {
            Ok(block) => Ok(UniqueArc { block }),
            Err((handle, _)) => Err(Arc::of(handle)),
        }
    }
}

impl<T> Deref for UniqueArc<T> {
    type Target = T;

    ghost deref_gives = { λ u x. x ≡ u };

    fn deref(&self) -> &T
        ensures { result.now ≡ self.now }
    {
        self.block.value()
    }
}

impl<T> DerefMut for UniqueArc<T> {
    ghost use Rattle.handles.specs.WriteBack.{LendsUnique};

    ghost deref_mut_gives = { λ u x. x ≡ u };

    fn deref_mut(&mut self) -> &mut T
        ensures* writes_back { sem 𝓛 (LendsUnique T.row self.entry result) }
        ensures value { result.now ≡ self.old }
    {
        self.block.value_mut()
    }
}

/// A block whose value is still to be written: `UniqueArc::new_uninit(alloc)?`. Its drop frees the block, and drops
/// no value.
pub struct UninitArc<T> {
    room: Vacant<Block<T>, Global>,
    alloc: Global,
}

impl<T> UniqueArc<T> {
    /// Allocates a block whose value is still to be written: `UniqueArc::new_uninit(alloc)?.write(5)`.
    ///
    /// # Errors
    ///
    /// Returns `AllocError` if the allocation fails.
    pub fn new_uninit(alloc: Global) -> Result<UninitArc<T>, AllocError> {
        match Vacant::take(alloc) {
            Ok(room) => Ok(UninitArc { room, alloc }),
            Err(_) => Err(AllocError),
        }
    }
}

impl<T: Drop> UninitArc<T> {
    /// Writes the value to the block and returns its only handle, without an allocation: `block.write(5)`.
    pub fn write(self, value: T) -> UniqueArc<T>
        ensures { result ≡ value }
    {
        let UninitArc { room, alloc } = self;
        let block = Block::first(alloc, value, Limit::GREATEST);
        UniqueArc {
            block: RawBox::fill(room, block).into_box(),
        }
    }
}

impl<T> Drop for UninitArc<T> {
    fn drop(self) {
        let UninitArc { room, alloc: _ } = self;
        let _ = room.free();
    }
}
