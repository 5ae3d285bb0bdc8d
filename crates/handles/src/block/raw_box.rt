//! A box, taken apart into its pointer and its allocator.
ghost use Rattle.std.specs.Prelude.{◌≡◌};
ghost use Rattle.std.specs.contracts.impls.GlobalAllocator.TheImpl.{ghosts};
ghost use Rattle.std_alloc.specs.Box.Ownership.{box_owns};

use std::alloc::Global;
use std::marker::Model;
use std_alloc::room::Vacant;

pub(crate) struct RawBox<T> {
    pub(super) at: *mut T,
    pub(super) alloc: Global,
    pub(crate) ghost value: { T },
}

impl<T> Model for RawBox<T> {
    ghost also_owns = { λ b. box_owns (ghosts.dealloc_token b.alloc) T.row b.at b.value };
}

impl<T: Drop> RawBox<T> {
    pub(crate) fn of(boxed: Box<T>) -> RawBox<T>
        ensures { result.value ≡ boxed.value }
    {
        let (at, alloc) = Box::into_raw_with_allocator(boxed);
        RawBox { at, alloc }
    }

    pub(crate) fn into_box(self) -> Box<T>
        ensures { result.value ≡ self.value }
    {
        let RawBox { at, alloc } = self;
        unsafe { Box::from_raw(alloc, at) }
    }
}

impl<T> RawBox<T> {
    // Writes the value into the room that was allocated for it.
    pub(crate) fn fill(room: Vacant<T, Global>, value: T) -> RawBox<T>
        ensures { result.value ≡ value }
    {
        let Vacant { ptr, alloc } = room;
        unsafe {
            ptr.write(value);
        }
        RawBox { at: ptr, alloc }
    }
}
