//! The raw allocation of the items, and each step that is made on it through its pointer.
ghost use Rattle.std.specs.Prelude.{◌≡◌, ◌≢◌, ◌*◌, ◌<◌, ◌≤◌, ◌+◌, ◌↔◌, List, [], ◌∷◌, ◌++◌, length, IfOk, IsTrue};
ghost use Rattle.std.specs.Borrow.{sem};
ghost use Rattle.std.specs.Mem.{type_size};
ghost use Rattle.std.specs.Vec.Ownership.{FitsInBlock};
ghost use Rattle.handles.specs.Inside.PlacesOwnership.{places_own, places_share, leaving_own};

use std::alloc::{AllocError, Allocator, Global};
use std::marker::Model;
use std::mem::{align_of, size_of};
use std::slice;

// The first `filled` of `room` places hold items. Places that take no bytes have no allocation.
pub(super) struct Places<T> {
    first: *const T,
    pub(super) filled: usize,
    pub(super) room: usize,
    pub(super) ghost items: { List T },
    ghost within: { (filled ≡ length items) × (filled ≤ room) },
}

impl<T> Model for Places<T> {
    ghost also_owns = { λ p. places_own T.row p.first p.filled p.room p.items };

    ghost also_shares = { λ p _ κ. places_share T.row p.first p.filled p.room p.items κ };
}

unsafe impl<T: Send> Send for Places<T> {}

unsafe impl<T: Sync> Sync for Places<T> {}

// Places whose items are taken out, from first to last. Those before `taken` are out.
pub(super) struct Leaving<T> {
    first: *const T,
    taken: usize,
    filled: usize,
    room: usize,
    pub(super) ghost items: { List T },
    ghost within: { (filled ≡ taken + length items) × (filled ≤ room) },
}

impl<T> Model for Leaving<T> {
    ghost also_owns = { λ p. leaving_own T.row p.first p.taken p.filled p.room p.items };
}

// Returns whether values of the type take no bytes.
pub(super) fn has_no_size<T>() -> bool
    ensures { IsTrue result ↔ (type_size T.row ≡ 0) }
{
    size_of::<T>() == 0
}

impl<T> Places<T> {
    // Makes places without an allocation, since they take no bytes.
    pub(super) fn without_bytes(room: usize) -> Places<T>
        requires { room * type_size T.row ≡ 0 }
        ensures items { result.items ≡ [] }
        ensures room { result.room ≡ room }
    {
        let none: [T; 0] = [];
        Places {
            first: &raw const none as *const T,
            filled: 0,
            room,
        }
    }

    pub(super) fn reserve(alloc: &Global, room: usize) -> Result<Places<T>, AllocError>
        requires fits { FitsInBlock T.row room }
        requires has_bytes { room * type_size T.row ≢ 0 }
        ensures { IfOk result (λ p. (p.items ≡ []) × (p.room ≡ room)) }
    {
        match alloc.allocate(room * size_of::<T>(), align_of::<T>()) {
            Ok(block) => Ok(Places {
                first: block as *const T,
                filled: 0,
                room,
            }),
            Err(refused) => Err(refused),
        }
    }

    pub(super) fn push(&mut self, item: T)
        requires { self.old.filled < self.old.room }
        ensures items { self.new.items ≡ self.old.items ++ item ∷ [] }
        ensures room { self.new.room ≡ self.old.room }
    {
        let at = self.filled;
        unsafe {
            self.first.cast_mut().add(at).write(item);
        }
        self.filled = at + 1;
    }

    #[inline]
    pub(super) fn slice(&self) -> &[T]
        ensures { result.now ≡ self.now.items }
    {
        unsafe { slice::from_raw_parts(self.first, self.filled) }
    }

    pub(super) fn into_leaving(self) -> Leaving<T>
        ensures items { result.items ≡ self.items }
    {
        let Places {
            first,
            filled,
            room,
        } = self;
        Leaving {
            first,
            taken: 0,
            filled,
            room,
        }
    }
}

impl<T> Places<T> {
    ghost use Rattle.handles.specs.Inside.PlacesLending.{LendsPlaces};

    #[inline]
    pub(super) fn slice_mut(&mut self) -> &mut [T]
        ensures* writes_back { sem 𝓛 (LendsPlaces T.row self.entry result) }
        ensures value { result.now ≡ self.old.items }
    {
        unsafe { slice::from_raw_parts_mut(self.first.cast_mut(), self.filled) }
    }
}

impl<T> Leaving<T> {
    pub(super) fn take_first(&mut self) -> T
        requires { 0 < length self.old.items }
        ensures items { self.old.items ≡ result ∷ self.new.items }
    {
        let at = self.taken;
        self.taken = at + 1;
        unsafe { self.first.add(at).read() }
    }

    pub(super) fn free(self, alloc: &Global)
        requires empty { self.items ≡ [] }
    {
        let Leaving {
            first,
            taken: _,
            filled: _,
            room,
        } = self;
        let bytes = room * size_of::<T>();
        if bytes != 0 {
            unsafe {
                alloc.deallocate(first.cast_mut() as *mut u8, bytes, align_of::<T>());
            }
        }
    }
}
