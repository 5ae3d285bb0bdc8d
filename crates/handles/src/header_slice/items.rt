//! Items in one allocation, whose room is known before the first item comes.
ghost use Rattle.std.specs.Prelude.{◌≡◌, ◌<◌, [], ◌∷◌, ◌++◌, length, IfOk};
ghost use Rattle.std.specs.Borrow.{sem};

use super::places::{Places, has_no_size};
use std::alloc::{AllocError, Global};
use std::marker::Model;
use std_alloc::room::may_hold;

pub(super) struct Items<T> {
    places: Places<T>,
    alloc: Global,
}

impl<T> Model for Items<T> {
    ghost use Rattle.handles.specs.HeaderSlice.{ItemsInRoom};

    ghost Value = { ItemsInRoom T };

    ghost view = { λ i. record { items = i.places.items; room = i.places.room } };
}

impl<T> Items<T> {
    ghost use Rattle.handles.specs.Inside.ItemsLending.{LendsItemsInRoom};

    // Makes no request for memory if there is no room or the items have no size.
    pub(super) fn with_room(alloc: Global, room: usize) -> Result<Items<T>, AllocError>
        ensures { IfOk result (λ i. (i.items ≡ []) × (i.room ≡ room)) }
    {
        let places = if room == 0 || has_no_size::<T>() {
            Places::without_bytes(room)
        } else if may_hold::<T>(room)
            && let Ok(places) = Places::reserve(&alloc, room)
        {
            places
        } else {
            return Err(AllocError);
        };
        Ok(Items { places, alloc })
    }

    pub(super) fn push(&mut self, item: T)
        requires { length self.old.items < self.old.room }
        ensures items { self.new.items ≡ self.old.items ++ item ∷ [] }
        ensures room { self.new.room ≡ self.old.room }
    {
        self.places.push(item);
    }

    pub(super) fn len(&self) -> usize
        ensures { result ≡ length self.now.items }
    {
        self.slice().len()
    }

    #[inline]
    pub(super) fn slice(&self) -> &[T]
        ensures { result.now ≡ self.now.items }
    {
        self.places.slice()
    }

    #[inline]
    pub(super) fn slice_mut(&mut self) -> &mut [T]
        ensures* writes_back { sem 𝓛 (LendsItemsInRoom T.row self.entry result) }
        ensures value { result.now ≡ self.old.items }
    {
        self.places.slice_mut()
    }
}

// Drops the items from first to last, and then frees their allocation.
impl<T: Drop> Drop for Items<T> {
    fn drop(self) {
        let Items { places, alloc } = self;
        let number = places.slice().len();
        let mut leaving = places.into_leaving();
        for _ in 0..number {
            drop(leaving.take_first());
        }
        leaving.free(&alloc);
    }
}
