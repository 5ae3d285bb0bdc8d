//! The commands that only slots of `Arc`s have.
#![tactic(auto, using(crate::proofs::SlotLemmas::slots))]

ghost use Rattle.handles.specs.Copies.{CopiesAreEqual};
ghost use Rattle.commands.specs.TableModel.{outcomes_of};
ghost use Rattle.commands.specs.Runs.{IsAmong};

use crate::slots::Slots;
use commands::{Command, Reply};
use handles::arc::Arc;
use std::alloc::Global;

impl<T: PartialEq + Drop> Slots<Arc<T>> {
    #[inline]
    pub(crate) fn new_handle(&mut self, alloc: Global, i: usize, value: T) -> Reply
        ensures { IsAmong (outcomes_of T.eq (Command.New i value) self.old) result self.new }
    {
        if i >= self.slots() {
            return Reply::NoSlot;
        }
        match Arc::new(alloc, value) {
            Ok(handle) => {
                self.fill(i, handle);
                Reply::Done
            }
            Err(_) => Reply::Refused,
        }
    }

    #[inline]
    pub(crate) fn get_mut(&mut self, i: usize, value: T) -> Reply
        ensures { IsAmong (outcomes_of T.eq (Command.GetMut i value) self.old) result self.new }
    {
        let Some(slot) = self.handles.get_mut(i) else {
            return Reply::NoSlot;
        };
        let Some(handle) = &mut *slot else {
            return Reply::Empty;
        };
        let Some(place) = Arc::get_mut(handle) else {
            return Reply::Shared;
        };
        *place = value;
        Reply::Done
    }

    #[inline]
    pub(crate) fn mark(&self, i: usize) -> Reply
        ensures { IsAmong (outcomes_of T.eq (Command.Mark i) self.now) result self.now }
    {
        match self.handle(i) {
            Ok(handle) => {
                handle.mark_as_intentionally_leaked();
                Reply::Done
            }
            Err(missing) => missing,
        }
    }

    #[inline]
    pub(crate) fn ptr_eq(&self, i: usize, j: usize) -> Reply
        ensures { IsAmong (outcomes_of T.eq (Command.PtrEq i j) self.now) result self.now }
    {
        match self.two_handles(i, j) {
            Ok((a, b)) => Reply::Is(Arc::ptr_eq(a, b)),
            Err(missing) => missing,
        }
    }

    #[inline]
    pub(crate) fn into_unique(&mut self, i: usize, value: T) -> Reply
        ensures { IsAmong (outcomes_of T.eq (Command.IntoUnique i value) self.old) result self.new }
    {
        let Some(slot) = self.handles.get_mut(i) else {
            return Reply::NoSlot;
        };
        let Some(handle) = slot.take() else {
            return Reply::Empty;
        };
        match Arc::into_unique(handle) {
            Ok(mut unique) => {
                *unique = value;
                *slot = Some(unique.shareable());
                Reply::Done
            }
            Err(shared) => {
                *slot = Some(shared);
                Reply::Shared
            }
        }
    }

    #[inline]
    pub(crate) fn raw(&mut self, i: usize) -> Reply
        ensures { IsAmong (outcomes_of T.eq (Command.Raw i) self.old) result self.new }
    {
        let Some(slot) = self.handles.get_mut(i) else {
            return Reply::NoSlot;
        };
        let Some(handle) = slot.take() else {
            return Reply::Empty;
        };
        *slot = Some(Arc::from_raw(Arc::into_raw(handle)));
        Reply::Done
    }
}

impl<T: Clone + PartialEq> Slots<Arc<T>> {
    #[inline]
    pub(crate) fn make_mut(&mut self, alloc: Global, i: usize, value: T) -> Reply
        ensures { IsAmong (outcomes_of T.eq (Command.MakeMut i value) self.old) result self.new }
    {
        let Some(slot) = self.handles.get_mut(i) else {
            return Reply::NoSlot;
        };
        let Some(handle) = &mut *slot else {
            return Reply::Empty;
        };
        let Ok(owned) = Arc::make_mut(handle, alloc) else {
            return Reply::Refused;
        };
        *owned = value;
        Reply::Done
    }

    #[inline]
    pub(crate) fn own(&mut self, alloc: Global, i: usize) -> Reply
        requires { CopiesAreEqual T.is_clone }
        ensures { IsAmong (outcomes_of T.eq (Command.Own i) self.old) result self.new }
    {
        let Some(slot) = self.handles.get_mut(i) else {
            return Reply::NoSlot;
        };
        let Some(handle) = &mut *slot else {
            return Reply::Empty;
        };
        let Ok(_own) = Arc::make_mut(handle, alloc) else {
            return Reply::Refused;
        };
        Reply::Done
    }
}
