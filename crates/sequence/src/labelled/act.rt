//! Changes at a cut: in one pass if the nodes on the path keep their form, else in a second pass by the index.
ghost use Rattle.std.specs.Prelude.{◌≡◌, ◌<◌, IfErr, IfNone, IfOk, IfSome, MatchResult, OnErr, length, slice_get};
ghost use Rattle.handles.specs.Copies.{CopiesAreEqual};
ghost use Rattle.std.specs.Fn.{FnOnceTakesAtMut};
ghost use Rattle.std.specs.Option.{ForSome};
ghost use Rattle.sequence.specs.Acts.{IsAbsent, IsActed, IsAdded, IsChanged, IsFound, IsMissing, IsReplaced, IsTaken};
ghost use Rattle.sequence.specs.Acts.{IsThere, OfSought};
ghost use Rattle.sequence.specs.Changes.{ChangesItem, KeepsLabel};
ghost use Rattle.sequence.specs.Cuts.{HasCut};

use crate::cut::Seek;
use crate::label::{Label, NewLabel};
use crate::labelled::LabelledSequence;
use crate::put::Put;
use crate::tree::act::{Act, len_after};
use crate::tree::change::Change;
use crate::tree::put::PutIn;
use crate::tree::take::Take;
use std::alloc::{AllocError, Global};

impl<T: Clone, L: NewLabel<T>> LabelledSequence<T, L> {
    /// Removes the item that `cut` seeks and returns it, or `None` if the last item before the cut is another one:
    /// `entries.take_out(alloc, cut)?`. O(log n).
    ///
    /// # Errors
    ///
    /// `AllocError` if `remove` would return `Memory`. If there is no such item, nothing is copied.
    pub fn take_out<C: Seek<T, L> + Drop>(
        &mut self,
        alloc: Global,
        cut: C,
    ) -> Result<Option<T>, AllocError>
        requires copies { CopiesAreEqual T.is_clone }
        requires labels { CopiesAreEqual L.is_clone }
        requires cut { HasCut (C.is_before cut) self.old }
        ensures taken { IfOk result (λ found. IfSome found (IsTaken (C.is_sought cut)
            (C.is_before cut) self.old self.new)) }
        ensures absent { IfOk result (λ found. IfNone found ((self.new ≡ self.old)
            × IsAbsent (C.is_sought cut) (C.is_before cut) self.old)) }
        ensures there { OnErr result (IsThere (C.is_sought cut) (C.is_before cut) self.old) }
        ensures refused { OnErr result (self.new ≡ self.old) }
    {
        match self.act(alloc, Take(cut)) {
            Ok(found) => Ok(found),
            Err(Take(cut)) => match self.place(&cut) {
                Err(_) => Ok(None),
                Ok(at) => {
                    let item = self.remove_at(alloc, at)?;
                    Ok(Some(item))
                }
            },
        }
    }

    /// Calls `change` on the item that `cut` seeks and returns its result, or `None` if the last item before the cut is
    /// another one: `entries.change(alloc, cut, |old| mem::replace(old, item))?`. O(log n).
    ///
    /// # Errors
    ///
    /// `AllocError` if `modify` would return `Memory`: `change` is then not called. If there is no such item, nothing
    /// is copied.
    pub fn change<C: Seek<T, L> + Drop, R, F: FnOnce(&mut T) -> R>(
        &mut self,
        alloc: Global,
        cut: C,
        change: F,
    ) -> Result<Option<R>, AllocError>
        requires copies { CopiesAreEqual T.is_clone }
        requires labels { CopiesAreEqual L.is_clone }
        requires cut { HasCut (C.is_before cut) self.old }
        requires callable { OfSought (C.is_sought cut) (C.is_before cut) (FnOnceTakesAtMut F.FnOnce change) self.old }
        requires keeps { OfSought (C.is_sought cut) (C.is_before cut) (KeepsLabel F.FnOnce change L.label_of) self.old }
        ensures changed { IfOk result (λ answer. IfSome answer (IsChanged (C.is_sought cut)
            (C.is_before cut) F.FnOnce change self.old self.new)) }
        ensures absent { IfOk result (λ answer. IfNone answer ((self.new ≡ self.old)
            × IsAbsent (C.is_sought cut) (C.is_before cut) self.old)) }
        ensures there { OnErr result (IsThere (C.is_sought cut) (C.is_before cut) self.old) }
        ensures refused { OnErr result (self.new ≡ self.old) }
    {
        let Change { cut, change } = match self.act(alloc, Change { cut, change }) {
            Ok(answer) => return Ok(answer),
            Err(act) => act,
        };
        match self.place(&cut) {
            Err(_) => Ok(None),
            Ok(at) => {
                let answer = self.modify_at(alloc, at, change)?;
                Ok(Some(answer))
            }
        }
    }

    /// Inserts `new` behind its cut: `appointments.put_in(alloc, appointment)?`. If the last item before the cut is the
    /// one that `new` seeks, replaces that item instead and returns what the replacement puts out. O(log n).
    ///
    /// # Errors
    ///
    /// `AllocError` if `insert` would return `Memory`. `new` is then dropped.
    pub fn put_in<P: Put<T, L>>(
        &mut self,
        alloc: Global,
        new: P,
    ) -> Result<Option<P::Old>, AllocError>
        requires copies { CopiesAreEqual T.is_clone }
        requires labels { CopiesAreEqual L.is_clone }
        requires cut { HasCut (P.is_before new) self.old }
        ensures replaced { IfOk result (λ old. IfSome old (IsReplaced (P.is_sought new)
            (P.is_before new) (P.replaced new) P.put_out self.old self.new)) }
        ensures added { IfOk result (λ old. IfNone old (IsAdded (P.is_sought new)
            (P.is_before new) self.old self.new (P.made new))) }
        ensures refused { OnErr result (self.new ≡ self.old) }
    {
        let new = match self.act(alloc, PutIn(new)) {
            Ok(old) => return Ok(old),
            Err(PutIn(new)) => new,
        };
        match self.place(&new) {
            Err(at) => {
                self.insert_at(alloc, at, new.into_item())?;
                Ok(None)
            }
            Ok(at) => {
                let old = self.modify_at(alloc, at, |item| new.replace(item))?;
                Ok(Some(old))
            }
        }
    }

    // Changes the item at an index that is known to have one, so that only memory can be lacking.
    #[inline(always)]
    pub(super) fn modify_at<R, F: FnOnce(&mut T) -> R>(
        &mut self,
        alloc: Global,
        index: usize,
        change: F,
    ) -> Result<R, AllocError>
        requires copies { CopiesAreEqual T.is_clone × CopiesAreEqual L.is_clone }
        requires there { index < length self.old }
        requires callable { ForSome (slice_get self.old index) (FnOnceTakesAtMut F.FnOnce change) }
        requires keeps { ForSome (slice_get self.old index) (KeepsLabel F.FnOnce change L.label_of) }
        ensures { MatchResult result (ChangesItem F.FnOnce change index self.old self.new) (λ _. self.new ≡ self.old) }
    {
        let Some(tree) = &mut self.root else {
            unreachable!()
        };
        tree.modify(alloc, index, change)
    }
}

impl<T: Clone, L: Label<T> + Clone> LabelledSequence<T, L> {
    // Changes the list in one pass. Returns `act` if a node on the path would get another form, or if there is no
    // memory.
    fn act<A: Act<T, L>>(&mut self, alloc: Global, act: A) -> Result<Option<A::Gone>, A>
        requires copies { CopiesAreEqual T.is_clone × CopiesAreEqual L.is_clone }
        requires cut { HasCut (A.Way.is_before (A.way act)) self.old }
        requires needs { OfSought (A.Way.is_sought (A.way act)) (A.Way.is_before (A.way act)) (A.needs act) self.old }
        ensures done { IfOk result
            (IsActed (A.Way.is_before (A.way act)) (A.does act) A.GROWS A.LOSES self.old self.new) }
        ensures blocked { OnErr result (self.new ≡ self.old) }
        ensures back { IfErr result (λ back. back ≡ act) }
    {
        let len = self.len;
        let Some(tree) = &mut self.root else {
            return Err(act);
        };
        if len <= 1 || len == usize::MAX {
            return Err(act);
        }
        let gone = tree.act(alloc, act, false)?;
        self.len = len_after::<T, L, A>(len, &gone);
        Ok(gone)
    }
}

impl<T, L: Label<T>> LabelledSequence<T, L> {
    // The index of the last item before the cut, if that item is the one that is sought. `Err` has the index behind it.
    fn place<C: Seek<T, L>>(&self, cut: &C) -> Result<usize, usize>
        requires cut { HasCut (C.is_before cut.now) self.now }
        ensures { MatchResult result (IsFound (C.is_sought cut.now) (C.is_before cut.now) self.now)
            (IsMissing (C.is_sought cut.now) (C.is_before cut.now) self.now) }
    {
        match self.find(cut) {
            None => Err(0),
            Some((at, item)) if cut.is_sought(item) => Ok(at),
            Some((at, _)) => {
                // For the proof: its clause says that there are fewer than a number can count.
                let _ = self.len();
                Err(at + 1)
            }
        }
    }
}
