//! A counted handle of a block.
ghost use Rattle.std.specs.Prelude.{◌≡◌, ◌<◌, ◌+◌, ℕ, List, [], Bool, true, false, IfOk, IfErr};
ghost use types.Logic.{sem};
ghost use Rattle.counting_word.specs.CountingWord.{is_one_handle, is_marked_word, IsWithin};
ghost use Rattle.counting_word.specs.WordSteps.{reads, asks, raises_from, reads_for_drop, reads_for_unique, marks};
ghost use Rattle.counting_word.specs.Logs.{Entry, made};
ghost use Rattle.counting_word.specs.Codes.{coded_log};
ghost use Rattle.counting_word.specs.Tallies.{Adds, newest};
ghost use Rattle.counting_word.specs.Rights.{nothing, whole_block, right_by_read, right_by_raise, right_by_drop_read};
ghost use Rattle.handles.specs.Inside.Blocks.{BlockId, coded_id, known_log, handle_owns, handle_shares};
ghost use Rattle.handles.specs.Founds.{DropOver, HasFound};
ghost use Rattle.handles.specs.declared.block.Held.{Held};

use super::{Block, Held, Logged, Permit, RawBox};
use atomic_table::exchange;
use counting_word::{DropPlan, MARK, is_alone, is_last, is_marked, plan_drop};
use std::marker::{Brand, Model};
use std::sync::atomic::Ordering::SeqCst;
use std::sync::atomic::raw;

pub(crate) struct Handle<T> {
    pub(super) block: *const Block<T>,
    pub(crate) ghost held: { Held T },
    // Whether the handle is known to be the only one of its block.
    pub(crate) ghost sole: { Bool },
    // Which block it is of: the names of its log and of its passes.
    pub(crate) ghost id: { BlockId } by { coded_id },
    // Which of the block's handles it is: they are numbered by birth, from 0.
    pub(crate) ghost number: { ℕ },
    // The log of the block, if the handle is known to be the only one.
    pub(crate) ghost log: { List Entry } by { coded_log },
}

impl<T> Model for Handle<T> {
    ghost also_owns = { λ h. handle_owns T.row h.block h.held h.id h.number h.sole h.log };

    ghost also_shares = { λ h _ κ. handle_shares T.row h.block h.held h.id h.number h.sole κ };
}

impl<T> Handle<T> {
    // Makes the only handle of a new block.
    pub(crate) fn first(block: RawBox<Block<T>>) -> Handle<T>
        requires { block.value.word ≡ 1 }
        ensures held { result.held ≡ block.value.held }
        ensures sole { result.sole ≡ true }
        ensures number { result.number ≡ 0 }
        ensures log { result.log ≡ [] }
    {
        let RawBox { at, alloc: _ } = block;
        Handle { block: at }
    }

    #[inline]
    pub(crate) fn held(&self) -> &Held<T>
        ensures { result.now ≡ self.now.held }
    {
        let block = self.block;
        unsafe { &(*block).held }
    }

    #[inline]
    pub(crate) fn value(&self) -> &T
        ensures { result.now ≡ self.now.held.value }
    {
        &self.held().value
    }

    // Loads the word, which other threads may change at once.
    #[inline]
    pub(crate) fn word(&self) -> (u64, Logged)
        requires { self.now.sole ≡ false }
        ensures id { result.1.id ≡ self.now.id }
        ensures log { Adds self.now.held.limit.count [] (made self.now.number asks) result.0 result.1.log }
    {
        let block = self.block;
        let asked = unsafe { raw::load::<Brand>(&raw const (*block).word, SeqCst) };
        (asked, Logged {})
    }

    // Loads the word, by which the handle knows whether it is the only one.
    #[inline]
    pub(super) fn read_for_unique(&mut self) -> (u64, Logged)
        ensures sole { self.new ≡ record self.old {
          sole = is_one_handle result.0;
          log = known_log (is_one_handle result.0) result.1.log;
        } }
        ensures id { result.1.id ≡ self.old.id }
        ensures log { Adds self.old.held.limit.count [] (made self.old.number reads_for_unique) result.0 result.1.log }
    {
        let block = self.block;
        let found = unsafe { raw::load::<Brand>(&raw const (*block).word, SeqCst) };
        (found, Logged {})
    }

    #[inline]
    pub(crate) fn read(&self) -> (u64, Permit<T>)
        requires { self.now.sole ≡ false }
        ensures right { result.1.right ≡ right_by_read result.0 }
        ensures held { result.1.held ≡ self.now.held }
        ensures within { IsWithin result.0 self.now.held.limit.count }
        ensures block { result.1.block ≡ self.now.block }
        ensures id { result.1.id ≡ self.now.id }
        ensures number { result.1.number ≡ newest result.1.log }
        ensures log { Adds self.now.held.limit.count [] (made self.now.number reads) result.0 result.1.log }
    {
        let block = self.block;
        let word = unsafe { raw::load::<Brand>(&raw const (*block).word, SeqCst) };
        (word, Permit { block })
    }

    // Makes the compare-exchange of a clone, by the pointer of the permit, which is at hand.
    #[inline]
    pub(crate) fn raise(&self, seen: u64, next: u64, permit: Permit<T>) -> (u64, Permit<T>)
        requires shared { self.now.sole ≡ false }
        requires room { seen < self.now.held.limit.count }
        requires next { next ≡ seen + 1 }
        requires block { permit.block ≡ self.now.block }
        requires right { permit.right ≡ nothing }
        requires id { permit.id ≡ self.now.id }
        requires found { HasFound self.now.number seen permit.log }
        ensures right { result.1.right ≡ right_by_raise seen result.0 }
        ensures held { result.1.held ≡ self.now.held }
        ensures within { IsWithin result.0 self.now.held.limit.count }
        ensures block { result.1.block ≡ self.now.block }
        ensures id { result.1.id ≡ self.now.id }
        ensures number { result.1.number ≡ newest result.1.log }
        ensures log { Adds self.now.held.limit.count permit.log
            (made self.now.number (raises_from seen)) result.0 result.1.log }
    {
        let Permit { block } = permit;
        let found = unsafe { exchange::<Brand>(&raw const (*block).word, seen, next) };
        (found, Permit { block })
    }

    #[inline]
    pub(crate) fn mark(&self) -> (u64, Logged)
        requires { self.now.sole ≡ false }
        ensures id { result.1.id ≡ self.now.id }
        ensures log { Adds self.now.held.limit.count [] (made self.now.number marks) result.0 result.1.log }
    {
        let block = self.block;
        let found = unsafe { raw::fetch_or::<Brand>(&raw const (*block).word, MARK, SeqCst) };
        (found, Logged {})
    }

    pub(crate) fn stamp(&self) -> u64
        requires { self.now.sole ≡ false }
    {
        let block = self.block;
        unsafe { raw::load::<Brand>(&raw const (*block).stamp, SeqCst) }
    }

    // Adds to the stamp, which wraps, and returns the old stamp.
    pub(crate) fn add_to_stamp(&self, amount: u64) -> u64
        requires { self.now.sole ≡ false }
    {
        let block = self.block;
        unsafe { raw::fetch_add::<Brand>(&raw const (*block).stamp, amount, SeqCst) }
    }

    // Forgets that the handle is the only one, so that it can be cloned and lent.
    pub(crate) fn into_shared(self) -> Handle<T>
        ensures held { result.held ≡ self.held }
        ensures sole { result.sole ≡ false }
        ensures id { result.id ≡ self.id }
        ensures number { result.number ≡ self.number }
    {
        let Handle { block } = self;
        Handle { block }
    }

    // Turns the only handle into the right to the whole block.
    #[inline]
    pub(super) fn into_permit(self) -> Permit<T>
        requires { self.sole ≡ true }
        ensures right { result.right ≡ whole_block 1 }
        ensures held { result.held ≡ self.held }
        ensures id { result.id ≡ self.id }
        ensures log { result.log ≡ self.log }
    {
        let Handle { block } = self;
        Permit { block }
    }

    #[inline]
    pub(crate) fn read_for_drop(self) -> (u64, Permit<T>)
        ensures right { result.1.right ≡ right_by_drop_read result.0 }
        ensures held { result.1.held ≡ self.held }
        ensures id { result.1.id ≡ self.id }
        ensures number { result.1.number ≡ self.number }
        ensures log { Adds self.held.limit.count [] (made self.number reads_for_drop) result.0 result.1.log }
    {
        let Handle { block } = self;
        let word = unsafe { raw::load::<Brand>(&raw const (*block).word, SeqCst) };
        (word, Permit { block })
    }
}

impl<T> Handle<T> {
    ghost use Rattle.handles.specs.Attempts.{IsAnswerOf};

    // Returns whether this is the only handle of an unmarked block, by one load.
    #[inline]
    pub(crate) fn is_only(&self) -> (bool, Logged)
        requires { self.now.sole ≡ false }
        ensures { IsAnswerOf self.now asks is_one_handle result.0 result.1 }
    {
        let (word, logged) = self.word();
        (is_alone(word), logged)
    }

    // Returns whether the block is marked, by one load.
    #[inline]
    pub(crate) fn is_marked(&self) -> (bool, Logged)
        requires { self.now.sole ≡ false }
        ensures { IsAnswerOf self.now asks is_marked_word result.0 result.1 }
    {
        let (word, logged) = self.word();
        (is_marked(word), logged)
    }
}

impl<T> Handle<T> {
    ghost use Rattle.handles.specs.Inside.BlockWriteBack.{LendsSole};

    // Lends the value and not the limit, since the log of the block depends on the limit.
    #[inline]
    pub(crate) fn value_mut(&mut self) -> &mut T
        requires { self.old.sole ≡ true }
        ensures* writes_back { sem 𝓛 (LendsSole T.row self.entry result) }
        ensures value { result.now ≡ self.old.held.value }
    {
        let block = self.block;
        unsafe { &mut (*block.cast_mut()).held.value }
    }
}

impl<T: Drop> Handle<T> {
    // Ends the handle, and returns the block if that was its last handle. Inlined, so that a drop builds no `Result`.
    #[inline(always)]
    pub(crate) fn end(self) -> Result<Box<Block<T>>, Logged>
        ensures last { IfOk result (λ block. block.value.held ≡ self.held) }
        ensures ended { IfErr result (λ logged.
            (logged.id ≡ self.id) × DropOver self.held.limit.count self.number logged.log) }
    {
        let (word, permit) = self.read_for_drop();
        match plan_drop(word) {
            DropPlan::Static => Err(permit.into_logged()),
            DropPlan::Lower => {
                let (found, permit) = permit.lower();
                if is_last(found) {
                    Ok(permit.into_raw_box().into_box())
                } else {
                    Err(permit.into_logged())
                }
            }
        }
    }
}

impl<T: Drop> Drop for Handle<T> {
    fn drop(self) {
        drop(self.end());
    }
}

unsafe impl<T: Send + Sync> Send for Handle<T> {}

unsafe impl<T: Send + Sync> Sync for Handle<T> {}
