//! Writing through the only handle of a block.
ghost use Rattle.std.specs.Prelude.{◌≡◌, IfOk, IfErr, OnOk, OnErr, true, false};
ghost use types.Logic.{sem};
ghost use Rattle.handles.specs.Inside.BlockWriteBack.{LendsIfAlone};
ghost use Rattle.handles.specs.Inside.Blocks.{known_log};
ghost use Rattle.handles.specs.Copies.{SameOrCopy};
ghost use Rattle.handles.specs.Attempts.{IsAnswerOf};
ghost use Rattle.counting_word.specs.CountingWord.{is_one_handle};
ghost use Rattle.counting_word.specs.WordSteps.{reads_for_unique};

use super::{Block, Handle, Logged, RawBox};
use counting_word::is_alone;
use std::alloc::{AllocError, Global};

impl<T> Handle<T> {
    #[inline]
    fn is_sole(&mut self) -> (bool, Logged)
        ensures sole { self.new ≡ record self.old { sole = result.0; log = known_log result.0 result.1.log } }
        ensures log { IsAnswerOf self.old reads_for_unique is_one_handle result.0 result.1 }
    {
        let (word, logged) = self.read_for_unique();
        (is_alone(word), logged)
    }

    // Lends the value, if this is the only handle of the block.
    #[inline]
    pub(crate) fn get_mut(&mut self) -> Result<&mut T, Logged>
        ensures* writes_back { sem 𝓛 (LendsIfAlone T.row self.entry result) }
        ensures value { IfOk result (λ x. x.now ≡ self.old.held.value) }
        ensures shared { IfErr result (IsAnswerOf self.old reads_for_unique is_one_handle false) }
    {
        let (is_sole, logged) = self.is_sole();
        if is_sole {
            Ok(self.value_mut())
        } else {
            Err(logged)
        }
    }

    // Returns the block, if this is its only handle, and the unchanged handle otherwise.
    pub(crate) fn into_block(mut self) -> Result<Box<Block<T>>, (Handle<T>, Logged)>
    where
        T: Drop,
        ensures alone { IfOk result (λ b. (b.value.word ≡ 1) × (b.value.held ≡ self.held)) }
        ensures shared { IfErr result (λ h. (h.0.held ≡ self.held) × (h.0.sole ≡ false) × (h.0.id ≡ self.id)) }
        ensures log { IfErr result (λ h. IsAnswerOf self reads_for_unique is_one_handle false h.1) }
    {
        let (is_sole, logged) = self.is_sole();
        if !is_sole {
            return Err((self, logged));
        }
        Ok(self.into_permit().into_raw_box().into_box())
    }

    // Moves the handle to a block of its own, unless it is the only handle of its block.
    #[inline(always)]
    pub(crate) fn make_sole(&mut self, alloc: Global) -> Result<(), AllocError>
    where
        T: Clone + Drop,
        ensures sole { OnOk result (self.new.sole ≡ true) }
        ensures copy { OnOk result (SameOrCopy T.is_clone self.old.held.value self.new.held.value) }
        ensures limit { self.new.held.limit ≡ self.old.held.limit }
        ensures refused { OnErr result ((self.new.held ≡ self.old.held) × (self.new.sole ≡ false)) }
    {
        if self.is_sole().0 {
            return Ok(());
        }
        self.move_to_copy(alloc)
    }

    // Moves the handle to a new block with a clone of the value. The value is cloned before anything else changes.
    // This is a function of its own, so that `make_sole` is short enough to be inlined.
    fn move_to_copy(&mut self, alloc: Global) -> Result<(), AllocError>
    where
        T: Clone + Drop,
        ensures sole { OnOk result (self.new.sole ≡ true) }
        ensures copy { OnOk result (T.is_clone self.old.held.value self.new.held.value) }
        ensures limit { self.new.held.limit ≡ self.old.held.limit }
        ensures refused { OnErr result (self.new ≡ self.old) }
    {
        let copy = self.value().clone()?;
        let Ok(block) = Block::boxed(alloc, copy, self.held().limit) else {
            return Err(AllocError);
        };
        *self = Handle::first(RawBox::of(block));
        Ok(())
    }
}
