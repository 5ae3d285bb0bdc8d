//! The rights that a step on the word of a block leaves to its caller.
ghost use Rattle.std.specs.Prelude.{◌≡◌, ℕ, List, false};
ghost use Rattle.counting_word.specs.WordSteps.{lowers};
ghost use Rattle.counting_word.specs.Logs.{Entry, made};
ghost use Rattle.counting_word.specs.Codes.{coded_log, coded_right};
ghost use Rattle.counting_word.specs.Tallies.{Adds};
ghost use Rattle.counting_word.specs.Rights.{Right, nothing, a_handle, to_lower, whole_block};
ghost use Rattle.counting_word.specs.Rights.{IsWholeBlock, right_by_lower};
ghost use Rattle.handles.specs.Inside.Blocks.{BlockId, coded_id, permit_owns, reached};
ghost use Rattle.handles.specs.declared.block.Held.{Held};

use super::{Block, Handle, Held, RawBox};
use std::marker::{Brand, Model};
use std::sync::atomic::Ordering::SeqCst;
use std::sync::atomic::raw;

// The right that a step left to its caller. It cannot be dropped: one of the calls below has to use it, or a raise.
pub(crate) struct Permit<T> {
    pub(super) block: *const Block<T>,
    pub(crate) ghost held: { Held T },
    pub(crate) ghost right: { Right } by { coded_right },
    pub(crate) ghost id: { BlockId } by { coded_id },
    // The handle that the right is to: the newborn one, or the one whose drop is in flight.
    pub(crate) ghost number: { ℕ },
    // The log of the block, up to this step.
    pub(crate) ghost log: { List Entry } by { coded_log },
}

impl<T> Model for Permit<T> {
    ghost also_owns = { λ p. permit_owns T.row p.block p.held p.id p.number p.right p.log };
}

// Evidence that the log of the block with this id began with these entries. It names no step, and takes no bytes.
#[derive(Drop)]
pub(crate) struct Logged {
    pub(crate) ghost id: { BlockId } by { coded_id },
    pub(crate) ghost log: { List Entry } by { coded_log },
}

impl Model for Logged {
    ghost also_owns = { λ l. reached l.id l.log };
}

impl<T> Permit<T> {
    // Keeps the log of a step that left no right.
    #[inline]
    pub(crate) fn into_logged(self) -> Logged
        requires { self.right ≡ nothing }
        ensures id { result.id ≡ self.id }
        ensures log { result.log ≡ self.log }
    {
        let Permit { block: _ } = self;
        Logged {}
    }

    #[inline]
    pub(crate) fn into_handle(self) -> Handle<T>
        requires { self.right ≡ a_handle }
        ensures held { result.held ≡ self.held }
        ensures sole { result.sole ≡ false }
        ensures id { result.id ≡ self.id }
        ensures number { result.number ≡ self.number }
    {
        let Permit { block } = self;
        Handle { block }
    }

    #[inline]
    pub(crate) fn lower(self) -> (u64, Permit<T>)
        requires { self.right ≡ to_lower }
        ensures right { result.1.right ≡ right_by_lower result.0 }
        ensures held { result.1.held ≡ self.held }
        ensures id { result.1.id ≡ self.id }
        ensures log { Adds self.held.limit.count self.log (made self.number lowers) result.0 result.1.log }
    {
        let Permit { block } = self;
        let found = unsafe { raw::fetch_sub::<Brand>(&raw const (*block).word, 1, SeqCst) };
        (found, Permit { block })
    }

    pub(crate) fn into_raw_box(self) -> RawBox<Block<T>>
        requires { IsWholeBlock self.right }
        ensures held { result.value.held ≡ self.held }
        ensures right { self.right ≡ whole_block result.value.word }
    {
        let Permit { block } = self;
        let at = block.cast_mut();
        let alloc = unsafe { (*at).alloc };
        RawBox { at, alloc }
    }
}
