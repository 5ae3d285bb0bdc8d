//! A block that is marked for good, and the handles that it gives without a count.
ghost use Rattle.std.specs.Prelude.{◌≡◌, IfOk, IfErr, true, false};
ghost use base.Fml.{ffalse};
ghost use Rattle.counting_word.specs.CountingWord.{is_marked_word, marked_word};
ghost use Rattle.counting_word.specs.WordSteps.{asks};
ghost use Rattle.handles.specs.Attempts.{IsAnswerOf, IsMarking};
ghost use Rattle.handles.specs.Inside.Marked.{HasMark, IsKnownBy, Staying, born_static, marked_shares};

use super::{Block, Handle, Held, Logged, RawBox};
use std::marker::{Move, Owns};

// No `Marked` is ever owned. A `&` to one says that the block there is marked, so that the block is never freed. To
// the log that reference is a handle that never ends. The field is not read. It is a pointer, since a block would be
// a value `T`, through which no type leads back to itself.
pub(crate) struct Marked<T> {
    _block: *const Block<T>,
}

impl<T> Owns for Marked<T> {
    ghost Value = { Staying T };

    ghost shr_at = { λ x p κ. marked_shares T.row p x κ };
}

impl<T> Move for Marked<T> {
    ghost own_val = { λ _ _. ffalse };
}

unsafe impl<T: Send + Sync> Sync for Marked<T> {}

impl<T> Marked<T> {
    // Makes the reference to a new block, which is marked before it is shared.
    pub(crate) fn of<'a>(block: RawBox<Block<T>>) -> &'a Marked<T>
    where
        T: 'a,
        requires { block.value.word ≡ marked_word 1 }
        ensures { (result.now.held ≡ block.value.held) × (result.now.known_by.log ≡ born_static) }
    {
        let RawBox { at, alloc: _ } = block;
        unsafe { &*(at as *const Marked<T>) }
    }

    #[inline]
    pub(crate) fn held(&self) -> &Held<T>
        ensures { result.now ≡ self.now.held }
    {
        let block = self as *const Marked<T> as *const Block<T>;
        unsafe { &(*block).held }
    }

    #[inline]
    pub(crate) fn value(&self) -> &T
        ensures { result.now ≡ self.now.held.value }
    {
        &self.held().value
    }

    // Makes another handle with no step on the word. In the log stands the load that the handle is spared.
    #[inline]
    pub(crate) fn handle(&self) -> Handle<T>
        ensures held { result.held ≡ self.now.held }
        ensures sole { result.sole ≡ false }
        ensures id { result.id ≡ self.now.known_by.id }
    {
        let block = self as *const Marked<T> as *const Block<T>;
        Handle { block }
    }
}

impl<T> Handle<T> {
    // Makes the reference from a step of any handle of the block that found the mark. It makes no step itself.
    pub(crate) fn marked_by<'a>(&self, known: Logged) -> &'a Marked<T>
    where
        T: 'a,
        requires shared { self.now.sole ≡ false }
        requires block { known.id ≡ self.now.id }
        requires mark { HasMark known.log }
        ensures { IsKnownBy self.now known.log result.now }
    {
        let Logged {} = known;
        let block = self.block;
        unsafe { &*(block as *const Marked<T>) }
    }

    pub(crate) fn to_marked<'a>(&self) -> &'a Marked<T>
    where
        T: 'a,
        requires { self.now.sole ≡ false }
        ensures held { result.now.held ≡ self.now.held }
        ensures log { IsMarking self.now result.now.known_by }
    {
        self.marked_by(self.mark().1)
    }

    // Makes the reference if one load of the word finds the mark. Both answers name that load.
    pub(crate) fn find_marked<'a>(&self) -> Result<&'a Marked<T>, Logged>
    where
        T: 'a,
        requires { self.now.sole ≡ false }
        ensures held { IfOk result (λ m. m.now.held ≡ self.now.held) }
        ensures found { IfOk result (λ m. IsAnswerOf self.now asks is_marked_word true m.now.known_by) }
        ensures none { IfErr result (IsAnswerOf self.now asks is_marked_word false) }
    {
        let (is_marked, logged) = self.is_marked();
        if is_marked {
            Ok(self.marked_by(logged))
        } else {
            Err(logged)
        }
    }
}
