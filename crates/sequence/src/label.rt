//! The separator keys that a branch keeps of its items, by which a list is searched.
ghost use Rattle.std.specs.Prelude.{◌≡◌, IfOk};
ghost use Rattle.handles.specs.Copies.{CopiesAreEqual};

use std::alloc::AllocError;

/// The separator key that a branch keeps of the first item under each child: `impl Label<Appointment> for Time { .. }`
/// for a `LabelledSequence<Appointment, Time>`.
///
/// `Label` is only a bound of the list and of its nodes, and has no method. `NewLabel` makes the separator keys.
pub trait Label<T> {
    ghost label_of: { T → Self };
}

/// A separator key that can be made from an item: `impl NewLabel<Appointment> for Time { .. }`.
pub trait NewLabel<T>: Label<T> + Clone {
    /// Returns the separator key of `item`.
    fn new(item: &T) -> Result<Self, AllocError>
        ensures { CopiesAreEqual Self.is_clone → IfOk result (λ label. label ≡ Self.label_of item.now) };
}

/// No separator key, for a list that is read by index alone: a `Sequence<T>` dereferences to a
/// `LabelledSequence<T, Unlabelled>`. It takes no room.
#[derive(Clone, Copy)]
pub struct Unlabelled;

impl<T> Label<T> for Unlabelled {
    ghost label_of = { λ _. record {} };
}

impl<T> NewLabel<T> for Unlabelled {
    #[inline(always)]
    fn new(_item: &T) -> Result<Unlabelled, AllocError> {
        Ok(Unlabelled)
    }
}
