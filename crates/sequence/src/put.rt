//! Insertion or replacement at a cut.
ghost use Rattle.std.specs.Prelude.{◌≡◌};

use crate::cut::Seek;
use crate::label::Label;

/// A value to insert behind its cut, or to put into the item there if that is the one that it seeks:
/// `impl Put<Appointment, Time> for Appointment { .. }`.
pub trait Put<T, L: Label<T>>: Seek<T, L> + Drop {
    /// The part of an item that a replacement puts out.
    type Old: Drop;

    // The item that it becomes, what it makes of an item, and what it puts out of it.
    ghost made: { Self → T };

    ghost replaced: { Self → T → T };

    ghost put_out: { T → Self.Old };

    /// Returns the item to insert behind the cut.
    fn into_item(self) -> T
        ensures { result ≡ made self };

    /// Puts the value into the item that it seeks, whose separator key stays, and returns the old part.
    fn replace(self, item: &mut T) -> Self::Old
        ensures old { result ≡ put_out item.old }
        ensures item { item.new ≡ replaced self item.old }
        ensures label { L.label_of item.new ≡ L.label_of item.old };
}
