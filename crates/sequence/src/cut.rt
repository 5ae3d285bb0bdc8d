//! Cuts of a list: its partition points.
ghost use Rattle.std.specs.Prelude.{◌≡◌, Bool};

use crate::label::Label;

/// A monotone predicate on the items of a list (as for `partition_point`): true for a number of first items and false
/// for all others, as `HasCut` says, which each call with a cut requires.
/// `impl Cut<Appointment, Time> for Time { .. }`.
pub trait Cut<T, L: Label<T>> {
    // Whether the item is one of the first.
    ghost is_before: { Self → T → Bool };

    /// Returns `true` if the item is before the cut.
    fn item(&self, item: &T) -> bool
        ensures { result ≡ is_before self.now item.now };

    /// Returns `true` if the items with this separator key are before the cut.
    fn label(&self, label: &L) -> bool
        ensures { (item : T) → L.label_of item ≡ label.now → result ≡ is_before self.now item };
}

/// A cut with an item to find: only the last item before the cut is compared with the one that is sought.
pub trait Seek<T, L: Label<T>>: Cut<T, L> {
    // Whether the item is the one.
    ghost is_sought: { Self → T → Bool };

    /// Returns `true` if the item is the one that is sought.
    fn is_sought(&self, item: &T) -> bool
        ensures { result ≡ is_sought self.now item.now };
}
