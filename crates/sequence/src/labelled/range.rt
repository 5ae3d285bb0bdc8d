//! The items whose indices are within bounds.
ghost use Rattle.std.specs.Prelude.{◌≡◌, min};
ghost use Rattle.std.specs.Map.Iter.{ShowsInOrder, deref};
ghost use Rattle.std.specs.Range.Bound.{bound_map};
ghost use Rattle.sequence.specs.Bounds.{items_within, end_of, start_of};

use crate::iter::Iter;
use crate::label::Label;
use crate::labelled::LabelledSequence;
use std::ops::{Bound, RangeBounds};

impl<T, L: Label<T>> LabelledSequence<T, L> {
    /// Returns an iterator over the items whose indices are within `numbers`: `list.range(at..end)`. A range that ends
    /// behind the last item has fewer items, and one that ends before it starts has none. O(1), and O(log n) for the
    /// first step at each end.
    #[tactic(auto, using(crate::proofs::Lists::Within::within))]
    pub fn range<R: RangeBounds<usize>>(&self, numbers: R) -> Iter<'_, T, L>
        ensures items { R.has_bounds numbers
            → result ≡ items_within (R.start_bound numbers) (R.end_bound numbers) self.now }
        ensures runs { ShowsInOrder (deref {X = T}) }
    {
        let len = self.len();
        let from = first_within(numbers.start_bound(), len);
        let to = past_within(numbers.end_bound(), len).max(from);
        Iter::between(self.root.as_ref(), from, to)
    }
}

// The first index within the bound, but at most `len`.
fn first_within(start: Bound<&usize>, len: usize) -> usize
    ensures { result ≡ min (start_of (bound_map (λ number. number.now) start.entry)) len }
{
    match start {
        Bound::Included(number) => len.min(*number),
        Bound::Excluded(number) if *number < len => *number + 1,
        Bound::Excluded(_) => len,
        Bound::Unbounded => 0,
    }
}

// The first index past the bound, but at most `len`.
fn past_within(end: Bound<&usize>, len: usize) -> usize
    ensures { result ≡ min (end_of (bound_map (λ number. number.now) end.entry) len) len }
{
    match end {
        Bound::Included(number) if *number < len => *number + 1,
        Bound::Included(_) => len,
        Bound::Excluded(number) => len.min(*number),
        Bound::Unbounded => len,
    }
}
