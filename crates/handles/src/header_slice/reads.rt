//! Reading the items of a header slice one by one.
ghost use Rattle.std.specs.Prelude.{◌≡◌, ◌<◌, ◌^◌, length, slice_index_or};
ghost use Rattle.std.specs.Iterator.Adapters.{IterYieldsInOrder, IterYieldsInReverse};
ghost use Rattle.std.specs.Slice.Iter.{iter_rest};

use super::HeaderSlice;
use std::ops::Index;
use std::slice::Iter;

/// Returns the item at the index, which must be below `len()`: `slice[0]`. O(1).
impl<H, T> Index<usize> for HeaderSlice<H, T> {
    type Output = T;

    ghost can_index = { λ s i. i < length s.items };

    ghost index_gives = { λ s i x. x ≡ slice_index_or s.items i x };

    #[inline]
    fn index(&self, i: usize) -> &T {
        &self.slice()[i]
    }
}

impl<H, T> HeaderSlice<H, T> {
    /// Returns an iterator over the items, from the front or the back: `slice.iter()`.
    #[inline]
    pub fn iter(&self) -> Iter<'_, T>
        ensures rest { iter_rest result ≡ self.now.items }
        ensures len { length (iter_rest result) ≡ length self.now.items }
        ensures bound { length (iter_rest result) < 2 ^ 64 }
        ensures runs { IterYieldsInOrder T }
        ensures runs_back { IterYieldsInReverse T }
    {
        self.slice().iter()
    }
}

/// Iterates over the items from first to last: `for x in &*slice`. In a crate that names `servo_arc` in crates.txt
/// and not `handles`, write `slice.iter()`.
impl<'a, H, T> IntoIterator for &'a HeaderSlice<H, T> {
    type Item = &'a T;

    type IntoIter = Iter<'a, T>;

    ghost into_iter_gives = { λ s it.
        (iter_rest it ≡ s.now.items) × (length (iter_rest it) < 2 ^ 64) × IterYieldsInOrder T };

    #[inline]
    fn into_iter(self) -> Iter<'a, T> {
        self.iter()
    }
}
