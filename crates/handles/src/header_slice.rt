//! Header slices: a header and a list of items, which a builder takes from an iterator.
ghost use Rattle.std.specs.Prelude.{◌≡◌, ◌==◌, ◌&&◌, length};
ghost use Rattle.std.specs.Borrow.{sem};
ghost use Rattle.std.specs.Cmp.Lexicographic.{pointwise};
ghost use Rattle.handles.specs.HeaderSlice.Laws.{slices_per, slices_equiv};

mod build;
mod items;
mod lists;
mod makers;
mod order;
mod places;
mod reads;
mod text;

use crate::arc::Arc;
pub use build::BuildError;
use items::Items;
use std::fmt;
use std::marker::Model;
pub use text::ThinStr;

/// A shared header slice behind one pointer: `Arc::from_header_and_slice(alloc, 100, &[5, 6])?`.
pub type ThinArc<H, T> = Arc<HeaderSlice<H, T>>;

/// A header and a fixed number of items, such as a rule and its declarations: `slice.header`, `slice.slice()`.
///
/// Items are neither added nor removed. Only the builders of `Arc` and `UniqueArc` make a header slice. The items are
/// in an allocation of their own, beside that of the block.
pub struct HeaderSlice<H, T> {
    /// The header, which can be written through a `&mut` to the slice.
    pub header: H,
    items: Items<T>,
}

impl<H, T> Model for HeaderSlice<H, T> {
    ghost use Rattle.handles.specs.HeaderSlice.{HeaderAndItems};

    ghost Value = { HeaderAndItems H T };

    ghost view = { λ s. record { header = s.header; items = s.items.items } };
}

impl<H, T> HeaderSlice<H, T> {
    ghost use Rattle.handles.specs.HeaderSlice.Lending.{LendsItems};

    /// Returns the items, in the order in which the builder took them: `slice.slice()`.
    #[inline]
    pub fn slice(&self) -> &[T]
        ensures { result.now ≡ self.now.items }
    {
        self.items.slice()
    }

    /// Returns the items to write to: `slice.slice_mut()`. Their number stays.
    #[inline]
    pub fn slice_mut(&mut self) -> &mut [T]
        ensures* writes_back { sem 𝓛 (LendsItems H.row T.row self.entry result) }
        ensures value { result.now ≡ self.old.items }
    {
        self.items.slice_mut()
    }

    /// Returns the number of items: `slice.len()`.
    #[inline]
    pub fn len(&self) -> usize
        ensures { result ≡ length self.now.items }
    {
        self.slice().len()
    }

    /// Returns `true` if there are no items: `slice.is_empty()`.
    #[inline]
    pub fn is_empty(&self) -> bool
        ensures { result ≡ (length self.now.items == 0) }
    {
        self.slice().is_empty()
    }
}

/// Drops the items from first to last, and then the header.
impl<H: Drop, T: Drop> Drop for HeaderSlice<H, T> {
    fn drop(self) {
        let HeaderSlice { header, items } = self;
        drop(items);
        drop(header);
    }
}

impl<H: PartialEq, T: PartialEq> PartialEq for HeaderSlice<H, T> {
    ghost eq = { λ x y. H.eq x.header y.header && pointwise T.eq x.items y.items };

    ghost laws = { slices_per H.laws T.laws };

    fn eq(&self, other: &HeaderSlice<H, T>) -> bool {
        self.header == other.header && self.slice() == other.slice()
    }
}

impl<H: Eq, T: Eq> Eq for HeaderSlice<H, T> {
    ghost laws = { slices_equiv H.Eq.laws T.Eq.laws };
}

impl<H: fmt::Debug, T: fmt::Debug> fmt::Debug for HeaderSlice<H, T> {
    fn fmt<W: fmt::Write>(&self, f: &mut fmt::Formatter<W>) -> fmt::Result {
        f.debug_struct("HeaderSlice")
            .field("header", &self.header)
            .field("slice", &self.slice())
            .finish()
    }
}
