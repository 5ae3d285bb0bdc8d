//! `CowTable`, a list in shared pages.
ghost use Rattle.std.specs.Prelude.{◌≡◌, ◌-◌, ◌<◌, ◌≤◌, ◌↔◌, [], Err, IfOk, IsSome, IsTrue};
ghost use Rattle.std.specs.Prelude.{OnErr, OnOk, length, slice_get, slice_index_or, slice_set, vec_len};
ghost use Rattle.std.specs.Option.{option_copied};
ghost use Rattle.std.specs.Vec.{vec_items};
ghost use types.Logic.{sem};
ghost use Rattle.handles.specs.Copies.{CopiesAreEqual};
ghost use Rattle.cow_table.specs.Lending.{LendsPage};

use crate::page_length::PageLength;
use crate::paging::in_pages;
use handles::arc::Arc;
use handles::place::PlaceError;
use std::alloc::{AllocError, Global};
use std::marker::Model;
use std::ops::Index;

/// A list of a fixed length in pages, for many versions (snapshots) of a long list:
/// `CowTable::from_items(alloc, items, 64)?`.
///
/// A clone takes O(1) and shares all pages. `table.set(alloc, i, value)?` copies one page, and no other version sees
/// the change. A list that grows is a `Sequence`, of the crate `sequence`. To iterate, read `table[i]` for each `i`
/// below `table.len()`.
///
/// The items must not have interior mutability. What a cell, a lock or an atomic holds can be written through a
/// shared handle: every version that shares the item then reads the change, and no contract speaks of it.
#[derive(Drop)]
pub struct CowTable<T> {
    pub(crate) pages: Arc<Vec<Arc<Vec<T>>>>,
    pub(crate) len: usize,
    page_length: PageLength,
}

impl<T> Model for CowTable<T> {
    ghost use Rattle.std.specs.Prelude.{List};
    ghost use Rattle.cow_table.specs.Pages.{items_of, ArePages};

    ghost Value = { List T };

    ghost view = { λ t. items_of t.pages.items };

    ghost invariant = { λ t. ArePages t.page_length.items t.len t.pages.items };
}

impl<T: Drop> CowTable<T> {
    /// Creates a table of the items, in pages of `page_len` items: `CowTable::from_items(alloc, items, 64)?`. The
    /// last page may be shorter. The items are moved, in O(n). Each page takes two allocations, and so does the list
    /// of pages.
    ///
    /// # Errors
    ///
    /// Returns `AllocError` if an allocation fails, and drops the items.
    pub fn from_items(
        alloc: Global,
        items: Vec<T>,
        page_len: usize,
    ) -> Result<CowTable<T>, AllocError>
        requires { 0 < page_len }
        ensures { IfOk result (λ table. table ≡ items.items) }
    {
        let len = items.len();
        let pages = in_pages(alloc, items, page_len)?;
        Ok(CowTable {
            pages: Arc::try_new(alloc, pages)?,
            len,
            page_length: PageLength::new(page_len),
        })
    }
}

/// Creates a version (snapshot) of the table, by one increment of a count: `table.clone()?`. Nothing is copied or
/// allocated.
///
/// # Errors
///
/// Returns `AllocError` as the `clone` of an `Arc` does: at the limit of the count, or if 64 compare-exchanges in a
/// row lost to other threads.
impl<T: Drop> Clone for CowTable<T> {
    ghost is_clone = { λ a b. b ≡ a };

    fn clone(&self) -> Result<CowTable<T>, AllocError> {
        Ok(CowTable {
            pages: self.pages.clone()?,
            len: self.len,
            page_length: self.page_length,
        })
    }
}

/// Returns the item at the index, which must be below `len()`, in O(1): `table[i]`.
impl<T> Index<usize> for CowTable<T> {
    type Output = T;

    ghost can_index = { λ t i. i < length t };

    ghost index_gives = { λ t i x. x ≡ slice_index_or t i x };

    #[inline]
    #[tactic(auto, using(crate::proofs::Places::reading))]
    fn index(&self, i: usize) -> &T {
        let (page, place) = self.page_length.locate(i);
        &self.pages[page][place]
    }
}

impl<T> CowTable<T> {
    /// Returns the number of items: `table.len()`.
    #[inline]
    pub fn len(&self) -> usize
        ensures { result ≡ length self.now }
    {
        self.len
    }

    /// Returns `true` if there are no items: `table.is_empty()`.
    #[inline]
    pub fn is_empty(&self) -> bool
        ensures { IsTrue result ↔ (self.now ≡ []) }
    {
        self.len == 0
    }

    /// Returns the item at the index, or `None`: `table.get(i)`. O(1).
    #[inline]
    pub fn get(&self, i: usize) -> Option<&T>
        ensures { option_copied result ≡ slice_get self.now i }
    {
        if i < self.len { Some(&self[i]) } else { None }
    }

    /// Returns the first item, or `None`: `table.first()`. O(1).
    pub fn first(&self) -> Option<&T>
        ensures { option_copied result ≡ slice_get self.now 0 }
    {
        self.get(0)
    }

    /// Returns the last item, or `None`: `table.last()`. O(1).
    pub fn last(&self) -> Option<&T>
        ensures { option_copied result ≡ slice_get self.now (length self.now - 1) }
    {
        self.get(self.len.checked_sub(1)?)
    }

    /// Sets the item at the index, in this version alone: `table.set(alloc, i, value)?`.
    ///
    /// A version that shares nothing writes in place, in O(1). If other versions share the list of pages, the list is
    /// copied first, with a clone of the handle of each page. If they share the page of the item, that page is
    /// copied, with a clone of each item. Each of the two copies takes two allocations, beside those of the clones.
    ///
    /// The call requires that a clone of an item equals the item, and so is not for `String` or `Vec`, whose clone
    /// has another buffer.
    ///
    /// # Errors
    ///
    /// Returns `NoPlace` if the index is out of range, and `Memory` if an allocation or a clone fails. The table is
    /// unchanged, and `value` is dropped.
    #[tactic(auto, using(crate::proofs::Places::writing))]
    pub fn set(&mut self, alloc: Global, i: usize, value: T) -> Result<(), PlaceError>
    where
        T: Clone,
        requires copies { CopiesAreEqual T.is_clone }
        ensures ok { OnOk result (self.new ≡ slice_set self.old i value) }
        ensures no_place { (result ≡ Err PlaceError.NoPlace) ↔ (length self.old ≤ i) }
        ensures err { OnErr result (self.new ≡ self.old) }
    {
        if i >= self.len {
            return Err(PlaceError::NoPlace);
        }
        let (page, place) = self.page_length.locate(i);
        let items = own_page(&mut self.pages, alloc, page)?;
        items[place] = value;
        Ok(())
    }

    /// Returns `true` if both versions have a page `p`, counted from 0, and share it:
    /// `CowTable::page_ptr_eq(&table, &other, 0)`. The answer is as exact as that of `Arc::ptr_eq`.
    pub fn page_ptr_eq(this: &CowTable<T>, other: &CowTable<T>, p: usize) -> bool
        ensures there { IsTrue result → (p < length this.now) × (p < length other.now) }
    {
        match (this.page(p), other.page(p)) {
            (Some(page), Some(same)) => Arc::ptr_eq(page, same),
            _ => false,
        }
    }

    // Returns the page. No page is empty, so there are no more pages than items.
    fn page(&self, p: usize) -> Option<&Arc<Vec<T>>>
        ensures { IsSome result → p < length self.now }
    {
        self.pages.get(p)
    }
}

// Returns a page to write to, in a block that no other version shares.
#[tactic(auto, using(crate::proofs::Lent::lent_items))]
fn own_page<T: Clone>(
    pages: &mut Arc<Vec<Arc<Vec<T>>>>,
    alloc: Global,
    page: usize,
) -> Result<&mut Vec<T>, AllocError>
    requires copies { CopiesAreEqual T.is_clone }
    requires there { page < vec_len pages.old }
    ensures* writes_back { sem 𝓛 (LendsPage T.row pages.entry page result) }
    ensures items { IfOk result (λ own.
        own.now.items ≡ vec_items (slice_index_or pages.old.items page own.now)) }
{
    let pages = Arc::make_mut(pages, alloc)?;
    Arc::make_mut(&mut pages[page], alloc)
}
