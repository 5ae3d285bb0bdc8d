//! Values that count how often they are dropped and copied.
ghost use Rattle.std.specs.Prelude.{◌≡◌};

use std::alloc::{AllocError, Global};
use std::fmt;
use std::fmt::{Debug, Formatter};
use std::sync::atomic::AtomicU64;
use std::sync::atomic::Ordering::SeqCst;

/// The number of drops and of copies of the `Counted` values that borrow this tally.
#[derive(Default, Drop)]
pub struct Tally {
    drops: AtomicU64,
    copies: AtomicU64,
}

impl Tally {
    /// Creates a tally with both numbers at 0.
    pub fn new() -> Tally {
        Tally::default()
    }

    /// Returns the number of drops.
    pub fn drops(&self) -> u64 {
        self.drops.load(SeqCst)
    }

    /// Returns the number of copies.
    pub fn copies(&self) -> u64 {
        self.copies.load(SeqCst)
    }

    /// Returns the number of copies and the number of drops.
    pub fn read(&self) -> (u64, u64) {
        (self.copies(), self.drops())
    }

    /// Returns the number of values that are not dropped, if `made` of them were not made by a copy.
    pub fn living(&self, made: u64) -> u64 {
        made.wrapping_add(self.copies()).wrapping_sub(self.drops())
    }
}

/// A value whose drops and copies are counted in a tally. It allocates nothing.
pub struct Counted<'a> {
    pub value: u64,
    tally: &'a Tally,
}

impl<'a> Counted<'a> {
    /// Creates a value that is counted in `tally`.
    pub fn new(tally: &'a Tally, value: u64) -> Counted<'a>
        ensures { result.value ≡ value }
    {
        Counted { value, tally }
    }
}

impl Drop for Counted<'_> {
    fn drop(self) {
        let Counted { value: _, tally } = self;
        tally.drops.fetch_add(1, SeqCst);
    }
}

impl Clone for Counted<'_> {
    ghost is_clone = { λ x y. y ≡ x };

    fn clone(&self) -> Result<Self, AllocError> {
        self.tally.copies.fetch_add(1, SeqCst);
        Ok(Counted {
            value: self.value,
            tally: self.tally,
        })
    }
}

/// Formats as the value does.
impl Debug for Counted<'_> {
    fn fmt<W: fmt::Write>(&self, f: &mut Formatter<W>) -> fmt::Result {
        self.value.fmt(f)
    }
}

/// Compares the values.
impl PartialEq for Counted<'_> {
    ghost use Rattle.std.specs.Prelude.{◌==◌};
    ghost use Rattle.std.specs.Cmp.{on_per, partial_equiv_from_equiv};
    ghost use Rattle.std.proofs.lemmas.Cmp.{nat_eq_equiv};

    ghost eq = { λ x y. x.value == y.value };

    ghost laws = { on_per (λ x. x.value) (partial_equiv_from_equiv nat_eq_equiv) };

    fn eq(&self, other: &Self) -> bool {
        self.value == other.value
    }
}

/// Creates the items 0, 1 and so on, with one allocation.
pub fn counted_items<'a>(alloc: Global, tally: &'a Tally, len: u64) -> Option<Vec<Counted<'a>>> {
    let mut items = Vec::with_capacity(alloc, len as usize).ok()?;
    for value in 0..len {
        items.push(Counted::new(tally, value)).ok()?;
    }
    Some(items)
}
