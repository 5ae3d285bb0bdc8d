//! The length of a page.
ghost use Rattle.std.specs.Prelude.{◌≡◌, ◌<◌, ◌^◌, ◌/◌, ◌%◌};
ghost use Rattle.std.specs.Option.{ForSome};

/// The number of items in a page. If it is a power of two, an item is found without a division.
#[derive(Clone, Copy)]
pub(crate) struct PageLength {
    pub(crate) items: usize,
    // The exponent, if the length is a power of two.
    shift: Option<u32>,
    ghost positive: { 0 < items },
    ghost power: { ForSome shift (λ k. (k < 64) × (items ≡ 2 ^ k)) },
}

impl PageLength {
    pub(crate) fn new(items: usize) -> PageLength
        requires { 0 < items }
        ensures { result.items ≡ items }
    {
        let power = items.ilog2();
        let shift = (1usize << power == items).then_some(power);
        PageLength { items, shift }
    }

    // Returns the page of the item at the index, and the place of the item in that page.
    #[inline]
    pub(crate) fn locate(self, i: usize) -> (usize, usize)
        ensures page { result.0 ≡ i / self.items }
        ensures place { result.1 ≡ i % self.items }
    {
        match self.shift {
            Some(shift) => (i >> shift, i & (self.items - 1)),
            None => (i / self.items, i % self.items),
        }
    }
}
