//! The limit of a block: how many handles it may have.
ghost use Rattle.std.specs.Prelude.{◌≡◌};
ghost use Rattle.counting_word.specs.CountingWord.{greatest_count, IsLimit};

use counting_word::MAX_REFCOUNT;

// The most handles that a block may have until it is static.
#[derive(Clone, Copy)]
pub(crate) struct Limit {
    pub(crate) count: u64,
    ghost in_range: { IsLimit count },
}

impl Limit {
    // The greatest number that the word of a block can count.
    pub(crate) const GREATEST: Limit = Limit {
        count: MAX_REFCOUNT,
    };

    pub(crate) fn of(count: u64) -> Limit
        requires { IsLimit count }
        ensures { result.count ≡ count }
    {
        Limit { count }
    }
}
