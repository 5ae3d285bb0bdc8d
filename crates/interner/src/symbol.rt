//! `Symbol`, the number of an interned value.
ghost use Rattle.std.specs.Prelude.{◌≡◌};

use std::marker::Model;

/// The number of a value in its interner, from 0 in the order of the first `intern`. Compare symbols in place of
/// values: `first == second`.
///
/// The type does not say of which interner the symbol is. Another interner has another value at that number, or none.
#[derive(Clone, Copy, Debug, PartialEq, Eq, PartialOrd, Ord, Hash)]
pub struct Symbol {
    number: u32,
}

impl Model for Symbol {
    ghost use Rattle.std.specs.Prelude.{ℕ};

    ghost Value = { ℕ };

    ghost view = { λ s. s.number };

    ghost inverse = { λ n. record { number = n } };
}

impl Symbol {
    #[inline]
    pub(crate) fn of(number: u32) -> Symbol
        ensures { result ≡ number }
    {
        Symbol { number }
    }

    /// Returns the number of the value, as the index into a list beside the interner: `symbol.index()`.
    #[inline]
    pub fn index(self) -> usize
        ensures { result ≡ self }
    {
        self.number as usize
    }
}
