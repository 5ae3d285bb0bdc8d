//! The iterator over the values of an interner with their symbols.
ghost use Rattle.std.specs.Prelude.{◌≡◌, ◌≤◌, ◌^◌, IfSome, Some, length, ⊤};
ghost use Rattle.std.specs.Iterator.{UpTo, YieldsFirstBy, item_count};
ghost use Rattle.std.specs.Iterator.SizeHint.{IsWithinCount};
ghost use Rattle.std.specs.List.{enumerate_from};

use crate::symbol::Symbol;
use crate::table::Interner;
use handles::arc::Arc;
use std::alloc::AllocError;
use std::hash::{BuildHasher, Hash};
use std::iter::FusedIterator;
use std::marker::Model;

/// An iterator over the values of an `Interner` with their symbols, in the order of the symbols: `interner.iter()`.
#[derive(Drop)]
pub struct Iter<'a, T> {
    values: &'a [Arc<T>],
    next: usize,
}

impl<'a, T> Model for Iter<'a, T> {
    ghost use Rattle.std.specs.Prelude.{ℕ, List, drop, length, ◌≤◌, ◌^◌};
    ghost use Rattle.std.specs.List.{enumerate_from};

    ghost Value = { List (ℕ × T) };

    ghost view = { λ i. enumerate_from i.next (drop i.next i.values.now) };

    ghost invariant = { λ i. (i.next ≤ length i.values.now) × (length i.values.now ≤ 2 ^ 32) };
}

impl<'a, T: Eq + Hash, S: BuildHasher> IntoIterator for &'a Interner<T, S> {
    type Item = (Symbol, &'a Arc<T>);

    type IntoIter = Iter<'a, T>;

    ghost into_iter_gives = { λ interner r. r ≡ enumerate_from 0 interner.now };

    fn into_iter(self) -> Iter<'a, T> {
        self.iter()
    }
}

impl<'a, T> Iter<'a, T> {
    pub(crate) fn over(values: &'a [Arc<T>]) -> Iter<'a, T>
        requires { length values.now ≤ 2 ^ 32 }
        ensures { result ≡ enumerate_from 0 values.entry.now }
    {
        Iter { values, next: 0 }
    }
}

impl<'a, T> Iterator for Iter<'a, T> {
    type Item = (Symbol, &'a Arc<T>);

    ghost next_gives = { YieldsFirstBy (λ x. (x.0, x.1.now)) (λ s. s) };

    ghost remaining = { item_count (λ s. s) };

    #[tactic(auto, using(crate::proofs::Numbers::numbers))]
    fn next(&mut self) -> Option<(Symbol, &'a Arc<T>)> {
        if self.next == self.values.len() {
            return None;
        }
        let symbol = Symbol::of(self.next as u32);
        let value = &self.values[self.next];
        self.next += 1;
        Some((symbol, value))
    }

    #[tactic(auto, using(crate::proofs::Numbers::numbers))]
    fn size_hint(&self) -> (usize, Option<usize>)
        ensures lower { IsWithinCount result.0 (item_count (λ s. s) self.now) }
        ensures upper { IfSome result.1 (UpTo (item_count (λ s. s) self.now)) }
        ensures exact { result ≡ (length self.now, Some (length self.now)) }
    {
        let left = self.values.len() - self.next;
        (left, Some(left))
    }
}

impl<'a, T> ExactSizeIterator for Iter<'a, T> {
    #[tactic(auto, using(crate::proofs::Numbers::numbers))]
    fn len(&self) -> usize {
        self.values.len() - self.next
    }
}

impl<'a, T> FusedIterator for Iter<'a, T> {}

/// Clones the iterator and never fails. Both then yield what is left.
impl<'a, T> Clone for Iter<'a, T> {
    ghost is_clone = { λ s r. r ≡ s };

    ghost is_infallible = { λ _. ⊤ };

    fn clone(&self) -> Result<Iter<'a, T>, AllocError> {
        Ok(Iter {
            values: self.values,
            next: self.next,
        })
    }
}
