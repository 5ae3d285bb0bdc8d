//! An interner of pairs of numbers, under random keys.
use interner::Interner;
use std::alloc::Global;
use std::hash::{FoldHasher, Hasher, RandomState};
use std::random::RandomSource;

const PAIRS: u64 = 20_000;

/// The choice of pairs.
#[derive(Clone, Copy)]
pub enum Pairs {
    Plain,
    /// The pairs of an attacker who knows the seed of `Interner::new`: with that seed all have one hash.
    Chosen,
}

impl Pairs {
    // For `Chosen` the second number is the state of the hasher after the first one, which sets the state back.
    fn pair(self, first: u64) -> (u64, u64) {
        match self {
            Pairs::Plain => (first, first),
            Pairs::Chosen => {
                let mut hasher = FoldHasher::default();
                hasher.write_u64(first);
                (first, hasher.finish())
            }
        }
    }
}

/// Interns the pairs, each time into an interner of its own.
#[inline(never)]
pub fn intern<R: RandomSource>(rt: &R, alloc: Global, pairs: Pairs, times: u64) -> Option<u64> {
    let mut sum = 0u64;
    for _ in 0..times {
        let mut interner = Interner::with_hasher(alloc, RandomState::new(rt).ok()?);
        for first in 0..PAIRS {
            let symbol = interner.intern(alloc, pairs.pair(first)).ok()?;
            sum = sum.wrapping_add(symbol.index() as u64);
        }
    }
    Some(sum)
}
