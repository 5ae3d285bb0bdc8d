//! A caller that compares values by their symbols.
ghost use Rattle.std.specs.Prelude.{◌≡◌, IfOk, OnOk};
ghost use Rattle.interner.specs.Symbols.{with_value};

use interner::{InternError, Interner};
use std::alloc::Global;
use std::hash::Hash;

/// Whether two values are equal, asked of their symbols. Both are interned.
#[tactic(auto, using(interner::proofs::Symbols::equal_symbols))]
pub fn are_equal<T: Eq + Hash + Drop>(
    interner: &mut Interner<T>,
    alloc: Global,
    a: T,
    b: T,
) -> Result<bool, InternError>
    ensures equal { IfOk result (λ equal. equal ≡ T.eq a b) }
    ensures interned { OnOk result (interner.new ≡ with_value T.eq (with_value T.eq interner.old a) b) }
{
    let first = interner.intern(alloc, a)?;
    let second = interner.intern(alloc, b)?;
    Ok(first == second)
}
