//! Callers that make two versions and read both: the old one stays as it was, by contract.
ghost use Rattle.std.specs.Prelude.{◌≡◌, ◌∷◌, [], Some, IfOk};
ghost use Rattle.std.specs.Ordering.{nat_cmp};
ghost use Rattle.maps.specs.Maps.{lookup};

use maps::{Stack, TreeMap};
use std::alloc::{AllocError, Global};

/// What the key had, and what it has once it was set. Both versions are read after the change.
pub fn before_and_after(
    alloc: Global,
    map: &mut TreeMap<u64, u64>,
    key: u64,
    value: u64,
) -> Result<(Option<u64>, Option<u64>), AllocError>
    ensures before { IfOk result (λ values. values.0 ≡ lookup nat_cmp key map.old) }
    ensures after { IfOk result (λ values. values.1 ≡ Some value) }
{
    let old = map.clone()?;
    map.insert(alloc, key, value)?;
    Ok((old.get(&key).copied(), map.get(&key).copied()))
}

/// A stack, and the stack with one more item.
pub fn two_stacks(alloc: Global) -> Result<(Stack<u64>, Stack<u64>), AllocError>
    ensures { IfOk result (λ stacks. (stacks.0 ≡ 1 ∷ []) × (stacks.1 ≡ 2 ∷ 1 ∷ [])) }
{
    let old = Stack::new().push(alloc, 1)?;
    let new = old.push(alloc, 2)?;
    Ok((old, new))
}
