//! Shared counts with one and with two capabilities (`CountPass`).
ghost use Rattle.std.specs.Prelude.{◌≡◌, IfOk};
ghost use Rattle.servo_arc.specs.Passes.{handles};

use servo_arc::shared_count::{CountPass, SharedCount};
use std::alloc::{AllocError, Global};

/// Opens a count with one capability.
pub fn open_one(alloc: Global) -> Result<(SharedCount, CountPass), AllocError>
    ensures { IfOk result (λ r. (r.1.count ≡ r.0) × (handles r.1 ≡ 1)) }
{
    let (count, mut passes) = SharedCount::open(alloc, 1)?;
    let p = passes.pop().unwrap();
    Ok((count, p))
}

/// Opens a count with two capabilities.
pub fn open_two(alloc: Global) -> Result<(SharedCount, CountPass, CountPass), AllocError>
    ensures first { IfOk result (λ r. (r.1.count ≡ r.0) × (handles r.1 ≡ 1)) }
    ensures second { IfOk result (λ r. (r.2.count ≡ r.0) × (handles r.2 ≡ 1)) }
{
    let (count, mut passes) = SharedCount::open(alloc, 2)?;
    let q = passes.pop().unwrap();
    let p = passes.pop().unwrap();
    Ok((count, p, q))
}
