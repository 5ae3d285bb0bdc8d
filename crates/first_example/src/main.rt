//! Two handles share a block until one of them writes.
#![tactic(auto)]

ghost use Rattle.std.specs.Prelude.{◌≡◌, IfOk};

use servo_arc::Arc;
use std::alloc::{AllocError, Global};

/// Writes 9 through the second of two handles to a 5, and returns what each of them then reads.
fn written_once(alloc: Global) -> Result<(u32, u32), AllocError>
    ensures { IfOk result (λ read. read ≡ (5, 9)) }
{
    let first = Arc::try_new(alloc, 5)?;
    let mut second = first.clone()?;
    *Arc::make_mut(&mut second, alloc)? = 9;
    Ok((*first, *second))
}

fn main(rt: HostRuntime) -> Result<(), anyhow::Error> {
    let (first, second) = written_once(rt.alloc())?;
    println!(rt; "{first} {second}")?;
    Ok(())
}
