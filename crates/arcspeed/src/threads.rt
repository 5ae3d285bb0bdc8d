//! Blocks that four threads use at once.
use crate::arcs::{VALUE, compare_often};
use servo_arc::Arc;
use std::alloc::Global;
use std::sync::Wait;
use std::thread;
use std::thread::Threads;

/// The operation that each thread repeats.
#[derive(Clone, Copy)]
pub enum Turn {
    Clone,
    Compare,
}

#[inline(never)]
pub fn in_four<R: Threads + Wait + Sync>(
    rt: &R,
    alloc: Global,
    turn: Turn,
    times: u64,
) -> Option<u64> {
    let first = Arc::new(alloc, VALUE).ok()?;
    let second = Arc::new(alloc, VALUE).ok()?;
    let sums = thread::map_indices(
        rt,
        alloc,
        4,
        &|_| match turn {
            Turn::Clone => clone_waiting(&first, rt, times),
            Turn::Compare => Some(compare_often(&first, &second, times)),
        },
    )
    .ok()?;
    total(&sums)
}

fn total(sums: &[Option<u64>]) -> Option<u64> {
    let mut total = 0u64;
    for sum in sums {
        total = total.wrapping_add((*sum)?);
    }
    Some(total)
}

/// Clones by the call that retries until it has each clone.
fn clone_waiting(handle: &Arc<u64>, rt: &impl Wait, times: u64) -> Option<u64> {
    let mut sum = 0u64;
    for _ in 0..times {
        let again = Arc::clone(handle, rt).ok()?;
        sum = sum.wrapping_add(*again);
    }
    Some(sum)
}
