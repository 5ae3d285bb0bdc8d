//! A long stack whose versions (snapshots) share their nodes.
use maps::Stack;
use std::alloc::Global;

/// Enough items that the nodes do not fit into a cache.
const ITEMS: u64 = 1_000_000;

fn sum_of(stack: &Stack<u64>) -> u64 {
    let mut sum = 0u64;
    for value in stack {
        sum = sum.wrapping_add(*value);
    }
    sum
}

#[inline(never)]
pub fn walk(alloc: Global, times: u64) -> Option<u64> {
    let mut stack = Stack::new();
    for value in 0..ITEMS {
        stack = stack.push(alloc, value).ok()?;
    }
    let mut sum = 0u64;
    for _ in 0..times {
        sum = sum.rotate_left(1).wrapping_add(sum_of(&stack));
    }
    Some(sum)
}
