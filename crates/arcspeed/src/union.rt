//! Handles of one of two types.
use crate::random::Random;
use servo_arc::{Arc, ArcUnion, ArcUnionBorrow};
use std::alloc::Global;

#[inline(never)]
pub fn clone_often(alloc: Global, times: u64) -> Option<u64> {
    let first = Arc::new(alloc, 7u64).ok()?;
    let second = Arc::new(alloc, 9u32).ok()?;
    let unions: [ArcUnion<u64, u32>; 2] = [
        ArcUnion::from_first(first),
        ArcUnion::from_second(second),
    ];
    let mut random = Random::new();
    let mut sum = 0u64;
    for _ in 0..times {
        let again: ArcUnion<u64, u32> = unions[random.below(2)].clone().ok()?;
        sum = sum.wrapping_add(value_of(&again));
    }
    Some(sum)
}

fn value_of(union: &ArcUnion<u64, u32>) -> u64 {
    match union.borrow() {
        ArcUnionBorrow::First(value) => *value,
        ArcUnionBorrow::Second(value) => u64::from(*value),
    }
}
