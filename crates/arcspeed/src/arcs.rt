//! Handles on one thread.
use crate::random::shuffle;
use servo_arc::{Arc, StaticArc};
use std::alloc::Global;
use std::hint::black_box;

/// The value of a block that has one handle or more.
pub const VALUE: u64 = 7;

/// Enough handles that they and their blocks do not fit into a cache.
const HANDLES: u64 = 1_000_000;

#[inline(never)]
pub fn new_drop(alloc: Global, times: u64) -> Option<u64> {
    let mut sum = 0u64;
    for i in 0..times {
        let Ok(handle) = Arc::new(alloc, i) else {
            return None;
        };
        sum = sum.wrapping_add(*handle);
    }
    Some(sum)
}

/// Clones and drops a handle, if there was memory for it.
#[inline(never)]
pub fn clone_often(made: Result<Arc<u64>, u64>, times: u64) -> Option<u64> {
    let handle = made.ok()?;
    let mut sum = 0u64;
    for _ in 0..times {
        let again: Arc<u64> = handle.clone().ok()?;
        sum = sum.wrapping_add(*again);
    }
    Some(sum)
}

/// Makes and drops counted handles of a static block, which cannot fail.
#[inline(never)]
pub fn clone_static(alloc: Global, times: u64) -> Option<u64> {
    let kept: StaticArc<'static, u64> = StaticArc::new(alloc, VALUE).ok()?;
    let mut sum = 0u64;
    for _ in 0..times {
        let again = kept.arc();
        sum = sum.wrapping_add(*again);
    }
    Some(sum)
}

#[inline(never)]
pub fn deref_sum(alloc: Global, times: u64) -> Option<u64> {
    let mut handles = Vec::new(alloc);
    for i in 0..HANDLES {
        handles.push(Arc::new(alloc, i).ok()?).ok()?;
    }
    shuffle(&mut handles);
    let mut sum = 0u64;
    for _ in 0..times {
        sum = sum.rotate_left(1).wrapping_add(sum_of(&handles));
    }
    Some(sum)
}

fn sum_of(handles: &[Arc<u64>]) -> u64 {
    let mut sum = 0u64;
    for handle in handles {
        sum = sum.wrapping_add(**handle);
    }
    sum
}

#[inline(never)]
pub fn make_mut_unique(alloc: Global, times: u64) -> Option<u64> {
    let mut handle = Arc::new(alloc, VALUE).ok()?;
    for _ in 0..times {
        let value = Arc::make_mut(&mut handle, alloc).ok()?;
        *value = value.wrapping_add(3);
    }
    Some(*handle)
}

#[inline(never)]
pub fn get_mut_unique(alloc: Global, times: u64) -> Option<u64> {
    let mut handle = Arc::new(alloc, VALUE).ok()?;
    for _ in 0..times {
        if let Some(value) = Arc::get_mut(&mut handle) {
            *value = value.wrapping_add(3);
        }
    }
    Some(*handle)
}

#[inline(never)]
pub fn make_mut_shared(alloc: Global, times: u64) -> Option<u64> {
    let handle = Arc::new(alloc, [1u64, 2, 3, 4, 5, 6, 7, 8]).ok()?;
    let mut sum = 0u64;
    for i in 0..times {
        let mut own: Arc<[u64; 8]> = handle.clone().ok()?;
        let place = (i % 8) as usize;
        let values = Arc::make_mut(&mut own, alloc).ok()?;
        values[place] = values[place].wrapping_add(i);
        sum = sum.wrapping_add(values[place]);
    }
    Some(sum)
}

/// Compares two handles, and returns the number of comparisons, whatever their results.
pub fn compare_often(first: &Arc<u64>, second: &Arc<u64>, times: u64) -> u64 {
    let mut compared = 0u64;
    for _ in 0..times {
        let _answer = black_box(Arc::ptr_eq(first, second));
        compared = compared.wrapping_add(1);
    }
    compared
}

#[inline(never)]
pub fn ptr_eq_same(alloc: Global, times: u64) -> Option<u64> {
    let first = Arc::new(alloc, VALUE).ok()?;
    let second: Arc<u64> = first.clone().ok()?;
    Some(compare_often(&first, &second, times))
}
