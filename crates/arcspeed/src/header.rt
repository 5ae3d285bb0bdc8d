//! Header slices.
use servo_arc::{Arc, ThinArc};
use std::alloc::Global;

/// The number of items of a slice.
const ITEMS: u32 = 16;

/// The number of slices that `get` reads.
const SLICES: usize = 1024;

fn make(alloc: Global, number: u64) -> Option<ThinArc<u64, u32>> {
    let first = (number & 0xffff_ffff) as u32;
    let items = (0..ITEMS).map(|k| k.wrapping_add(first));
    Arc::from_header_and_iter(alloc, number, items).ok()
}

#[inline(never)]
pub fn build(alloc: Global, times: u64) -> Option<u64> {
    let mut sum = 0u64;
    for i in 0..times {
        let slice = make(alloc, i)?;
        let last = slice.slice().last().copied().unwrap_or(0);
        sum = sum.wrapping_add(slice.header).wrapping_add(u64::from(last));
    }
    Some(sum)
}

/// Reads one item of a slice after another.
#[inline(never)]
pub fn get(alloc: Global, times: u64) -> Option<u64> {
    let mut slices = Vec::new(alloc);
    for j in 0..SLICES {
        slices.push(make(alloc, j as u64)?).ok()?;
    }
    Some(read_often(&slices, times))
}

fn read_often(slices: &[ThinArc<u64, u32>], times: u64) -> u64 {
    let mut at = 0u64;
    let mut sum = 0u64;
    for _ in 0..times {
        if let Some(slice) = slices.get(at as usize % SLICES) {
            let item = slice.slice().get((at >> 16) as usize % ITEMS as usize);
            sum = sum.wrapping_add(u64::from(item.copied().unwrap_or(0)));
            at = sum.wrapping_mul(5).wrapping_add(1);
        }
    }
    sum
}
