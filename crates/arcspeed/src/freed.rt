//! Allocates and frees pages of memory. These workloads measure nothing: in a limited address space they end without a
//! checksum if freed pages are not reused. A page is 4 KiB of values, so that no two pages share one of the machine.
use servo_arc::{Arc, UniqueArc};
use std::alloc::Global;
use std::hint::black_box;

type Page = [u64; 512];

const PAGE: Page = [7; 512];

/// Makes blocks, each of which is freed with its only handle.
pub fn blocks(alloc: Global, times: u64) -> Option<u64> {
    for _ in 0..times {
        drop(black_box(Arc::new(alloc, PAGE).ok()?));
    }
    Some(times)
}

/// Makes blocks that are freed before they are written.
pub fn unwritten(alloc: Global, times: u64) -> Option<u64> {
    for _ in 0..times {
        drop(black_box(UniqueArc::<Page>::new_uninit(alloc).ok()?));
    }
    Some(times)
}

/// Makes slices of one page, and of two.
pub fn slices(alloc: Global, times: u64) -> Option<u64> {
    for _ in 0..times {
        let one = Arc::from_header_and_iter(alloc, 0u8, [PAGE].into_iter());
        drop(black_box(one.ok()?));
        let two = Arc::from_header_and_iter(alloc, 0u8, [PAGE, PAGE].into_iter());
        drop(black_box(two.ok()?));
    }
    Some(times)
}
