//! A list in pages. A version (snapshot) shares the pages that it does not write.
use crate::random::Random;
use cow_table::CowTable;
use std::alloc::Global;

const ITEMS: usize = 100_000;

const PAGE: usize = 64;

fn read(table: &CowTable<u64>, i: usize) -> u64 {
    table.get(i).copied().unwrap_or(0)
}

/// A function of its own, as in the Rust program beside which this one is timed.
#[inline(never)]
fn write(table: &mut CowTable<u64>, alloc: Global, i: usize, item: u64) -> Option<()> {
    table.set(alloc, i, item).ok()
}

#[inline(never)]
pub fn set_often(alloc: Global, times: u64) -> Option<u64> {
    let items = (0..ITEMS as u64).collect(alloc).ok()?;
    let mut table = CowTable::from_items(alloc, items, PAGE).ok()?;
    let mut random = Random::new();
    for _ in 0..times {
        let i = random.below(ITEMS);
        let item = read(&table, i).wrapping_add(random.state);
        write(&mut table, alloc, i, item)?;
    }
    Some(read(&table, 0).wrapping_add(read(&table, random.pick(ITEMS))))
}
