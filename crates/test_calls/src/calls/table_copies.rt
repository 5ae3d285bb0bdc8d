//! How many items of a `CowTable` are copied and dropped, with and without a second version (snapshot).
ghost use Rattle.std.specs.Prelude.{◌<◌};

use crate::calls::page_rows::shared_pages;
use cow_table::CowTable;
use std::process::Abort;
use testing::counted::{Counted, Tally, counted_items};
use testing::{again, ok, same, same_at};

/// Creates a table of the items 0, 1 and so on, with pages of that length.
fn counted_table<'a>(
    rt: &(impl Abort + AllocGlobal),
    tally: &'a Tally,
    len: u64,
    page_len: usize,
) -> CowTable<Counted<'a>>
    requires { 0 < page_len }
{
    let items = counted_items(rt.alloc(), tally, len).expect(rt, "items");
    ok!(rt, CowTable::from_items(rt.alloc(), items, page_len))
}

// Sets an item at each index in turn. The number beside an index is the number of copies by then.
fn check_sets<'a>(
    rt: &(impl Abort + AllocGlobal),
    tally: &'a Tally,
    table: &mut CowTable<Counted<'a>>,
    copies_by_place: &[(usize, u64)],
) {
    for (place, copies) in copies_by_place {
        ok!(rt, table.set(rt.alloc(), *place, Counted::new(tally, 9)));
        same_at!(rt, *place, tally.copies(), *copies);
    }
}

// A version that was dropped shares nothing.
#[test]
fn a_lone_version_copies_nothing(rt: HostRuntime) {
    let tally = Tally::new();
    let mut table = counted_table(&rt, &tally, 5, 2);
    let other = again!(&rt, &table);
    drop(again!(&rt, &other));
    drop(other);
    let copies = [(0, 0), (1, 0), (2, 0), (4, 0), (0, 0)];
    check_sets(&rt, &tally, &mut table, &copies);
    same!(&rt, tally.drops(), 5);
    drop(table);
    same!(&rt, tally.drops(), 10);
}

#[test]
fn a_shared_version_copies_a_page_once(rt: HostRuntime) {
    let tally = Tally::new();
    let mut a = counted_table(&rt, &tally, 5, 2);
    let mut b = again!(&rt, &a);
    check_sets(&rt, &tally, &mut b, &[(2, 2), (3, 2), (4, 3)]);
    check_sets(&rt, &tally, &mut a, &[(2, 3), (0, 5), (1, 5), (4, 5)]);
    drop(a);
    drop(b);
    same!(&rt, (tally.copies(), tally.drops()), (5, 5 + 5 + 7));
}

// Pages have the requested length, and only the page that is written is copied.
#[test]
fn a_long_page_is_copied_whole(rt: HostRuntime) {
    let tally = Tally::new();
    let a = counted_table(&rt, &tally, 200, 64);
    let mut b = again!(&rt, &a);
    ok!(&rt, b.set(rt.alloc(), 70, Counted::new(&tally, 9)));
    same!(&rt, tally.copies(), 64);
    let has_place = b.set(rt.alloc(), 200, Counted::new(&tally, 9)).is_ok();
    same!(&rt, (has_place, tally.living(202)), (false, 264));
    same!(&rt, shared_pages(&a, &b), [true, false, true, true]);
}
