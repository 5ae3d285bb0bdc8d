//! What a failed call on versions (snapshots) of a `CowTable` leaves.
use crate::refusals::reporting::report;
use cow_table::{CowTable, SetError};
use std::alloc::{AllocError, Global};
use std::process::Abort;
use testing::counted::{Tally, counted_items};
use testing::{again, holds, same};

#[test]
fn items_that_get_no_pages_are_dropped(rt: HostRuntime) {
    let tally = Tally::new();
    let Some(items) = counted_items(rt.alloc(), &tally, 5) else {
        return report(&rt, "the set-up");
    };
    match CowTable::from_items(rt.alloc(), items, 2) {
        Ok(table) => same!(&rt, (table.len(), tally.drops()), (5, 0)),
        Err(AllocError) => {
            same!(&rt, tally.drops(), 5);
            report(&rt, "a page, the list of pages or a block");
        }
    }
}

// Two versions that share all their pages, of two items each.
fn versions<T: Drop>(alloc: Global, items: Option<Vec<T>>) -> Option<(CowTable<T>, CowTable<T>)> {
    let a = CowTable::from_items(alloc, items?, 2).ok()?;
    let b = a.clone().ok()?;
    Some((a, b))
}

fn reads<T: PartialEq>(table: &CowTable<T>, items: &[T]) -> bool {
    table.len() == items.len() && (0..items.len()).all(|i| table.get(i) == items.get(i))
}

// The items of the version that was set, and the pages that both versions share.
fn check_set(
    rt: &impl Abort,
    (a, b): (&CowTable<u32>, &CowTable<u32>),
    items: &[u32],
    shared: [bool; 3],
) {
    let found = [0, 1, 2].map(|p: usize| CowTable::page_ptr_eq(a, b, p));
    same!(rt, (reads(b, items), found), (true, shared));
}

#[test]
fn a_refused_set_leaves_both_versions(rt: HostRuntime) {
    let items = vec![in rt.alloc(); 1, 2, 3, 4, 5].ok();
    let Some((a, mut b)) = versions(rt.alloc(), items) else {
        return report(&rt, "the set-up");
    };
    // A set without a place requests no memory.
    same!(&rt, b.set(rt.alloc(), 5, 9), Err(SetError::NoPlace));
    match b.set(rt.alloc(), 2, 9) {
        Ok(()) => check_set(&rt, (&a, &b), &[1, 2, 9, 4, 5], [true, false, true]),
        Err(error) => {
            same!(&rt, error, SetError::Memory);
            check_set(&rt, (&a, &b), &[1, 2, 3, 4, 5], [true; 3]);
            report(&rt, "the list of pages, the page or a block");
        }
    }
}

// A value whose `clone` always fails.
#[derive(PartialEq, Drop)]
struct Original(u32);

impl Clone for Original {
    ghost use Rattle.std.specs.Prelude.{◌≡◌};

    ghost is_clone = { λ x y. y ≡ x };

    fn clone(&self) -> Result<Original, AllocError> {
        Err(AllocError)
    }
}

#[test]
fn a_refused_copy_leaves_both_versions(rt: HostRuntime) {
    let items = vec![in rt.alloc(); Original(1), Original(2)].ok();
    let Some((a, mut b)) = versions(rt.alloc(), items) else {
        return report(&rt, "the set-up");
    };
    let set = b.set(rt.alloc(), 1, Original(9));
    same!(&rt, set, Err(SetError::Memory));
    holds!(&rt, a == b && CowTable::page_ptr_eq(&a, &b, 0));
    drop(a);
    same!(&rt, b.set(rt.alloc(), 1, Original(9)), Ok(()));
}
