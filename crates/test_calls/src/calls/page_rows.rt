//! The items that versions (snapshots) of a `CowTable` read, the pages that they share, and their texts.
ghost use Rattle.std.specs.Prelude.{◌<◌};

use crate::made::{check_debug, check_display};
use cow_table::{CowTable, SetError};
use std::alloc::{AllocError, Global};
use testing::{again, ok, same, same_at};

fn table_of(alloc: Global, items: &[u32], page_len: usize) -> Result<CowTable<u32>, AllocError>
    requires { 0 < page_len }
{
    CowTable::from_items(alloc, items.to_vec(alloc)?, page_len)
}

// Compares all ways to read with the items.
fn reads(table: &CowTable<u32>, items: &[u32]) -> bool {
    let are_right = [
        table.first() == items.first(),
        table.last() == items.last(),
        table.get(items.len()).is_none(),
        table.len() == items.len(),
        table.is_empty() == items.is_empty(),
        (0..items.len()).all(|i| table.get(i) == items.get(i)),
    ];
    are_right == [true; 6]
}

pub fn shared_pages<T>(a: &CowTable<T>, b: &CowTable<T>) -> [bool; 4] {
    [0, 1, 2, 3].map(|p: usize| CowTable::page_ptr_eq(a, b, p))
}

// One `set` on a version, beside another version of the same items.
struct Row {
    items: &'static [u32],
    page_len: usize,
    place: usize,
    value: u32,
    set: Result<(), SetError>,
    new_items: &'static [u32],
    // The pages that both share, before and after.
    shared: [[bool; 4]; 2],
}

const ROWS: [Row; 3] = [
    Row {
        items: &[1, 2, 3, 4, 5],
        page_len: 2,
        place: 2,
        value: 9,
        set: Ok(()),
        new_items: &[1, 2, 9, 4, 5],
        shared: [[true, true, true, false], [true, false, true, false]],
    },
    Row {
        items: &[1, 2, 3],
        page_len: 5,
        place: 2,
        value: 7,
        set: Ok(()),
        new_items: &[1, 2, 7],
        shared: [[true, false, false, false], [false; 4]],
    },
    Row {
        items: &[],
        page_len: 3,
        place: 0,
        value: 1,
        set: Err(SetError::NoPlace),
        new_items: &[],
        shared: [[false; 4], [false; 4]],
    },
];

// Neither version has an item at its length.
#[test]
fn a_version_changes_alone(rt: HostRuntime) {
    let no_place = Err(SetError::NoPlace);
    for (number, row) in ROWS.iter().enumerate() {
        let mut old = ok!(&rt, table_of(rt.alloc(), row.items, row.page_len.max(1)));
        let mut new = again!(&rt, &old);
        let before = shared_pages(&old, &new);
        let sets = [
            new.set(rt.alloc(), row.place, row.value),
            new.set(rt.alloc(), row.items.len(), 0),
            old.set(rt.alloc(), row.items.len(), 0),
        ];
        let shared = [before, shared_pages(&old, &new)];
        let are_read = [reads(&old, row.items), reads(&new, row.new_items)];
        let expected = ([row.set, no_place, no_place], [true; 2], row.shared);
        same_at!(&rt, number, (sets, are_read, shared), expected);
    }
}

#[test]
fn tables_and_errors_have_their_texts(rt: HostRuntime) {
    check_debug(&rt, &ok!(&rt, table_of(rt.alloc(), &[], 2)), "[]");
    check_debug(
        &rt,
        &ok!(&rt, table_of(rt.alloc(), &[1, 2, 3], 2)),
        "[1, 2, 3]",
    );
    check_display(&rt, &SetError::NoPlace, "no such place");
    check_display(&rt, &SetError::Memory, "out of memory");
}
