//! Handles that are made outside of a table and then put into it.
use servo_arc::table::Reply::{Done, Is};
use servo_arc::table::{PlainCommand, Table};
use servo_arc::{Arc, HeaderSlice, ThinArc};
use std::process::Abort;
use testing::{again, holds, ok, same, served};

fn thin_of(rt: &(impl Abort + AllocGlobal), header: u32, items: &[u32]) -> ThinArc<u32, u32> {
    ok!(rt, Arc::from_header_and_slice(rt.alloc(), header, items))
}

type Slices = Table<HeaderSlice<u32, u32>>;

fn reads(table: &Slices, i: usize, header: u32, items: &[u32]) -> bool {
    match table.get(i) {
        Some(value) => value.header == header && value.slice() == items,
        None => false,
    }
}

/// Puts a slice into the first of two slots, shares it with the second, and drops the first.
fn put_and_shared(rt: &(impl Abort + AllocGlobal)) -> Slices {
    let mut table: Slices = ok!(rt, Table::new(rt.alloc(), 2));
    holds!(rt, table.put(0, thin_of(rt, 1, &[5, 6])).is_ok());
    let (commands, replies) = served!(rt;
        PlainCommand::Clone(0, 1) => Done, PlainCommand::Same(0, 1) => Is(true),
        PlainCommand::PtrEq(0, 1) => Is(true), PlainCommand::Mark(0) => Done, PlainCommand::Drop(0) => Done);
    let found = ok!(rt, table.run_plain(rt.alloc(), commands));
    same!(rt, found.as_slice(), replies);
    table
}

fn has_kept_the_second(table: &Slices) -> bool {
    table.get(0).is_none() && reads(table, 1, 1, &[5, 6])
}

#[test]
fn a_header_slice_is_put_and_shared(rt: HostRuntime) {
    let mut table = put_and_shared(&rt);
    holds!(&rt, has_kept_the_second(&table));
    let back = table.put(2, thin_of(&rt, 3, &[7]));
    let back = back.err().expect(&rt, "a third slot");
    same!(&rt, (back.header, back.slice()), (3, &[7][..]));
}

#[test]
fn a_slot_has_the_handle_that_was_put(rt: HostRuntime) {
    let mut table: Slices = ok!(&rt, Table::new(rt.alloc(), 2));
    let kept = thin_of(&rt, 1, &[5]);
    let was_put = table.put(1, again!(&rt, &kept)).is_ok();
    let is_unique = kept.is_unique();
    let was_replaced = table.put(1, thin_of(&rt, 2, &[8])).is_ok();
    let seen = [was_put, is_unique, was_replaced, kept.is_unique()];
    same!(&rt, seen, [true, false, true, true]);
}
