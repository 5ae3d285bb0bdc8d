//! A call that only reads, compares or prints does not make the block static. The value of a static block is never
//! dropped, and no handle of it is ever unique.
use crate::made::arc_of;
use cow_table::CowTable;
use servo_arc::{Arc, ArcBorrow, ArcUnion, ThinStr};
use std::fmt::Debug;
use std::hash::{DefaultHasher, Hash};
use std::process::Abort;
use testing::{again, holds, ok, same, same_at};

// Compares, hashes and prints the value.
fn ask<T: Ord + Hash + Debug>(rt: &(impl Abort + AllocGlobal), x: &T) {
    let _asked = (x == x, x.partial_cmp(x), x.cmp(x));
    x.hash(&mut DefaultHasher::new());
    ok!(rt, format!(in rt.alloc(); "{x:?}"));
}

#[test]
fn a_handle_is_asked(rt: HostRuntime) {
    let a = arc_of(&rt, 7u32);
    let borrow = a.borrow_arc();
    ask(&rt, &a);
    ask(&rt, &borrow);
    ok!(&rt, format!(in rt.alloc(); "{a}"));
    let read: &u32 = a.as_ref();
    let is_itself = [Arc::ptr_eq(&a, &a), ArcBorrow::ptr_eq(&borrow, &borrow)];
    let seen = (*read, *borrow, is_itself, a.is_unique());
    same!(&rt, seen, (7, 7, [true; 2], true));
    let name = ok!(&rt, ThinStr::from_header_and_str(rt.alloc(), 7u8, "ab"));
    ask(&rt, &name);
    holds!(&rt, name.as_thin_arc().is_unique());
}

type Numbers = ArcUnion<u32, u32>;

// Takes the handle out of a union, after a call for the other type has returned the union.
fn taken_out(union: Numbers) -> Option<Arc<u32>> {
    match union.is_first() {
        true => union.into_second().err()?.into_first().ok(),
        false => union.into_first().err()?.into_second().ok(),
    }
}

#[test]
fn a_union_is_asked(rt: HostRuntime) {
    for union in [
        Numbers::from_first(arc_of(&rt, 7)),
        Numbers::from_second(arc_of(&rt, 7)),
    ] {
        ask(&rt, &union);
        let is_first = union.as_first().is_some();
        same_at!(&rt, is_first, union.as_second().is_none(), is_first);
        let is_itself = Numbers::ptr_eq(&union, &union);
        let is_alone = taken_out(union).map(|handle| handle.is_unique());
        same_at!(&rt, is_first, (is_itself, is_alone), (true, Some(true)));
    }
}

// A page that a call made static would never be freed, nor would its handle of the value.
#[test]
fn a_table_is_asked(rt: HostRuntime) {
    let a = arc_of(&rt, 7u32);
    let items = ok!(&rt, vec![in rt.alloc(); again!(&rt, &a)]);
    let table = ok!(&rt, CowTable::from_items(rt.alloc(), items, 1));
    drop(ok!(&rt, format!(in rt.alloc(); "{table:?}")));
    let is_equal = table == table && table.get(0) == Some(&table[0]);
    let is_itself = CowTable::page_ptr_eq(&table, &table, 0);
    drop(table);
    same!(&rt, [is_equal, is_itself, a.is_unique()], [true; 3]);
}
