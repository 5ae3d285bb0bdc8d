//! Borrowed handles, and unions of handles.
use crate::made::arc_of;
use servo_arc::{Arc, ArcBorrow, ArcUnion};
use testing::{ok, same};

type Numbers = ArcUnion<u32, u32>;

// The reference outlives the `ArcBorrow` that it is taken from.
fn value_of<'a>(handle: &'a Arc<u32>) -> &'a u32 {
    let borrow = handle.borrow_arc();
    borrow.get()
}

// Compares by a bound alone.
fn are_equal<T: Eq>(x: &T, y: &T) -> bool {
    x == y
}

#[test]
fn a_borrow_reads(rt: HostRuntime) {
    let a = arc_of(&rt, 7u32);
    let b = a.borrow_arc();
    let next = b.with_arc(|handle: &Arc<u32>| (**handle).wrapping_add(1));
    let was_unique = b.with_arc(|handle: &Arc<u32>| handle.is_unique());
    let seen = (*b.get(), *value_of(&a), next, was_unique);
    same!(&rt, seen, (7, 7, 8, true));
}

#[test]
fn a_borrow_clones(rt: HostRuntime) {
    let (a, other) = (arc_of(&rt, 7u32), arc_of(&rt, 7u32));
    let b = a.borrow_arc();
    let c = ok!(&rt, b.clone_arc(&rt));
    let same = [
        Arc::ptr_eq(&a, &c),
        ArcBorrow::ptr_eq(&b, &c.borrow_arc()),
        ArcBorrow::ptr_eq(&b, &other.borrow_arc()),
    ];
    let seen = (*c, a.is_unique(), same);
    same!(&rt, seen, (7, false, [true, true, false]));
}

#[test]
fn unions_are_compared_by_kind_and_value(rt: HostRuntime) {
    let first = Numbers::from_first(arc_of(&rt, 7));
    let other = Numbers::from_first(arc_of(&rt, 7));
    let second = Numbers::from_second(arc_of(&rt, 7));
    let eight = Numbers::from_first(arc_of(&rt, 8));
    let equal = [are_equal(&first, &other), first == second, first == eight];
    let has = [first.as_first().is_some(), first.as_second().is_some()];
    let seen = (equal, has, second.is_second());
    same!(&rt, seen, ([true, false, false], [true, false], true));
}
