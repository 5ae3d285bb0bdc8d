//! `ptr_eq` distinguishes equal values in different blocks, and not handles of one block.
use crate::made::arc_of;
use servo_arc::{Arc, ArcUnion};
use std::process::Abort;
use testing::{again, same};

#[test]
fn handles_are_told_apart(rt: HostRuntime) {
    let (a, b) = (arc_of(&rt, 1u64), arc_of(&rt, 1u64));
    for _ in 0..1000 {
        let c = again!(&rt, &a);
        let found = [
            Arc::ptr_eq(&a, &c),
            Arc::ptr_eq(&c, &a),
            Arc::ptr_eq(&c, &b),
            Arc::ptr_eq(&b, &c),
        ];
        same!(&rt, found, [true, true, false, false]);
    }
}

type Numbers = ArcUnion<u32, u32>;

fn check_union(rt: &impl Abort, union: Numbers, equal: Numbers) {
    let again = again!(rt, &union);
    let found = [
        Numbers::ptr_eq(&union, &again),
        Numbers::ptr_eq(&union, &equal),
    ];
    same!(rt, found, [true, false]);
}

#[test]
fn unions_are_told_apart(rt: HostRuntime) {
    let first = || Numbers::from_first(arc_of(&rt, 7));
    let second = || Numbers::from_second(arc_of(&rt, 7));
    check_union(&rt, first(), first());
    check_union(&rt, second(), second());
    check_union(&rt, first(), second());
    let block = arc_of(&rt, 7);
    let first = Numbers::from_first(again!(&rt, &block));
    let second = Numbers::from_second(block);
    same!(&rt, Numbers::ptr_eq(&first, &second), false);
}
