//! Threads that share one block. Each is joined. Threads that should act at the same moment wait for each other first.
use crate::made::{arc_of, both, two_of};
use crate::threads::many_threads::clone_and_drop;
use crate::threads::waiting::arrive;
use servo_arc::{Arc, ArcUnion};
use std::process::Abort;
use std::sync::Wait;
use std::sync::atomic::AtomicU64;
use std::thread;
use std::thread::Threads;
use testing::counted::{Counted, Tally};
use testing::{again, holds, ok, same, same_at};

// Clones and drops when the other thread does.
fn clone_after(rt: &impl Abort, here: &AtomicU64, handle: Arc<Counted<'_>>) -> bool {
    arrive(rt, here, 2);
    match handle.clone() {
        Ok(again) => again.value == 5 && handle.value == 5,
        Err(_) => false,
    }
}

// Two handles of one block.
type Pair<'a> = Vec<Arc<Counted<'a>>>;

fn by_token<'a>(rt: &(impl Abort + AllocGlobal + Wait), tally: &'a Tally) -> Pair<'a> {
    let raw = Arc::into_raw(arc_of(rt, Counted::new(tally, 5)));
    let added = Arc::from_raw_addrefed(&raw, rt);
    let a = Arc::from_raw(raw);
    both(rt, a, ok!(rt, added))
}

fn by_borrow<'a>(rt: &(impl Abort + AllocGlobal + Wait), tally: &'a Tally) -> Pair<'a> {
    let a = arc_of(rt, Counted::new(tally, 5));
    let b = ok!(rt, a.borrow_arc().clone_arc(rt));
    both(rt, a, b)
}

fn by_union<'a>(rt: &(impl Abort + AllocGlobal), tally: &'a Tally) -> Pair<'a> {
    let a = ArcUnion::<u64, _>::from_second(arc_of(rt, Counted::new(tally, 5)));
    let b = again!(rt, &a);
    both(rt, ok!(rt, a.into_second()), ok!(rt, b.into_second()))
}

fn check_pair<R: Abort + Threads + Sync>(rt: &R, tally: &Tally, pair: Pair<'_>) {
    let before = tally.drops();
    let here = AtomicU64::new(0);
    let done = thread::map_vec(rt, pair, &|handle| clone_after(rt, &here, handle));
    same!(rt, ok!(rt, done).as_slice(), &[true, true][..]);
    same!(rt, tally.drops().wrapping_sub(before), 1);
}

#[test]
fn handles_that_came_in_each_way_are_cloned_at_once(rt: HostRuntime) {
    let tally = Tally::new();
    check_pair(&rt, &tally, two_of(&rt, Counted::new(&tally, 5)));
    check_pair(&rt, &tally, by_token(&rt, &tally));
    check_pair(&rt, &tally, by_borrow(&rt, &tally));
    check_pair(&rt, &tally, by_union(&rt, &tally));
}

fn clone_often(handle: &Arc<u64>, rt: &impl Wait) -> bool {
    for _ in 0..1000 {
        match Arc::clone(handle, rt) {
            Ok(again) if *again == 7 => {}
            _ => return false,
        }
    }
    true
}

#[test]
fn four_threads_clone_a_lent_handle(rt: HostRuntime) {
    let a = arc_of(&rt, 7u64);
    let done = thread::map_indices(&rt, rt.alloc(), 4, &|_| clone_often(&a, &rt));
    same!(&rt, ok!(&rt, done).as_slice(), &[true; 4][..]);
    holds!(&rt, a.is_unique());
}

#[test]
fn a_mark_among_clones_keeps_the_value(rt: HostRuntime) {
    let tally = Tally::new();
    let kept = arc_of(&rt, Counted::new(&tally, 1));
    let handles = both(&rt, again!(&rt, &kept), again!(&rt, &kept));
    let c = again!(&rt, &kept);
    let (cloned, ()) = thread::join(
        &rt,
        || thread::map_vec(&rt, handles, &|handle| clone_and_drop(&handle)).is_ok(),
        || c.mark_as_intentionally_leaked(),
    );
    let is_static = kept.is_static();
    drop(kept);
    same!(&rt, (cloned, is_static, tally.drops()), (true, true, 0));
}

fn drop_after(rt: &impl Abort, here: &AtomicU64, handle: Arc<Counted<'_>>) {
    arrive(rt, here, 2);
    drop(handle);
}

#[test]
fn the_last_two_handles_drop_the_value_once(rt: HostRuntime) {
    let tally = Tally::new();
    for round in 1..=1000u64 {
        let here = AtomicU64::new(0);
        let handles = two_of(&rt, Counted::new(&tally, round));
        let done = thread::map_vec(&rt, handles, &|handle| drop_after(&rt, &here, handle));
        ok!(&rt, done);
        same!(&rt, tally.drops(), round);
    }
}

fn clone_union_often(union: ArcUnion<Counted<'_>, Counted<'_>>) -> bool {
    for _ in 0..1000 {
        match union.clone() {
            Ok(again) if again.is_first() == union.is_first() => {}
            _ => return false,
        }
    }
    true
}

#[test]
fn unions_of_both_kinds_on_two_threads_drop_each_value_once(rt: HostRuntime) {
    let (first_tally, second_tally) = (Tally::new(), Tally::new());
    let first = ArcUnion::<_, Counted<'_>>::from_first(arc_of(&rt, Counted::new(&first_tally, 1)));
    let second = ArcUnion::<Counted<'_>, _>::from_second(arc_of(
        &rt,
        Counted::new(&second_tally, 2),
    ));
    let (first_again, second_again) = (again!(&rt, &first), again!(&rt, &second));
    let done = thread::join(
        &rt,
        || clone_union_often(first) && clone_union_often(second),
        || clone_union_often(second_again) && clone_union_often(first_again),
    );
    same!(&rt, done, (true, true));
    same!(&rt, (first_tally.drops(), second_tally.drops()), (1, 1));
}

fn end(rt: &impl Abort, here: &AtomicU64, handle: Arc<u64>) -> Option<u64> {
    arrive(rt, here, 2);
    Arc::into_inner(handle)
}

#[test]
fn one_of_two_threads_gets_the_value(rt: HostRuntime) {
    for value in 0..1000u64 {
        let here = AtomicU64::new(0);
        let handles = two_of(&rt, value);
        let given = thread::map_vec(&rt, handles, &|handle| end(&rt, &here, handle));
        let given = ok!(&rt, given);
        let is_given = given.contains(&Some(value)) && given.contains(&None);
        same_at!(&rt, value, (given.len(), is_given), (2, true));
    }
}
