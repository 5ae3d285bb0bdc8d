//! More threads, more handles, and each way in which a handle reaches a thread. Each thread is joined.
use crate::made::{arc_of, both};
use servo_arc::{Arc, RawArc, StaticArc, ThinArc};
use std::thread;
use testing::counted::{Counted, Tally};
use testing::{again, holds, ok, same};

const TRIES: u64 = 250_000;

// The number of `clone`s that fail, as they may while others clone, or `None` if a clone reads another value.
fn count_refused(handle: &Arc<u64>) -> Option<u64> {
    let mut refused = 0u64;
    for _ in 0..TRIES {
        match handle.clone() {
            Ok(again) if *again == 7 => {}
            Ok(_) => return None,
            Err(_) => refused = refused.wrapping_add(1),
        }
    }
    Some(refused)
}

// A `clone` fails after 64 failed compare-exchanges in a row, which four threads that only clone hardly ever cause.
// With 4 in place of 64, more than one in a hundred would fail if the threads run at once.
#[test]
fn four_threads_are_seldom_refused(rt: HostRuntime) {
    let a = arc_of(&rt, 7u64);
    let counted = thread::map_indices(&rt, rt.alloc(), 4, &|_| count_refused(&a));
    let mut refused = 0u64;
    for number in ok!(&rt, counted) {
        refused = refused.wrapping_add(number.expect(&rt, "another value"));
    }
    let told = println!(rt; "refused {refused} times of {}", 4 * TRIES);
    ok!(&rt, told);
    holds!(&rt, refused < TRIES / 25 && a.is_unique() && *a == 7);
}

const CLONES: u64 = 1000;

pub fn clone_and_drop<T: Drop>(handle: &Arc<T>) {
    for _ in 0..CLONES {
        let again: Result<_, _> = handle.clone();
        drop(again);
    }
}

#[test]
fn a_leaked_value_outlives_two_threads(rt: HostRuntime) {
    let tally = Tally::new();
    let a = ok!(&rt, Arc::new_leaked(rt.alloc(), Counted::new(&tally, 5)));
    let done = thread::map_indices(&rt, rt.alloc(), 2, &|_| clone_and_drop(&a));
    ok!(&rt, done);
    let marks = (a.is_static(), a.is_unique());
    drop(a);
    same!(&rt, (marks, tally.drops()), ((true, false), 0));
}

#[test]
fn a_header_slice_of_two_threads_is_dropped_once(rt: HostRuntime) {
    let (header, first, second) = (Tally::new(), Tally::new(), Tally::new());
    let items = both(&rt, Counted::new(&first, 1), Counted::new(&second, 2)).into_iter();
    let built = Arc::from_header_and_iter(rt.alloc(), Counted::new(&header, 3), items);
    let a: ThinArc<Counted<'_>, Counted<'_>> = ok!(&rt, built);
    let b = again!(&rt, &a);
    let handles = both(&rt, a, b);
    let done = thread::map_vec(&rt, handles, &|handle| clone_and_drop(&handle));
    ok!(&rt, done);
    let drops = (header.drops(), first.drops(), second.drops());
    same!(&rt, drops, (1, 1, 1));
}

// A raw handle that can be moved to a thread: a closure holds only values that may be dropped.
struct Parcel<'a> {
    raw: RawArc<Counted<'a>>,
}

impl<'a> Parcel<'a> {
    fn open(self) -> Arc<Counted<'a>> {
        let Parcel { raw } = self;
        Arc::from_raw(raw)
    }
}

impl Drop for Parcel<'_> {
    fn drop(self) {
        let Parcel { raw } = self;
        drop(Arc::from_raw(raw));
    }
}

#[test]
fn a_token_is_spent_on_another_thread(rt: HostRuntime) {
    let tally = Tally::new();
    let a = arc_of(&rt, Counted::new(&tally, 5));
    let parcel = Parcel {
        raw: Arc::into_raw(again!(&rt, &a)),
    };
    let (read, _) = thread::join(
        &rt,
        || parcel.open().value,
        || {
            clone_and_drop(&a);
            drop(a);
        },
    );
    same!(&rt, (read, tally.drops()), (5, 1));
}

const HANDLES: u64 = 100_000;

// Makes and drops counted handles, each of which has to read the value.
fn make_and_drop(kept: StaticArc<'_, Counted<'_>>) -> bool {
    (0..HANDLES).all(|_: u64| kept.arc().value == 5)
}

#[test]
fn the_last_counted_handle_ends_while_a_static_one_is_used(rt: HostRuntime) {
    let tally = Tally::new();
    let last = arc_of(&rt, Counted::new(&tally, 5));
    let kept = again!(&rt, &last).into_static();
    let (right, ()) = thread::join(&rt, || make_and_drop(kept), || drop(last));
    let seen = (right, kept.arc().is_static(), tally.drops());
    same!(&rt, seen, (true, true, 0));
}
