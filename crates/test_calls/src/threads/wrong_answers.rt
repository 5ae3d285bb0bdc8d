//! How often `ptr_eq` is wrong while other threads compare the same blocks, as its contract allows. Each figure is
//! printed. The number of times that two blocks are taken for one has a bound: with one stamp in place of two, a fifth
//! to a half of all answers was wrong. One block may be taken for two in most calls if the threads keep in step, so
//! that number has no bound. Once the other threads have ended the answers are right again.
use crate::made::arc_of;
use servo_arc::Arc;
use std::thread::{Threads, join};
use testing::{again, holds, ok, same};

const CALLS: u64 = 25_000;

// Whether two threads keep in step differs from round to round, so the worst round is printed.
const ROUNDS: u64 = 20;

type Pair<'a> = (&'a Arc<u64>, &'a Arc<u64>);

fn count(answer: bool, pair: Pair<'_>) -> u64 {
    let mut answers = 0u64;
    for _ in 0..CALLS {
        if Arc::ptr_eq(pair.0, pair.1) == answer {
            answers = answers.wrapping_add(1);
        }
    }
    answers
}

// The greatest number of such answers that two threads get at once in a round.
fn count_most<R: Threads + Sync>(rt: &R, answer: bool, one: Pair<'_>, other: Pair<'_>) -> u64 {
    let mut most = 0u64;
    for _ in 0..ROUNDS {
        let (first, second) = join(rt, || count(answer, one), || count(answer, other));
        most = most.max(first.wrapping_add(second));
    }
    most
}

const ALL: u64 = 2 * CALLS;

#[test]
fn two_threads_seldom_get_a_wrong_answer(rt: HostRuntime) {
    let a = arc_of(&rt, 1u64);
    let b = again!(&rt, &a);
    let c = arc_of(&rt, 1u64);
    let of_one = count_most(&rt, false, (&a, &b), (&a, &b));
    let from_one_end = count_most(&rt, true, (&a, &c), (&a, &c));
    let from_opposite_ends = count_most(&rt, true, (&a, &c), (&c, &a));
    let text = println!(rt;
        "of {ALL}: one block: false {of_one} times\n\
         two blocks, from one end: true {from_one_end} times\n\
         two blocks, from opposite ends: true {from_opposite_ends} times"
    );
    ok!(&rt, text);
    holds!(&rt, from_one_end.max(from_opposite_ends) < ALL / 20);
    let alone = [Arc::ptr_eq(&a, &b), Arc::ptr_eq(&a, &c)];
    same!(&rt, alone, [true, false]);
}
