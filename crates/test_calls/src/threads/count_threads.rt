//! Threads that share a count.
ghost use Rattle.std.specs.Prelude.{◌≡◌, ◌+◌, ◌<◌};
ghost use Rattle.servo_arc.specs.Passes.{handles};

use crate::threads::waiting::arrive;
use servo_arc::shared_count::{CountPass, EndReply, SharedCount, TryClone};
use std::process::Abort;
use std::sync::atomic::AtomicU64;
use std::thread::{Threads, join};
use testing::{ok, same};

const TURNS: u32 = 10_000;

// The numbers of replies of each kind that a thread got.
#[derive(Clone, Copy, Default)]
struct Replies {
    born: u64,
    ended: u64,
    last: u64,
}

fn end_one(count: &SharedCount, pass: &mut CountPass, replies: &mut Replies)
    requires { (pass.old.count ≡ count.now) × (0 < handles pass.old) }
    ensures { (pass.new.count ≡ pass.old.count) × (handles pass.new + 1 ≡ handles pass.old) }
{
    match count.end(pass) {
        EndReply::Ended => replies.ended = replies.ended.saturating_add(1),
        EndReply::Last => replies.last = replies.last.saturating_add(1),
    }
}

// Clones and ends many times, and at last ends the capability's own handle.
fn churn(
    rt: &impl Abort,
    count: &SharedCount,
    pass: CountPass,
    here: &AtomicU64,
) -> (CountPass, Replies)
    requires { (pass.count ≡ count.now) × (handles pass ≡ 1) }
    ensures { result.0.count ≡ count.now }
{
    let (mut pass, mut replies) = (pass, Replies::default());
    arrive(rt, here, 3);
    for _ in 0..TURNS {
        if pass.owned() == 1 && count.try_clone(&mut pass) == TryClone::Born {
            replies.born = replies.born.saturating_add(1);
            end_one(count, &mut pass, &mut replies);
        }
    }
    if pass.owned() == 1 {
        end_one(count, &mut pass, &mut replies);
    }
    (pass, replies)
}

fn churn_two<R: Abort + Threads + Sync>(
    rt: &R,
    count: &SharedCount,
    b: CountPass,
    c: CountPass,
    here: &AtomicU64,
) -> ((CountPass, Replies), (CountPass, Replies))
    requires b { (b.count ≡ count.now) × (handles b ≡ 1) }
    requires c { (c.count ≡ count.now) × (handles c ≡ 1) }
    ensures { (result.0.0.count ≡ count.now) × (result.1.0.count ≡ count.now) }
{
    join(
        rt,
        || churn(rt, count, b, here),
        || churn(rt, count, c, here),
    )
}

#[test]
fn one_of_three_threads_is_last(rt: HostRuntime) {
    let (count, mut passes) = ok!(&rt, SharedCount::open(rt.alloc(), 3));
    let c = passes.pop().unwrap();
    let b = passes.pop().unwrap();
    let a = passes.pop().unwrap();
    let here = AtomicU64::new(0);
    let ((mut a, first), ((mut b, second), (c, third))) = join(
        &rt,
        || churn(&rt, &count, a, &here),
        || churn_two(&rt, &count, b, c, &here),
    );
    count.meet(&mut a, &mut b);
    let mut last = 0u64;
    for (owned, replies) in [(a.owned(), first), (b.owned(), second), (c.owned(), third)] {
        let all = replies.ended.saturating_add(replies.last);
        same!(&rt, (owned, all), (0, replies.born.saturating_add(1)));
        last = last.saturating_add(replies.last);
    }
    same!(&rt, last, 1);
}
