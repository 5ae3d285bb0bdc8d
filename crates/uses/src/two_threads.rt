//! Two threads that share a count by capabilities (`CountPass`), and what their contracts say.
ghost use Rattle.std.specs.Prelude.{◌≡◌, ◌+◌, [], IfOk, if◌then◌else◌};
ghost use Rattle.servo_arc.specs.HistoryLaws.{count_calls, is_last, is_mark};
ghost use Rattle.servo_arc.specs.Passes.{handles, own_calls};

use servo_arc::shared_count::{CountPass, EndReply, SharedCount, laws};
use std::alloc::{AllocError, Global};
use std::thread::{Threads, join};

/// Counts the zeros among the numbers, and then ends the only handle of the capability. Returns `true` for the last
/// handle of all, after which the thread has to clean up.
fn look(count: &SharedCount, pass: CountPass, numbers: &[u32]) -> (CountPass, usize, bool)
    requires here { pass.count ≡ count.now }
    requires one { handles pass ≡ 1 }
    requires new { own_calls pass ≡ [] }
    ensures pass { (result.0.count ≡ pass.count) × (result.0.name ≡ pass.name) }
    ensures spent { handles result.0 ≡ 0 }
    ensures told { count_calls is_last (own_calls result.0) ≡ (if result.2 then 1 else 0) }
    ensures unmarked { count_calls is_mark (own_calls result.0) ≡ 0 }
{
    let mut pass = pass;
    let zeros = numbers.iter().filter(|x| **x == 0).count();
    match count.end(&mut pass) {
        EndReply::Last => (pass, zeros, true),
        EndReply::Ended => (pass, zeros, false),
    }
}

/// Joins the knowledge of two capabilities of a count. If neither owns a handle any more and neither made the count
/// static, exactly one of their ends was the last.
fn settle(count: &SharedCount, first: CountPass, second: CountPass)
    requires two { count.now.passes ≡ 2 }
    requires first { (first.count ≡ count.now) × (first.name ≡ 0) }
    requires second { (second.count ≡ count.now) × (second.name ≡ 1) }
    requires spent { (handles first ≡ 0) × (handles second ≡ 0) }
    requires unmarked { count_calls is_mark (own_calls first)
        + count_calls is_mark (own_calls second) ≡ 0 }
    ensures { count_calls is_last (own_calls first) + count_calls is_last (own_calls second) ≡ 1 }
{
    let mut first = first;
    let mut second = second;
    count.meet(&mut first, &mut second);
    laws::one_end_is_last();
}

/// Two threads look at the same numbers. Exactly one of them is told that it was the last.
pub fn look_in_two_threads<R: Threads + Sync>(
    rt: &R,
    alloc: Global,
    numbers: &[u32],
) -> Result<(bool, bool), AllocError>
    ensures { IfOk result (λ was_last. (if was_last.0 then 1 else 0)
        + (if was_last.1 then 1 else 0) ≡ 1) }
{
    let (count, mut passes) = SharedCount::open(alloc, 2)?;
    let second = passes.pop().unwrap();
    let first = passes.pop().unwrap();
    let ((first, _, first_is_last), (second, _, second_is_last)) = join(
        rt,
        || look(&count, first, numbers),
        || look(&count, second, numbers),
    );
    settle(&count, first, second);
    Ok((first_is_last, second_is_last))
}
