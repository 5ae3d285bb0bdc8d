//! What a failed header slice of clones leaves: any of the clones may fail.
use crate::refusals::reporting::report;
use servo_arc::Arc;
use testing::counted::{Counted, Tally};
use testing::{ok, same};

// Each clone allocates, and is freed again.
#[test]
fn a_refused_clone_drops_those_before_it(rt: HostRuntime) {
    let (alloc, tally) = (rt.alloc(), Tally::new());
    let (Ok(five), Ok(six)) = (vec![in alloc; 5u32], vec![in alloc; 6u32]) else {
        return report(&rt, "the set-up");
    };
    let lists = [five, six];
    let is_made = Arc::from_header_and_clones(alloc, Counted::new(&tally, 9), &lists).is_ok();
    ok!(&rt, println!(rt; "{is_made}"));
    same!(&rt, tally.drops(), 1);
}
