//! What a shared count leaves that failed to open.
use crate::refusals::reporting::report;
use servo_arc::shared_count::{EndReply, TryClone};
use testing::holds;
use testing::opened::open_two;

// No other call makes a request.
#[test]
fn open_alone_takes_memory(rt: HostRuntime) {
    let Ok((count, mut p, mut q)) = open_two(rt.alloc()) else {
        return report(&rt, "no count");
    };
    count.meet(&mut p, &mut q);
    holds!(&rt, count.try_clone(&mut p) == TryClone::Born);
    holds!(&rt, !count.is_unique(&mut p));
    count.mark(&mut q);
    holds!(&rt, count.is_static(&mut p));
    holds!(&rt, count.end(&mut p) == EndReply::Ended);
}
