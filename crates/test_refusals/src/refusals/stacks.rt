//! The items that a failed call on a stack drops.
use crate::refusals::reporting::report;
use maps::Stack;
use std::io::Print;
use std::process::Abort;
use testing::counted::{Counted, Tally};
use testing::same;

// Creates, reverses and lengthens a stack of these items.
fn make_stacks<'a>(
    rt: &(impl Abort + AllocGlobal + Print),
    items: Vec<Counted<'a>>,
    last: Counted<'a>,
) {
    let Ok(stack) = Stack::from_items(rt.alloc(), items) else {
        return report(rt, "a node");
    };
    if stack.reverse(rt.alloc()).is_err() {
        report(rt, "a node of the reversed stack");
    }
    if stack.push(rt.alloc(), last).is_err() {
        report(rt, "a node in front");
    }
}

#[test]
fn a_refused_stack_drops_its_items(rt: HostRuntime) {
    let tally = Tally::new();
    let Ok(items) = Vec::from_array(rt.alloc(), [1, 2].map(|value| Counted::new(&tally, value)))
    else {
        return report(&rt, "the items");
    };
    make_stacks(&rt, items, Counted::new(&tally, 3));
    same!(&rt, (tally.copies() <= 2, tally.living(3)), (true, 0));
}
