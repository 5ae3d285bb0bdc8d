//! The decision of a clone, at the words on both sides of each rule.
use servo_arc::word::{ClonePlan, MARK, MAX_REFCOUNT, plan_clone};
use testing::same;

#[test]
fn a_clone_is_planned_by_mark_and_limit(rt: HostRuntime) {
    let plans = [
        plan_clone(MAX_REFCOUNT - 1, MAX_REFCOUNT),
        plan_clone(MAX_REFCOUNT, MAX_REFCOUNT),
        plan_clone(MARK, MAX_REFCOUNT),
        plan_clone(1, 1),
        plan_clone(1, 2),
        plan_clone(MARK + 5, 1),
    ];
    let expected = [
        ClonePlan::Raise(9_223_372_036_854_775_807),
        ClonePlan::Full,
        ClonePlan::Static,
        ClonePlan::Full,
        ClonePlan::Raise(2),
        ClonePlan::Static,
    ];
    same!(&rt, plans, expected);
}
