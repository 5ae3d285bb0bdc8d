//! Tests in which one request for memory is refused, as in the crate `test_refusals`.
use std::io::Print;
use std::process::Abort;
use testing::{again, ok, same};
use uses::shared_json::Value;
use uses::shared_json::path::Step;

fn report(rt: &(impl Abort + Print), outcome: &str) {
    ok!(rt, println!(rt; "{outcome}"))
}

// A text that is refused memory makes no value, and an edit that is refused memory leaves the value and its snapshot.
#[test]
fn a_refused_edit_leaves_a_json_value(rt: HostRuntime) {
    let alloc = rt.alloc();
    let Ok(old) = Value::parse(alloc, "[[1], {\"a\": 2}]", 2) else {
        return report(&rt, "no value");
    };
    let mut new = again!(&rt, old);
    if new
        .set(alloc, &[Step::Item(0), Step::Item(0)], Value::Null)
        .is_err()
    {
        same!(&rt, new, old);
        return report(&rt, "no edit");
    }
    same!(&rt, new == old, false);
    if new.to_text(alloc).is_err() {
        report(&rt, "no text");
    }
}
