//! Values that tests begin with.
use servo_arc::Arc;
use std::fmt::{Debug, Display};
use std::process::Abort;
use testing::{again, ok, same};

pub fn arc_of<T: Drop>(rt: &(impl Abort + AllocGlobal), value: T) -> Arc<T> {
    ok!(rt, Arc::new(rt.alloc(), value))
}

/// Returns a vector of two jobs, one for each thread.
pub fn both<T: Drop>(rt: &(impl Abort + AllocGlobal), one: T, other: T) -> Vec<T> {
    let mut jobs = Vec::new(rt.alloc());
    ok!(rt, jobs.push(one));
    ok!(rt, jobs.push(other));
    jobs
}

/// Returns two handles of one block.
pub fn two_of<T: Drop>(rt: &(impl Abort + AllocGlobal), value: T) -> Vec<Arc<T>> {
    let handle = arc_of(rt, value);
    let other = again!(rt, &handle);
    both(rt, handle, other)
}

pub fn check_debug<T: Debug>(rt: &(impl Abort + AllocGlobal), value: &T, text: &str) {
    let found = format!(in rt.alloc(); "{value:?}");
    same!(rt, ok!(rt, found).as_str(), text);
}

pub fn check_display<T: Display>(rt: &(impl Abort + AllocGlobal), value: &T, text: &str) {
    let found = format!(in rt.alloc(); "{value}");
    same!(rt, ok!(rt, found).as_str(), text);
}
