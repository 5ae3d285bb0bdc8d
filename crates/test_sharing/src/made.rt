//! Values and checks that tests begin with.
use servo_arc::Arc;
use std::fmt::Debug;
use std::hash::{DefaultHasher, Hash, Hasher};
use std::process::Abort;
use testing::{holds, ok};

pub fn arc_of<T: Drop>(rt: &(impl Abort + AllocGlobal), value: T) -> Arc<T> {
    ok!(rt, Arc::new(rt.alloc(), value))
}

/// Compares, hashes and prints `x`.
pub fn ask<T: PartialEq + Hash + Debug>(rt: &(impl Abort + AllocGlobal), x: &T) {
    x.hash(&mut DefaultHasher::new());
    drop(ok!(rt, format!(in rt.alloc(); "{x:?}")));
    holds!(rt, x == x);
}
