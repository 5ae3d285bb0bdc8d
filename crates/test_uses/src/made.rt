//! Values that tests begin with.
use servo_arc::Arc;
use std::process::Abort;
use testing::ok;

pub fn arc_of<T: Drop>(rt: &(impl Abort + AllocGlobal), value: T) -> Arc<T> {
    ok!(rt, Arc::new(rt.alloc(), value))
}

pub fn text_of(rt: &(impl Abort + AllocGlobal), text: &str) -> Arc<String> {
    arc_of(rt, ok!(rt, String::from_str(rt.alloc(), text)))
}
