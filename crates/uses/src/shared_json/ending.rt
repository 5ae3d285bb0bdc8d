//! Dropping a deep value.
use super::Value;
use std::alloc::Global;

impl Value {
    /// Drops the value in a loop, level by level, so that a deep value needs no deeper call stack than a flat one.
    ///
    /// O(n log n) for n parts, each counted at each of its places, also for parts that another version (snapshot)
    /// shares: a shared list or object is copied as it is taken apart, and the other version keeps its own. So drop a
    /// value that is not deep as any value is dropped, which leaves what others share alone.
    ///
    /// The work list and the copies need memory. If there is none, what was to be listed is dropped by recursion, as
    /// any value is. A `drop` written by hand could loop too, but then no `match` could move a part out of a value.
    pub fn end(self, alloc: Global) {
        let mut left = Vec::new(alloc);
        let _ = left.push(self);
        for _ in 0..u64::MAX {
            let Some(value) = left.pop() else { return };
            value.end_one(alloc, &mut left);
        }
    }

    // Takes the value apart, and lists the parts.
    fn end_one(self, alloc: Global, left: &mut Vec<Value>) {
        match self {
            Value::List(mut items) => {
                for _ in 0..items.len() {
                    let Ok(Some(item)) = items.pop(alloc) else {
                        return;
                    };
                    let _ = left.push(item);
                }
            }
            Value::Map(mut members) => {
                for _ in 0..members.len() {
                    let Ok(Some((_, member))) = members.pop_last(alloc) else {
                        return;
                    };
                    let _ = left.push(member);
                }
            }
            _ => {}
        }
    }
}
