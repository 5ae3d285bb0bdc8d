//! What a failed constructor of a handle, or a failed copy of its value, leaves.
use self::Maker::*;
use crate::refusals::reporting::report;
use servo_arc::word::MAX_REFCOUNT;
use servo_arc::{Arc, StaticArc, UniqueArc};
use std::alloc::{AllocError, Global};
use std::io::Print;
use std::process::Abort;
use testing::counted::{Counted, Tally};
use testing::{holds, ok, same, shared};

#[derive(Clone, Copy, Debug)]
enum Maker {
    New,
    Limited,
    NewLeaked,
    NewStatic,
    Static,
    FromValue,
    Unique,
    TryNew,
    TryUnique,
}

const MAKERS: [Maker; 9] = [
    New, Limited, NewLeaked, NewStatic, Static, FromValue, Unique, TryNew, TryUnique,
];

fn made<T: Drop>(maker: Maker, alloc: Global, value: T) -> Result<Arc<T>, T> {
    match maker {
        New => Arc::new(alloc, value),
        Limited => Arc::new_with_limit(alloc, value, 2),
        NewLeaked => Arc::new_leaked(alloc, value),
        NewStatic => Arc::new_static(alloc, value),
        Static => Ok(StaticArc::new(alloc, value)?.arc()),
        FromValue => Arc::from_value(alloc, value),
        Unique => shared(UniqueArc::new(alloc, value)),
        TryNew => Arc::try_new(alloc, value).map_err(|failed| failed.value),
        TryUnique => shared(UniqueArc::try_new(alloc, value)).map_err(|failed| failed.value),
    }
}

#[test]
fn a_refused_maker_hands_the_value_back(rt: HostRuntime) {
    for maker in MAKERS {
        let tally = Tally::new();
        match made(maker, rt.alloc(), Counted::new(&tally, 5)) {
            Ok(handle) => same!(&rt, (handle.value, tally.drops()), (5, 0)),
            Err(value) => {
                same!(&rt, (value.value, tally.drops()), (5, 0));
                drop(value);
                same!(&rt, tally.drops(), 1);
                ok!(&rt, println!(rt; "{maker:?}: the value back"));
            }
        }
    }
}

#[test]
fn a_refused_default_comes_back_and_an_unwritten_block_is_none(rt: HostRuntime) {
    match Arc::<u32>::try_default(rt.alloc()) {
        Ok(handle) => same!(&rt, *handle, 0),
        Err(value) => ok!(&rt, println!(rt; "try_default: {value} back")),
    }
    let tally = Tally::new();
    match UniqueArc::new_uninit(rt.alloc()) {
        Ok(unwritten) => {
            let unique = unwritten.write(Counted::new(&tally, 5));
            same!(&rt, (unique.value, tally.drops()), (5, 0));
        }
        Err(AllocError) => report(&rt, "new_uninit: no block"),
    }
}

// Two handles of one block.
fn shared_list(alloc: Global, len: usize, limit: u64) -> Option<(Arc<Vec<u32>>, Arc<Vec<u32>>)> {
    let list = vec![in alloc; 7u32; len].ok()?;
    let a = Arc::new_with_limit(alloc, list, limit.clamp(2, MAX_REFCOUNT)).ok()?;
    let b = a.clone().ok()?;
    Some((a, b))
}

fn has_sevens(handle: &Arc<Vec<u32>>, len: usize) -> bool {
    handle.len() == len && handle.iter().all(|item| *item == 7)
}

fn check_copy(rt: &(impl Abort + Print + AllocGlobal), len: usize, limit: u64) {
    let Some((mut a, b)) = shared_list(rt.alloc(), len, limit) else {
        return report(rt, "the set-up");
    };
    match Arc::make_mut(&mut a, rt.alloc()) {
        Ok(list) => {
            list.clear();
            holds!(rt, a.is_empty() && !Arc::ptr_eq(&a, &b));
        }
        Err(AllocError) => {
            holds!(rt, has_sevens(&a, len) && Arc::ptr_eq(&a, &b));
            report(rt, "make_mut: the handle as before");
        }
    }
    holds!(rt, has_sevens(&b, len));
}

#[test]
fn a_refused_copy_leaves_the_handle(rt: HostRuntime) {
    for limit in [2, 3, 1000, MAX_REFCOUNT] {
        for len in [1, 3, 1000, 16_384] {
            check_copy(&rt, len, limit);
        }
    }
}
