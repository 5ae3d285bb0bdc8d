//! Blocks with a limit of their own: each way to make a handle fails at the limit, and each way to end one keeps the
//! limit.
use servo_arc::word::MAX_REFCOUNT;
use servo_arc::{Arc, BuildError, ThinArc, UniqueArc};
use std::alloc::{AllocError, Global};
use std::process::Abort;
use std::sync::Wait;
use testing::{again, ok, same, same_at, shared};

fn is_full(handle: &Arc<u64>, rt: &impl Wait) -> bool {
    Arc::clone(handle, rt).is_err() && handle.clone().is_err()
}

#[test]
fn a_third_handle_waits_for_a_drop(rt: HostRuntime) {
    let a = ok!(&rt, Arc::new_with_limit(rt.alloc(), 5u64, 2));
    let b = again!(&rt, &a);
    let refused = a.borrow_arc().clone_arc(&rt).is_err();
    let seen = (is_full(&a, &rt), is_full(&b, &rt), refused);
    same!(&rt, seen, (true, true, true));
    drop(b);
    let c = ok!(&rt, Arc::clone(&a, &rt));
    same!(&rt, (*c, is_full(&c, &rt)), (5, true));
}

#[test]
fn the_only_handle_of_a_limit_of_one_writes(rt: HostRuntime) {
    let mut a = ok!(&rt, Arc::new_with_limit(rt.alloc(), 5u64, 1));
    let was_full = is_full(&a, &rt);
    if let Some(value) = Arc::get_mut(&mut a) {
        *value = 6;
    }
    a.mark_as_intentionally_leaked();
    let b = ok!(&rt, Arc::clone(&a, &rt));
    let c = again!(&rt, &b);
    same!(&rt, (was_full, *b, *c), (true, 6, 6));
}

#[test]
fn a_copied_block_keeps_the_limit(rt: HostRuntime) {
    let mut a = ok!(&rt, Arc::new_with_limit(rt.alloc(), 5u64, 2));
    let b = again!(&rt, &a);
    *ok!(&rt, Arc::make_mut(&mut a, rt.alloc())) = 9;
    for (handle, value) in [(&a, 9), (&b, 5)] {
        let other = ok!(&rt, Arc::clone(handle, &rt));
        same!(&rt, (*other, is_full(handle, &rt)), (value, true));
    }
}

#[test]
fn tokens_count_to_the_limit(rt: HostRuntime) {
    let raw = Arc::into_raw(ok!(&rt, Arc::new_with_limit(rt.alloc(), 5u64, 2)));
    let first = Arc::from_raw_addrefed(&raw, &rt);
    let second = Arc::from_raw_addrefed(&raw, &rt);
    let kept = Arc::from_raw(raw);
    let seen = (*ok!(&rt, first), second.is_err(), *kept);
    same!(&rt, seen, (5, true, 5));
}

// More than 16 bits can count, as is the greatest of the limits.
const MANY: usize = 70_000;

const LIMITS: [u64; 4] = [1, 2, 3, 65_537];

/// Returns the number of handles at which the next `clone` fails, or `MANY`.
fn counted<H: Clone + Drop>(alloc: Global, first: &H) -> Result<usize, AllocError> {
    let mut others = Vec::with_capacity(alloc, MANY)?;
    for handles in 1..MANY {
        match first.clone() {
            Ok(other) => others.push(other)?,
            Err(AllocError) => return Ok(handles),
        }
    }
    Ok(MANY)
}

fn written(alloc: Global, mut handle: Arc<u64>) -> Result<Arc<u64>, AllocError> {
    *Arc::make_mut(&mut handle, alloc)? = 9;
    Ok(handle)
}

fn limited(rt: &(impl Abort + AllocGlobal), limit: u64) -> Arc<u64> {
    let limit = limit.clamp(1, MAX_REFCOUNT);
    ok!(rt, Arc::new_with_limit(rt.alloc(), 5, limit))
}

// The other handle keeps the block. At a limit of 1 there is no other handle, and the block is written in place.
fn copied(alloc: Global, made: Result<Arc<u64>, u64>) -> Option<Arc<u64>> {
    let handle = made.ok()?;
    let _other = handle.clone().ok();
    written(alloc, handle).ok()
}

fn check_made<T: Drop>(rt: &(impl Abort + AllocGlobal), made: Vec<Option<Arc<T>>>, handles: usize) {
    for (number, made) in made.into_iter().enumerate() {
        let handle = ok!(rt, made.ok_or("not made"));
        let found = counted(rt.alloc(), &handle);
        same_at!(rt, (handles, number), found, Ok(handles));
    }
}

/// Returns the only handle of a block, once for each call that keeps the limit.
fn by_each_way(rt: &(impl Abort + AllocGlobal), limit: u64) -> Vec<Option<Arc<u64>>> {
    let alloc = rt.alloc();
    let unique = Arc::into_unique(limited(rt, limit));
    let marked = limited(rt, limit);
    marked.mark_as_intentionally_leaked();
    let handles = vec![in alloc;
        Some(limited(rt, limit)),
        shared(unique).ok(),
        Some(Arc::from_raw(Arc::into_raw(limited(rt, limit)))),
        written(alloc, limited(rt, limit)).ok(),
        copied(alloc, Ok(limited(rt, limit))),
        written(alloc, marked).ok(),
    ];
    ok!(rt, handles)
}

#[test]
fn each_way_keeps_each_limit(rt: HostRuntime) {
    for limit in LIMITS {
        check_made(&rt, by_each_way(&rt, limit), limit as usize);
    }
}

fn made_otherwise(alloc: Global) -> Result<Vec<Option<Arc<u64>>>, AllocError> {
    let unique = UniqueArc::new(alloc, 5u64);
    let tried = UniqueArc::try_new(alloc, 5u64);
    let unwritten = UniqueArc::new_uninit(alloc).ok();
    Ok(vec![in alloc;
        Arc::new_with_limit(alloc, 5, MAX_REFCOUNT).ok(),
        Arc::try_new(alloc, 5).ok(),
        shared(tried).ok(),
        Arc::new(alloc, 5).ok(),
        Arc::from_value(alloc, 5).ok(),
        Arc::try_default(alloc).ok(),
        shared(unique).ok(),
        unwritten.map(|block| block.write(5u64).shareable()),
        copied(alloc, Arc::new(alloc, 5)),
        copied(alloc, Arc::new_leaked(alloc, 5)),
        copied(alloc, Arc::new_static(alloc, 5)),
    ]?)
}

fn built_otherwise(alloc: Global) -> Result<Vec<Option<ThinArc<u64, u64>>>, AllocError> {
    let one = [1u64];
    let unique = UniqueArc::from_header_and_iter(alloc, 5u64, one.into_iter());
    let sized = UniqueArc::from_header_and_iter_with_size(alloc, 5u64, one.into_iter(), 1);
    let tried: Result<_, BuildError> = Arc::try_from_header_and_iter(
        alloc,
        5,
        one.into_iter().map(Ok),
    );
    Ok(vec![in alloc;
        Arc::from_header_and_iter(alloc, 5, one.into_iter()).ok(),
        Arc::from_header_and_iter_with_size(alloc, 5, one.into_iter(), 1).ok(),
        Arc::from_header_and_iter_alloc(alloc, 5, one.into_iter(), 1, false).ok(),
        shared(unique).ok(),
        shared(sized).ok(),
        tried.ok(),
        Arc::from_header_and_slice(alloc, 5, &one).ok(),
        Arc::from_header_and_clones(alloc, 5, &one).ok(),
        Arc::from_header_and_vec(alloc, 5, one.to_vec(alloc)?).ok(),
    ]?)
}

// As far as a test can count handles, no other constructor sets a limit.
#[test]
fn other_makers_have_the_greatest_limit(rt: HostRuntime) {
    check_made(&rt, ok!(&rt, made_otherwise(rt.alloc())), MANY);
    check_made(&rt, ok!(&rt, built_otherwise(rt.alloc())), MANY);
}
