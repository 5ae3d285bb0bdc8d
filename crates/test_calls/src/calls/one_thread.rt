//! Calls of raw handles, unique handles, unwritten blocks and two constructors, and the traits that handles forward to
//! their values, each once.
use crate::made::{arc_of, check_debug};
use servo_arc::{Arc, UniqueArc};
use std::alloc::AllocError;
use std::collections::HashMap;
use std::process::Abort;
use testing::counted::{Counted, Tally};
use testing::{again, holds, ok, same};

#[test]
fn a_token_is_a_handle(rt: HostRuntime) {
    let raw = Arc::into_raw(arc_of(&rt, 7u64));
    let read = *raw.value();
    let added = Arc::from_raw_addrefed(&raw, &rt);
    let c = Arc::from_raw(raw);
    let b = ok!(&rt, added);
    let shared = (read, *b, *c, Arc::ptr_eq(&b, &c), c.is_unique());
    drop(b);
    same!(&rt, (shared, c.is_unique()), ((7, 7, 7, true, false), true));
}

#[test]
fn a_unique_handle_is_written_and_then_shared(rt: HostRuntime) {
    let mut x = ok!(&rt, UniqueArc::new(rt.alloc(), [1u64, 2, 3, 4, 5]));
    x[4] = 7;
    let read = x[4];
    let a = x.shareable();
    let seen = (read, *a, a.is_unique(), a.is_static());
    same!(&rt, seen, (7, [1, 2, 3, 4, 7], true, false));
}

#[test]
fn a_leaked_value_is_written_for_good(rt: HostRuntime) {
    let tally = Tally::new();
    let leaked = ok!(&rt, UniqueArc::new(rt.alloc(), Counted::new(&tally, 5))).leak();
    leaked.value = 7;
    same!(&rt, (leaked.value, tally.read()), (7, (0, 0)));
}

#[test]
fn an_unwritten_block_drops_no_value(rt: HostRuntime) {
    let tally = Tally::new();
    drop(ok!(&rt, UniqueArc::<Counted<'_>>::new_uninit(rt.alloc())));
    let unwritten = tally.drops();
    let a = ok!(&rt, UniqueArc::new_uninit(rt.alloc()))
        .write(Counted::new(&tally, 2))
        .shareable();
    let written = (a.value, tally.drops());
    drop(a);
    same!(&rt, (unwritten, written, tally.drops()), (0, (2, 0), 1));
}

// Whether two handles of one block are equal, and whether a unique handle equals itself.
fn equals_itself<T: PartialEq + Drop>(rt: &(impl Abort + AllocGlobal), value: T) -> [bool; 2] {
    let a = arc_of(rt, value);
    let b = again!(rt, &a);
    let is_equal = a == b;
    drop(b);
    let unique = ok!(rt, Arc::into_unique(a));
    [is_equal, unique == unique]
}

#[test]
fn equality_asks_the_values(rt: HostRuntime) {
    same!(&rt, equals_itself(&rt, NeverEqual), [false, false]);
}

// Equal to no value, and never copied.
#[derive(Drop)]
struct NeverEqual;

impl Clone for NeverEqual {
    fn clone(&self) -> Result<NeverEqual, AllocError> {
        Err(AllocError)
    }
}

#[test]
fn a_refused_copy_ends_the_handle_all_the_same(rt: HostRuntime) {
    let a = arc_of(&rt, NeverEqual);
    let b = again!(&rt, &a);
    holds!(&rt, Arc::unwrap_or_clone(a).is_err() && b.is_unique());
}

impl PartialEq for NeverEqual {
    ghost use Rattle.std.specs.Prelude.{false, refl};

    ghost eq = { λ _ _. false };

    ghost laws = { record { symm = λ _ _. refl; trans = λ _ _ _ equal _. equal } };

    fn eq(&self, _other: &NeverEqual) -> bool {
        false
    }
}

#[test]
fn a_map_is_keyed_by_handles(rt: HostRuntime) {
    let mut map = HashMap::new(rt.alloc());
    ok!(&rt, map.insert(arc_of(&rt, 7u32), 1u8));
    same!(&rt, map.get(&arc_of(&rt, 7)).copied(), Some(1));
    same!(&rt, map.get(&arc_of(&rt, 8)).copied(), None);
}

#[test]
fn handles_are_sorted(rt: HostRuntime) {
    let handles = vec![in rt.alloc(); arc_of(&rt, 3u32), arc_of(&rt, 1), arc_of(&rt, 2)];
    let mut handles = ok!(&rt, handles);
    ok!(&rt, handles.sort());
    check_debug(&rt, &handles, "[1, 2, 3]");
}

#[test]
fn a_handle_of_a_default_or_of_a_value(rt: HostRuntime) {
    let zero = ok!(&rt, Arc::<u32>::try_default(rt.alloc()));
    let nine = ok!(&rt, Arc::from_value(rt.alloc(), 9u32));
    let seen = (*zero, zero.is_unique(), *nine, nine.is_unique());
    same!(&rt, seen, (0, true, 9, true));
}
