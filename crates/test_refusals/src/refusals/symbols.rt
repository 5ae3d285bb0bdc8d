//! What a failed call on an interner of header slices, or on a map of interned keys, leaves.
use crate::refusals::reporting::report;
use interner::{InternMap, Interner};
use servo_arc::{Arc, HeaderSlice};
use testing::counted::{Counted, Tally};
use testing::{ok, same};

// After the error the same call succeeds.
#[test]
fn a_refused_slice_can_be_interned_again(rt: HostRuntime) {
    let mut slices = Interner::<HeaderSlice<u8, u8>>::new(rt.alloc());
    let parts = (&1u8, &[2u8, 3][..]);
    if slices.intern_by(rt.alloc(), parts).is_err() {
        report(&rt, "a slice");
    }
    ok!(&rt, slices.intern_by(rt.alloc(), parts));
}

// After the error the value is dropped, as is one whose key is interned already.
#[test]
fn a_refused_key_is_not_there(rt: HostRuntime) {
    let (tally, mut map) = (Tally::new(), InternMap::new(rt.alloc()));
    let Ok(key) = Arc::new(rt.alloc(), 5u64) else {
        return report(&rt, "the key");
    };
    let again = ok!(&rt, key.clone());
    if map.get_or_insert(key, Counted::new(&tally, 1)).is_err() {
        same!(&rt, tally.living(1), 0);
        report(&rt, "a key or a value");
    }
    ok!(&rt, map.get_or_insert(again, Counted::new(&tally, 2)));
    same!(&rt, (tally.copies(), tally.living(2)), (0, 1));
}
