//! The blocks that an interner keeps and drops, and its texts.
use crate::made::arc_of;
use interner::{InternError, InternMap, Interner};
use sequence::PlaceError;
use servo_arc::{Arc, HeaderSlice};
use std::hash::{BuildHasher, BuildHasherDefault, FoldHasher, RandomState};
use std::process::Abort;
use testing::counted::{Counted, Tally};
use testing::{again, holds, ok, same};

#[derive(Clone, Copy, Debug, PartialEq, Eq, Hash)]
struct Color {
    red: u8,
    blue: u8,
}

const RED: Color = Color { red: 255, blue: 0 };

const BLUE: Color = Color { red: 0, blue: 255 };

// Interns colors and a color that is there, by itself and as a key. Of each of its blocks an interner has the only
// handle: the contracts say which value each symbol has, under each hasher, but not which handles are left.
fn check_blocks<S: BuildHasher + Drop>(
    rt: &(impl Abort + AllocGlobal),
    mut colors: Interner<Color, S>,
    mut days: InternMap<Color, u64, S>,
) {
    for color in [RED, BLUE, RED] {
        ok!(rt, colors.intern(rt.alloc(), color));
        let symbol = ok!(rt, days.get_or_insert(arc_of(rt, color), 5));
        same!(rt, days.get(symbol), days.find_value(&color));
    }
    holds!(rt, colors.values().iter().all(|kept| kept.is_unique()));
    holds!(rt, days.keys().values().iter().all(|key| key.is_unique()));
}

// Under random keys, and under those of a fixed seed.
#[test]
fn a_block_has_one_handle_under_each_hasher(rt: HostRuntime) {
    let alloc = rt.alloc();
    let hasher = ok!(&rt, RandomState::new(&rt));
    let colors = Interner::with_hasher(alloc, hasher);
    check_blocks(&rt, colors, InternMap::with_hasher(alloc, hasher));
    let hasher = BuildHasherDefault::<FoldHasher>::new();
    let colors = Interner::with_capacity_and_hasher(alloc, 1, hasher);
    check_blocks(&rt, ok!(&rt, colors), InternMap::new(alloc));
}

// An interner can give handles of its blocks.
#[test]
fn a_block_outlives_its_interner(rt: HostRuntime) {
    let (alloc, mut lists) = (rt.alloc(), Interner::<Vec<u8>>::new(rt.alloc()));
    let list = ok!(&rt, lists.intern_by(alloc, &[1u8, 2][..]));
    for (_, kept) in &lists {
        holds!(&rt, kept.is_unique() && lists == lists);
    }
    let kept = ok!(&rt, lists.get(list).cloned());
    drop(lists);
    holds!(&rt, kept.is_some_and(|list| list.is_unique()));
}

// The block that the parts make is kept: no other handle of it is left.
#[test]
fn a_header_slice_is_made_by_its_parts(rt: HostRuntime) {
    let mut slices = Interner::<HeaderSlice<Color, u8>>::new(rt.alloc());
    for color in [RED, BLUE, RED] {
        let parts = (&color, b"ab".as_slice());
        ok!(&rt, slices.intern_by(rt.alloc(), parts));
    }
    holds!(&rt, slices.values().iter().all(|kept| kept.is_unique()));
}

// A key that comes again is dropped with its value. In the end the handle of the test is the only one.
#[test]
fn a_second_value_ends_at_once(rt: HostRuntime) {
    let (tally, key) = (Tally::new(), arc_of(&rt, RED));
    let mut days = InternMap::new(rt.alloc());
    for day in [5, 7] {
        let value = Counted::new(&tally, day);
        ok!(&rt, days.get_or_insert(again!(&rt, &key), value));
    }
    same!(&rt, (days.values().len(), tally.living(2)), (1, 1));
    drop(days);
    same!(&rt, (tally.living(2), key.is_unique()), (0, true));
}

#[test]
fn errors_have_their_texts(rt: HostRuntime) {
    let (place, memory) = (PlaceError::NoPlace, PlaceError::Memory);
    let (full, refused) = (InternError::Full, InternError::Memory);
    let text = format!(in rt.alloc(); "{place}, {memory}, {full}, {refused}");
    let expected = "no such place, out of memory, no symbol is left, out of memory";
    same!(&rt, ok!(&rt, text).as_str(), expected);
}
