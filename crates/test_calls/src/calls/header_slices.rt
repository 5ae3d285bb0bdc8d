//! Reading header slices, and writing them before they are shared.
ghost use Rattle.std.specs.Prelude.{◌≡◌, length};

use crate::made::check_debug;
use servo_arc::{Arc, HeaderSlice, ThinArc, ThinStr, UniqueArc};
use std::collections::HashMap;
use std::mem;
use std::process::Abort;
use testing::counted::{Counted, Tally};
use testing::{again, holds, ok, same, same_at};

#[derive(Clone, Copy)]
struct Padded {
    _first: u8,
    i: u64,
    _last: u8,
}

fn with_padding(i: u64) -> Padded {
    Padded {
        _first: 1,
        i,
        _last: 2,
    }
}

// The header, the length and the fields of the two items.
fn read(slice: &HeaderSlice<u8, Padded>) -> Option<(u8, usize, u64, u64)> {
    match slice.slice() {
        [first, second] => Some((slice.header, slice.len(), first.i, second.i)),
        _ => None,
    }
}

#[test]
fn reads_padded_items(rt: HostRuntime) {
    let items = [with_padding(0xdead), with_padding(0xbeef)].into_iter();
    let shared = ok!(&rt, Arc::from_header_and_iter(rt.alloc(), 0u8, items));
    same!(&rt, read(&shared), Some((0, 2, 0xdead, 0xbeef)));
}

#[test]
fn reads_an_empty_slice(rt: HostRuntime) {
    let none: Vec<u32> = Vec::new(rt.alloc());
    let built = Arc::from_header_and_iter_with_size(rt.alloc(), 100u8, none.into_iter(), 0);
    let slice = ok!(&rt, built);
    let seen = (slice.header, slice.len(), slice.is_empty(), slice.slice());
    same!(&rt, seen, (100, 0, true, &[][..]));
}

// A clone has the same block.
#[test]
fn reads_a_text_with_its_header(rt: HostRuntime) {
    for text in ["größe", ""] {
        let name = ok!(&rt, ThinStr::from_header_and_str(rt.alloc(), 7u8, text));
        same_at!(&rt, text, (*name.header(), name.as_str()), (7, text));
        let again = again!(&rt, &name);
        holds!(&rt, Arc::ptr_eq(name.as_thin_arc(), again.as_thin_arc()));
    }
}

#[test]
fn drops_the_header_once(rt: HostRuntime) {
    let tally = Tally::new();
    let (header, items) = (Counted::new(&tally, 9), [5u64, 6].into_iter());
    let shared = ok!(&rt, Arc::from_header_and_iter(rt.alloc(), header, items));
    drop(again!(&rt, &shared));
    let is_itself = shared == shared;
    let before = tally.drops();
    drop(shared);
    same!(&rt, (is_itself, before, tally.read()), (true, 0, (0, 1)));
}

#[test]
fn each_item_is_cloned_once(rt: HostRuntime) {
    let tally = Tally::new();
    let items = [Counted::new(&tally, 5), Counted::new(&tally, 6)];
    drop(ok!(&rt, Arc::from_header_and_clones(rt.alloc(), 1u8, &items)));
    same!(&rt, tally.read(), (2, 2));
}

#[test]
fn marks_a_static_slice(rt: HostRuntime) {
    let items = [1u64, 2].into_iter();
    let built = Arc::from_header_and_iter_alloc(rt.alloc(), 0u8, items, 2, true);
    let mut slice = ok!(&rt, built);
    let marks = (slice.is_static(), Arc::get_mut(&mut slice).is_none());
    same!(
        &rt,
        (slice.header, slice.slice(), marks),
        (0, &[1, 2][..], (true, true))
    );
}

#[test]
fn a_mark_of_a_slice_is_found(rt: HostRuntime) {
    let letters = [4u8].into_iter();
    let made = Arc::from_header_and_iter_alloc(rt.alloc(), 8u32, letters, 1, true);
    let kept = ok!(&rt, ok!(&rt, made).find_static().ok_or(()));
    same!(&rt, (kept.header, kept.slice()), (8, &[4][..]));
}

fn swap<H, T>(x: &mut UniqueArc<HeaderSlice<H, T>>, y: &mut UniqueArc<HeaderSlice<H, T>>)
    ensures x { x.new ≡ y.old }
    ensures y { y.new ≡ x.old }
{
    mem::swap(&mut **x, &mut **y);
}

type Unique = UniqueArc<HeaderSlice<u8, u64>>;

fn unique_of(rt: &(impl Abort + AllocGlobal), header: u8, items: &[u64]) -> Unique {
    let built = UniqueArc::from_header_and_iter(rt.alloc(), header, items.iter().copied());
    ok!(rt, built)
}

#[test]
fn swaps_header_and_items(rt: HostRuntime) {
    let (mut x, mut y) = (unique_of(&rt, 1, &[5]), unique_of(&rt, 2, &[6, 7]));
    swap(&mut x, &mut y);
    same!(&rt, (x.header, x.slice(), x.len()), (2, &[6, 7][..], 2));
    same!(&rt, (y.header, y.slice(), y.len()), (1, &[5][..], 1));
    x.slice_mut().swap(0, 1);
    same!(&rt, x.slice(), &[7, 6][..]);
}

#[test]
fn is_written_before_it_is_shared(rt: HostRuntime) {
    let mut unique = unique_of(&rt, 1, &[5, 6]);
    *unique.header_mut() = 3;
    if let Some(item) = unique.data_mut().get_mut(1) {
        *item = 9;
    }
    let shared = unique.shareable();
    same!(&rt, (shared.header, shared.slice()), (3, &[5, 9][..]));
}

fn two_items(rt: &(impl Abort + AllocGlobal), header: u8, items: [u8; 2]) -> ThinArc<u8, u8>
    ensures { length result.items ≡ 2 }
{
    ok!(rt, Arc::from_header_and_slice(rt.alloc(), header, &items))
}

#[test]
fn slices_are_sorted(rt: HostRuntime) {
    let slices = vec![in rt.alloc();
        two_items(&rt, 2, [0, 0]),
        two_items(&rt, 1, [5, 7]),
        two_items(&rt, 1, [5, 6]),
    ];
    let mut slices = ok!(&rt, slices);
    ok!(&rt, slices.sort());
    check_debug(
        &rt,
        &slices,
        "[HeaderSlice { header: 1, slice: [5, 6] }, HeaderSlice { header: 1, slice: [5, 7] }, \
         HeaderSlice { header: 2, slice: [0, 0] }]",
    );
}

#[test]
fn a_map_is_keyed_by_slices(rt: HostRuntime) {
    let mut map = HashMap::new(rt.alloc());
    ok!(&rt, map.insert(two_items(&rt, 1, [5, 6]), 9u8));
    for (header, items, value) in [(1, [5, 6], Some(9)), (1, [5, 7], None), (2, [0, 0], None)] {
        let found = map.get(&two_items(&rt, header, items)).copied();
        same_at!(&rt, (header, items), found, value);
    }
}
