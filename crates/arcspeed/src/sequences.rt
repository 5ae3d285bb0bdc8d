//! Times the calls of a `Sequence` of numbers.
ghost use Rattle.std.specs.Prelude.{◌<◌, length};

use crate::random::shuffle;
use sequence::Sequence;
use std::alloc::Global;
use std::io::Print;
use std::time::{Clock, Instant};

/// The number of items that are inserted and read, whatever the length of a list.
const ITEMS: usize = 1_000_000;

const VERSIONS: usize = 100_000;

/// The number of calls that change a list in the middle.
const CHANGES: usize = 1_000;

type List = Sequence<u64>;

const CALLS: [&str; 9] = [
    "push", "get", "step", "version", "insert", "remove", "cut", "drop", "pop",
];

/// Runs all calls on lists of `len` items, at indices in random order, and prints the nanoseconds that each call took.
/// Those of `cut` are those of `split_off` and `append` together.
pub fn measure<R: Clock + Print>(rt: &R, alloc: Global, len: u64) -> Option<u64> {
    let mut places: Vec<u64> = (0..len).collect(alloc).ok()?;
    shuffle(&mut places);
    let mut lists = Vec::new(alloc);
    let mut sum = 0u64;
    for call in &CALLS {
        let start = Instant::now(rt).ok()?;
        sum = sum.wrapping_add(called(rt, call, &mut lists, alloc, &places)?);
        let taken = start.elapsed(rt).ok()?.as_nanos();
        println!(rt; "{call} {taken}").ok()?;
    }
    Some(sum)
}

/// Makes a call on the last of the lists, or on all of them if the call makes or drops lists.
fn called<R: Clock + Print>(
    rt: &R,
    call: &str,
    lists: &mut Vec<List>,
    alloc: Global,
    places: &[u64],
) -> Option<u64> {
    let rounds = ITEMS.checked_div(places.len())?;
    let Some(list) = lists.last_mut() else {
        return push(lists, alloc, places.len() as u64, rounds.max(2));
    };
    match call {
        "get" => Some(get(list, places, rounds)),
        "step" => Some(step(list, rounds)),
        "version" => version(list, alloc, places),
        "insert" => insert(list, alloc, places),
        "remove" => remove(list, alloc, places),
        "cut" => cut(rt, list, alloc, places),
        // Comes before `pop`, since the allocator reuses the memory that a pop frees only at a later call.
        "drop" => {
            drop(lists.split_off(lists.len() / 2).ok()?);
            Some(0)
        }
        _ => pop(lists, alloc, places),
    }
}

#[inline(never)]
fn push(lists: &mut Vec<List>, alloc: Global, len: u64, count: usize) -> Option<u64> {
    for _ in 0..count {
        let mut list = Sequence::new();
        for item in 0..len {
            list.push(alloc, item).ok()?;
        }
        lists.push(list).ok()?;
    }
    Some(0)
}

#[inline(never)]
fn get(list: &List, places: &[u64], rounds: usize) -> u64 {
    let mut sum = 0u64;
    for _ in 0..rounds {
        for place in places {
            sum = sum.wrapping_add(list.get(*place as usize).copied().unwrap_or(0));
        }
    }
    sum
}

#[inline(never)]
fn step(list: &List, rounds: usize) -> u64 {
    let mut sum = 0u64;
    for _ in 0..rounds {
        for item in list {
            sum = sum.rotate_left(1).wrapping_add(*item);
        }
    }
    sum
}

/// The index for the call number `at`.
fn place(places: &[u64], at: usize) -> usize
    requires { 0 < length places.now }
{
    places[at % places.len()] as usize
}

/// Writes each version (snapshot) at one index, and drops the version before it.
#[inline(never)]
fn version(list: &mut List, alloc: Global, places: &[u64]) -> Option<u64>
    requires { 0 < length places.now }
{
    for at in 0..VERSIONS {
        let old = list.clone().ok()?;
        list.set(alloc, place(places, at), at as u64).ok()?;
        drop(old);
    }
    Some(0)
}

#[inline(never)]
fn insert(list: &mut List, alloc: Global, places: &[u64]) -> Option<u64>
    requires { 0 < length places.now }
{
    for at in 0..CHANGES {
        list.insert(alloc, place(places, at), at as u64).ok()?;
    }
    Some(0)
}

#[inline(never)]
fn remove(list: &mut List, alloc: Global, places: &[u64]) -> Option<u64>
    requires { 0 < length places.now }
{
    let mut sum = 0u64;
    for at in 0..CHANGES {
        let item = list.remove(alloc, place(places, at)).ok()?;
        sum = sum.rotate_left(1).wrapping_add(item);
    }
    Some(sum)
}

/// Splits a list and joins both parts again, each time at another index, and prints the nanoseconds of both calls.
#[inline(never)]
fn cut<R: Clock + Print>(rt: &R, list: &mut List, alloc: Global, places: &[u64]) -> Option<u64>
    requires { 0 < length places.now }
{
    let mut split = 0u128;
    let mut append = 0u128;
    for at in 0..CHANGES {
        let start = Instant::now(rt).ok()?;
        let rest = list.split_off(alloc, place(places, at)).ok()?;
        split = split.wrapping_add(start.elapsed(rt).ok()?.as_nanos());
        let start = Instant::now(rt).ok()?;
        list.append(alloc, rest).ok()?;
        append = append.wrapping_add(start.elapsed(rt).ok()?.as_nanos());
    }
    println!(rt; "split_off {split}").ok()?;
    println!(rt; "append {append}").ok()?;
    Some(0)
}

/// Pops as many items from each list as there are indices.
#[inline(never)]
fn pop(lists: &mut [List], alloc: Global, places: &[u64]) -> Option<u64> {
    let mut sum = 0u64;
    for list in lists {
        for _ in places {
            sum = sum.wrapping_add(list.pop(alloc).ok()?.unwrap_or(0));
        }
    }
    Some(sum)
}
