//! Times the calls of a `TreeMap` of numbers.
ghost use Rattle.std.specs.Prelude.{◌<◌, length};

use crate::random::shuffle;
use maps::TreeMap;
use std::alloc::Global;
use std::io::Print;
use std::time::{Clock, Instant};

/// The number of entries that are inserted and read, whatever the number of keys of a map.
const ENTRIES: usize = 1_000_000;

const VERSIONS: usize = 100_000;

type Map = TreeMap<u64, u64>;

/// The order in which keys are inserted and searched.
#[derive(Clone, Copy)]
pub enum Order {
    Rising,
    Mixed,
}

/// The least number of maps: three calls take a part of the maps each, and the others are dropped.
const MAPS: usize = 4;

const CALLS: [&str; 10] = [
    "insert",
    "get",
    "step",
    "modify",
    "clone",
    "version",
    "remove",
    "pop_first",
    "pop_last",
    "drop",
];

/// Runs all calls on maps of `len` keys, and prints the nanoseconds that each call took.
pub fn measure<R: Clock + Print>(rt: &R, alloc: Global, order: Order, len: u64) -> Option<u64> {
    let mut keys: Vec<u64> = (0..len).collect(alloc).ok()?;
    if let Order::Mixed = order {
        shuffle(&mut keys);
    }
    let mut maps = Vec::new(alloc);
    let mut sum = 0u64;
    for call in &CALLS {
        let start = Instant::now(rt).ok()?;
        sum = sum.wrapping_add(called(call, &mut maps, alloc, &keys)?);
        let taken = start.elapsed(rt).ok()?.as_nanos();
        println!(rt; "{call} {taken}").ok()?;
    }
    Some(sum)
}

/// Makes a call on the last of the maps, or on all of them if the call makes or drops maps.
fn called(call: &str, maps: &mut Vec<Map>, alloc: Global, keys: &[u64]) -> Option<u64> {
    let rounds = ENTRIES.checked_div(keys.len())?;
    let Some(map) = maps.last_mut() else {
        return insert(maps, alloc, keys, rounds.max(MAPS));
    };
    match call {
        "get" => Some(get(map, keys, rounds)),
        "step" => Some(step(map, rounds)),
        "modify" => modify(map, alloc, keys, rounds),
        "clone" => clone(map),
        "version" => version(map, alloc, keys),
        "remove" => remove(&mut part_of(maps, rounds)?, alloc, keys),
        "pop_first" => pop_first(&mut part_of(maps, rounds)?, alloc, keys),
        "pop_last" => pop_last(&mut part_of(maps, rounds)?, alloc, keys),
        _ => {
            // The vector is freed too, as in the Rust program: only then does the allocator return memory.
            *maps = Vec::new(alloc);
            Some(0)
        }
    }
}

/// The last maps, as many as one call takes.
fn part_of(maps: &mut Vec<Map>, rounds: usize) -> Option<Vec<Map>> {
    let rest = maps.len().checked_sub(rounds.max(MAPS) / MAPS)?;
    maps.split_off(rest).ok()
}

#[inline(never)]
fn insert(maps: &mut Vec<Map>, alloc: Global, keys: &[u64], count: usize) -> Option<u64> {
    for _ in 0..count {
        let mut map = TreeMap::new();
        for key in keys {
            map.insert(alloc, *key, *key).ok()?;
        }
        maps.push(map).ok()?;
    }
    Some(0)
}

#[inline(never)]
fn get(map: &Map, keys: &[u64], rounds: usize) -> u64 {
    let mut sum = 0u64;
    for _ in 0..rounds {
        for key in keys {
            sum = sum.wrapping_add(map.get(key).copied().unwrap_or(0));
        }
    }
    sum
}

#[inline(never)]
fn step(map: &Map, rounds: usize) -> u64 {
    let mut sum = 0u64;
    for _ in 0..rounds {
        for (_, value) in map {
            sum = sum.rotate_left(1).wrapping_add(*value);
        }
    }
    sum
}

#[inline(never)]
fn modify(map: &mut Map, alloc: Global, keys: &[u64], rounds: usize) -> Option<u64> {
    let mut sum = 0u64;
    for _ in 0..rounds {
        for key in keys {
            let value = map.modify(alloc, key, |value: &mut u64| -> u64 {
                *value = value.wrapping_add(1);
                *value
            });
            sum = sum.wrapping_add(value.ok()?.unwrap_or(0));
        }
    }
    Some(sum)
}

#[inline(never)]
fn clone(map: &Map) -> Option<u64> {
    let mut sum = 0u64;
    for _ in 0..ENTRIES {
        let version = map.clone().ok()?;
        sum = sum.wrapping_add(version.len() as u64);
    }
    Some(sum)
}

/// Writes each version (snapshot) under one key, and drops the version before it.
#[inline(never)]
fn version(map: &mut Map, alloc: Global, keys: &[u64]) -> Option<u64>
    requires { 0 < length keys.now }
{
    for at in 0..VERSIONS {
        let old = map.clone().ok()?;
        map.insert(alloc, keys[at % keys.len()], at as u64).ok()?;
        drop(old);
    }
    Some(0)
}

/// Removes the keys from each of the maps.
#[inline(never)]
fn remove(maps: &mut [Map], alloc: Global, keys: &[u64]) -> Option<u64> {
    let mut sum = 0u64;
    for map in maps {
        for key in keys {
            sum = sum.wrapping_add(map.remove(alloc, key).ok()?.unwrap_or(0));
        }
    }
    Some(sum)
}

/// Pops as many entries from each map as there are keys.
#[inline(never)]
fn pop_first(maps: &mut [Map], alloc: Global, keys: &[u64]) -> Option<u64> {
    let mut sum = 0u64;
    for map in maps {
        for _ in keys {
            sum = sum.wrapping_add(map.pop_first(alloc).ok()?.map_or(0, |entry| entry.1));
        }
    }
    Some(sum)
}

#[inline(never)]
fn pop_last(maps: &mut [Map], alloc: Global, keys: &[u64]) -> Option<u64> {
    let mut sum = 0u64;
    for map in maps {
        for _ in keys {
            sum = sum.wrapping_add(map.pop_last(alloc).ok()?.map_or(0, |entry| entry.1));
        }
    }
    Some(sum)
}
