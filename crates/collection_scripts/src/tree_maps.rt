//! Calls of a `TreeMap`, beside those of all versions. A map that a call returns becomes the other one.
//!
//!     alter I V                 removes the key I, or inserts it with the value V if it is missing
//!     pop_first; pop_last       removes the entry with the least key; with the greatest
//!     retain I; clear           keeps the keys from I on; removes all entries
//!     split I                   splits the map at the key I; the rest becomes the other one
//!     append                    inserts the entries of the other one, which keeps them
//!     union; both; rest         all entries of both; those whose key the other one has too; those whose key it lacks
//!     changes                   the differences from this map to the other one
//!     nth I                     the entry at the index I
//!     near I                    how many keys are below I, the entry at or below I, and the one at or above I
use crate::call::{Call, tell};
use crate::sequences::add;
use crate::versions::{Version, put};
use maps::TreeMap;
use std::alloc::{AllocError, Global};
use std::io;
use std::io::Print;
use testing::counted::Counted;

type Map<'a> = TreeMap<usize, Counted<'a>>;

impl<'a> Version<'a> for Map<'a> {
    fn of_items(alloc: Global, items: Vec<Counted<'a>>) -> Result<Self, AllocError> {
        TreeMap::from_items(alloc, items.into_iter().enumerate().collect(alloc)?)
    }

    fn answer<R: Print + AllocGlobal>(
        &mut self,
        rt: &R,
        call: &Call<'a>,
        other: &mut Self,
    ) -> io::Result<()> {
        let alloc = rt.alloc();
        let [key, value, ..] = call.numbers;
        match call.word {
            "insert" => tell(rt, self.insert(alloc, key, call.item(value))),
            "remove" => tell(rt, self.remove(alloc, &key)),
            "add" => tell(rt, self.modify(alloc, &key, |item| add(item, value))),
            "alter" => {
                let item = call.item(value);
                tell(rt, self.alter(alloc, key, |old| turned(old, item)))
            }
            "pop_first" => tell(rt, self.pop_first(alloc)),
            "pop_last" => tell(rt, self.pop_last(alloc)),
            "retain" => tell(rt, self.retain(alloc, |own, _| *own >= key)),
            "clear" => tell(rt, self.clear()),
            "append" => tell(rt, self.append(alloc, other)),
            "split" => tell(rt, put(other, self.split_off(alloc, &key))),
            "union" | "both" | "rest" => {
                let made = match call.word {
                    "union" => self.union(alloc, other),
                    "both" => self.intersection(alloc, other),
                    _ => self.difference(alloc, other),
                };
                tell(rt, put(other, made))
            }
            _ => read(rt, self, call, other),
        }
    }
}

// The change of `alter`: removes a value that is there, and inserts one that is not.
fn turned<'a>(old: Option<Counted<'a>>, new: Counted<'a>) -> Option<Counted<'a>> {
    if old.is_some() { None } else { Some(new) }
}

// Calls that change no map.
fn read<'a, R: Print + AllocGlobal>(
    rt: &R,
    map: &Map<'a>,
    call: &Call<'a>,
    other: &Map<'a>,
) -> io::Result<()> {
    let [key, end, ..] = call.numbers;
    match call.word {
        "get" => tell(rt, map.get(&key)),
        "near" => tell(rt, (map.rank(&key), map.get_prev(&key), map.get_next(&key))),
        "nth" => tell(rt, map.nth(key)),
        "ends" => tell(rt, (map.len(), map.first(), map.last())),
        "depth" => tell(rt, map.depth()),
        "shared" => tell(rt, TreeMap::ptr_eq(map, other)),
        "changes" => tell_changes(rt, map, other),
        "range" => {
            let mut range = map.range(key..end);
            tell(rt, (range.len(), range.next(), range.next_back()))
        }
        _ => tell(rt, "no such call"),
    }
}

fn tell_changes<'a, R: Print + AllocGlobal>(
    rt: &R,
    map: &Map<'a>,
    other: &Map<'a>,
) -> io::Result<()> {
    let changes = match map.diff(rt.alloc(), other) {
        Ok(changes) => changes,
        Err(refused) => return tell(rt, Err::<(), AllocError>(refused)),
    };
    print!(rt; "changes:")?;
    for (key, change) in changes {
        print!(rt; " {key} {change:?}")?;
    }
    println!(rt; "")
}
