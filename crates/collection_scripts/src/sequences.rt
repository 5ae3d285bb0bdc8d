//! Calls of a `Sequence`, beside those of all versions:
//!
//!     set I V                   replaces the item at the index I
//!     push V; push_front V      inserts an item at the end; at the front
//!     pop; pop_front            removes the last item; the first one
//!     split I                   splits the sequence at I; the rest becomes the other one
//!     append                    appends the items of the other one, which is then empty
//!     replace I J               replaces the items from I to before J by the other one, which becomes the old items
//!     truncate N; extend N      keeps the first N items; appends N items as `fill` makes them
//!     retain V; clear           keeps the items that are at least V; drops all items
//!     exchange I J              swaps two items
//!     item I                    the item at the index I, if there is one
//!     contains V                is an item equal to V?
use crate::call::{Call, tell};
use crate::versions::{Version, put};
use sequence::Sequence;
use std::alloc::{AllocError, Global};
use std::io;
use std::io::Print;
use std::mem::take;
use testing::counted::Counted;

type Items<'a> = Sequence<Counted<'a>>;

impl<'a> Version<'a> for Items<'a> {
    fn of_items(alloc: Global, items: Vec<Counted<'a>>) -> Result<Self, AllocError> {
        Sequence::from_items(alloc, items)
    }

    fn answer<R: Print + AllocGlobal>(
        &mut self,
        rt: &R,
        call: &Call<'a>,
        other: &mut Self,
    ) -> io::Result<()> {
        let alloc = rt.alloc();
        let [at, value, ..] = call.numbers;
        match call.word {
            "insert" => tell(rt, self.insert(alloc, at, call.item(value))),
            "set" => tell(rt, self.set(alloc, at, call.item(value))),
            "add" => tell(rt, self.modify(alloc, at, |item| add(item, value))),
            "remove" => tell(rt, self.remove(alloc, at)),
            "push" => tell(rt, self.push(alloc, call.item(at))),
            "push_front" => tell(rt, self.push_front(alloc, call.item(at))),
            "pop" => tell(rt, self.pop(alloc)),
            "pop_front" => tell(rt, self.pop_front(alloc)),
            "append" => tell(rt, self.append(alloc, take(other))),
            "split" => tell(rt, put(other, self.split_off(alloc, at))),
            "replace" => {
                let made = self.replace(alloc, at..value, take(other));
                tell(rt, put(other, made))
            }
            "truncate" => tell(rt, self.truncate(alloc, at)),
            "retain" => tell(rt, self.retain(alloc, |item| item.value >= at as u64)),
            "exchange" => tell(rt, self.swap(alloc, at, value)),
            "extend" => match call.items(alloc) {
                Some(items) => tell(rt, self.extend(alloc, items)),
                None => tell(rt, "no items"),
            },
            "clear" => tell(rt, self.clear()),
            _ => read(rt, self, call, other),
        }
    }
}

// Calls that change no sequence.
fn read<'a, R: Print>(
    rt: &R,
    items: &Items<'a>,
    call: &Call<'a>,
    other: &Items<'a>,
) -> io::Result<()> {
    let [at, end, ..] = call.numbers;
    match call.word {
        "get" => tell(rt, items.get(at)),
        "item" if at < items.len() => tell(rt, &items[at]),
        "contains" => tell(rt, items.contains(&call.item(at))),
        "ends" => tell(rt, (items.len(), items.first(), items.last())),
        "depth" => tell(rt, items.tree().map(|tree| tree.depth())),
        "shared" => tell(rt, Sequence::ptr_eq(items, other)),
        "range" => {
            let mut range = items.range(at..end);
            tell(rt, (range.len(), range.next(), range.next_back()))
        }
        _ => tell(rt, "no such call"),
    }
}

/// Adds to an item, and returns its new value.
pub fn add(item: &mut Counted<'_>, value: usize) -> u64 {
    item.value = item.value.wrapping_add(value as u64);
    item.value
}
