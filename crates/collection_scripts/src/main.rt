//! Runs a script of calls on a collection, which is read from standard input. The first line is `sequence`, `map`,
//! `tree`, or `interner N` with room for N values. Each other line is a call, with numbers or a text, and prints the
//! value that the call returns, in the form of `{:?}`. A number that a line lacks is 0. The last line of the output is
//! the number of items that were dropped, less the number of copies: the number of items that the script made. The
//! module of each collection lists its calls. All collections have these:
//!
//!     print; pretty     prints all items; prints them by `{:2?}` and `{:#?}`
//!     tally             prints how many items were copied, and how many were dropped
#![tactic(auto)]

mod call;
mod interners;
mod roses;
mod sequences;
mod tree_maps;
mod versions;

use crate::call::{Call, Collection, tell};
use crate::versions::Versions;
use interner::Interner;
use maps::TreeMap;
use rose_undo::{Rose, Undo};
use sequence::Sequence;
use std::io;
use std::io::Print;
use testing::counted::{Counted, Tally};

fn main(rt: HostRuntime) -> io::Result<()> {
    let script = io::read_to_string(rt.alloc(), rt.stdin())?;
    run(&rt, script.as_str(), &Tally::new())
}

fn run<'a>(rt: &(impl Print + AllocGlobal), script: &'a str, tally: &'a Tally) -> io::Result<()> {
    let alloc = rt.alloc();
    let (line, calls) = script.split_once('\n').unwrap_or((script, ""));
    let call = Call::read(line, tally);
    match call.word {
        "sequence" => answer(rt, tally, calls, Versions::<Sequence<_>>::new(alloc)),
        "map" => answer(rt, tally, calls, Versions::<TreeMap<_, _>>::new(alloc)),
        "tree" => {
            let root = Rose::leaf(alloc, Counted::new(tally, 0))?;
            answer(rt, tally, calls, Undo::new(alloc, root))
        }
        "interner" => {
            let names = Interner::with_capacity(alloc, call.numbers[0])?;
            answer(rt, tally, calls, names)
        }
        _ => println!(rt; "no such collection"),
    }
}

fn answer<'a, C: Collection<'a>>(
    rt: &(impl Print + AllocGlobal),
    tally: &'a Tally,
    calls: &'a str,
    mut collection: C,
) -> io::Result<()> {
    for line in calls.lines() {
        let call = Call::read(line, tally);
        match call.word {
            "print" => tell(rt, &collection)?,
            "pretty" => println!(rt; "{collection:2?} {collection:#?}")?,
            "tally" => tell(rt, tally.read())?,
            _ => collection.answer(rt, &call)?,
        }
    }
    drop(collection);
    tell(rt, tally.drops().wrapping_sub(tally.copies()))
}
