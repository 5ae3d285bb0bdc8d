//! Versions (snapshots) of a sequence or a map, each of which a script can change. A call acts on the current version.
//! There is also the other one, and both are empty at first. Kept versions have the indices 0, 1 and so on. I and J are
//! indices or keys, and V is a value:
//!
//!     fill N                    makes the items 0, 1 and so on, N of them; in a map under the same keys
//!     keep; back K              keeps a clone; makes the kept version K the current one
//!     swap; drop                swaps the current version and the other one; drops the current one
//!     same; shared              are the two equal? do they have the same root node?
//!     ends; get I               the number of items, the first and the last; the item at I
//!     depth                     the depth of the tree
//!     range I J                 the number of items from I to before J, the first of them, and the last of the others
//!     insert I V; remove I      inserts an item; removes one
//!     add I V                   adds V to the item at I
use crate::call::{Call, Collection, tell};
use std::alloc::{AllocError, Global};
use std::fmt::{Debug, Formatter};
use std::io::Print;
use std::mem::{replace, swap};
use std::{fmt, io};
use testing::counted::Counted;

/// A collection with versions: the current one is changed, and there is another one.
pub trait Version<'a>: Default + PartialEq + Debug + Drop {
    /// Creates a version of these items. In a map their keys are 0, 1 and so on.
    fn of_items(alloc: Global, items: Vec<Counted<'a>>) -> Result<Self, AllocError>;

    /// Makes the call on this version, with the other one at hand, and prints the value that the call returns.
    fn answer<R: Print + AllocGlobal>(
        &mut self,
        rt: &R,
        call: &Call<'a>,
        other: &mut Self,
    ) -> io::Result<()>;
}

/// The current version, the other one, and those that were kept.
#[derive(Drop)]
pub struct Versions<V> {
    now: V,
    other: V,
    kept: Vec<V>,
}

impl<V: Default> Versions<V> {
    /// Creates two empty versions.
    pub fn new(alloc: Global) -> Versions<V> {
        Versions {
            now: V::default(),
            other: V::default(),
            kept: Vec::new(alloc),
        }
    }
}

impl<V: Debug> Debug for Versions<V> {
    fn fmt<W: fmt::Write>(&self, f: &mut Formatter<W>) -> fmt::Result {
        self.now.fmt(f)
    }
}

impl<'a, V: Version<'a> + Clone> Collection<'a> for Versions<V> {
    fn answer<R: Print + AllocGlobal>(&mut self, rt: &R, call: &Call<'a>) -> io::Result<()> {
        match call.word {
            "fill" => match call.items(rt.alloc()) {
                Some(items) => tell(rt, put(&mut self.now, V::of_items(rt.alloc(), items))),
                None => tell(rt, "no items"),
            },
            "same" => tell(rt, self.now == self.other),
            "drop" => tell(rt, drop(replace(&mut self.now, V::default()))),
            "swap" => tell(rt, swap(&mut self.now, &mut self.other)),
            "keep" => tell(rt, self.keep()),
            "back" => tell(rt, self.back(call.numbers[0])),
            _ => self.now.answer(rt, call, &mut self.other),
        }
    }
}

/// Replaces `place` by a value that a call made, or returns its error.
pub fn put<T: Drop, E>(place: &mut T, made: Result<T, E>) -> Result<(), E> {
    *place = made?;
    Ok(())
}

impl<V: Clone + Drop> Versions<V> {
    fn keep(&mut self) -> Result<(), AllocError> {
        Ok(self.kept.push(self.now.clone()?)?)
    }

    // Makes a kept version the current one.
    fn back(&mut self, number: usize) -> Result<Option<()>, AllocError> {
        let Some(version) = self.kept.get(number) else {
            return Ok(None);
        };
        self.now = version.clone()?;
        Ok(Some(()))
    }
}
