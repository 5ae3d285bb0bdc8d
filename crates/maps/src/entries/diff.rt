//! The differences between two maps.
ghost use Rattle.std.specs.Prelude.{◌≡◌, ◌++◌, IfOk, OnOk, cond, drop, option_map, option_to_list};
ghost use Rattle.maps.specs.Differences.{as_entry, difference, first_change, listed};
ghost use Rattle.maps.specs.Maps.{IsRising, lookup};

use crate::entries::Entries;
use crate::entries::iter::Iter;
use std::alloc::{AllocError, Global};
use std::cmp::Ordering;
use std::marker::Model;

/// A difference under one key, as `diff` lists it: `for (key, change) in map.diff(alloc, &newer)? { .. }`.
#[derive(Clone, Copy, Debug, PartialEq, Drop)]
pub enum DiffItem<'a, V> {
    /// The value that only the newer map has.
    Added(&'a V),
    /// The value that only the older map has.
    Removed(&'a V),
    /// The older value and the newer one.
    Changed(&'a V, &'a V),
}

impl<K: Ord, V: PartialEq> Entries<K, V> {
    /// Returns the keys that only one of the maps has or whose values differ by `==`, with the differences, in
    /// ascending order of the keys: `old.diff(alloc, &new)?`. O(n + m) for maps of n and m entries, even if they share
    /// their nodes.
    ///
    /// A key that both maps have is returned as a reference to the older map's key. The clauses fix it only up to
    /// `cmp`.
    ///
    /// # Errors
    ///
    /// `AllocError` if there is no memory for the `Vec`.
    pub fn diff<'a>(
        &'a self,
        alloc: Global,
        newer: &'a Entries<K, V>,
    ) -> Result<Vec<(&'a K, DiffItem<'a, V>)>, AllocError>
        ensures changes { IfOk result (λ changes. (k : K) → lookup K.cmp k (listed changes.items)
            ≡ difference V.eq (lookup K.cmp k self.now) (lookup K.cmp k newer.now)) }
        ensures rising { IfOk result (λ changes. IsRising K.cmp (listed changes.items)) }
    {
        let mut changes = Vec::new(alloc);
        let mut olds = Remaining::of(self);
        let mut news = Remaining::of(newer);
        while let Some((order, change)) = olds.first_change(&news) {
            olds.pass(order.is_le());
            news.pass(order.is_ge());
            push_any(&mut changes, change)?;
        }
        Ok(changes)
    }
}

// The entries of a map that are not compared yet. The first one is taken off the iterator, since it may be compared
// with several entries of the other map.
#[derive(Drop)]
struct Remaining<'a, K: Ord, V> {
    first: Option<&'a (K, V)>,
    behind: Iter<'a, K, V>,
}

impl<'a, K: Ord, V> Model for Remaining<'a, K, V> {
    ghost use Rattle.std.specs.Prelude.{◌≡◌, [], IfNone, List};
    ghost use Rattle.sequence.specs.Parts.{left};

    ghost Value = { List (K × V) };

    ghost view = { λ l. left l.first l.behind };

    ghost invariant = { λ l. IfNone l.first (l.behind ≡ []) };
}

impl<'a, K: Ord, V> Remaining<'a, K, V> {
    fn of(map: &'a Entries<K, V>) -> Remaining<'a, K, V>
        ensures entries { result ≡ map.now }
        ensures rising { IsRising K.cmp map.now }
    {
        let mut behind = map.entries.iter();
        let first = behind.next();
        Remaining { first, behind }
    }

    // Moves to the next entry if `goes`: the first one is then accounted for.
    #[inline(always)]
    fn pass(&mut self, goes: bool)
        ensures { self.new ≡ cond goes (drop 1 self.old) self.old }
    {
        if goes {
            self.first = self.behind.next();
        }
    }
}

impl<'a, K: Ord, V: PartialEq> Remaining<'a, K, V> {
    // Compares the first keys of the two maps, and returns their order with the difference under the lesser key.
    #[inline(always)]
    fn first_change(
        &self,
        news: &Remaining<'a, K, V>,
    ) -> Option<(Ordering, Option<(&'a K, DiffItem<'a, V>)>)>
        ensures { option_map (λ r. (r.0, option_map as_entry r.1)) result ≡ first_change K.cmp V.eq self.now news.now }
    {
        match (self.first, news.first) {
            (None, None) => None,
            (Some((key, value)), None) => {
                let removed = (key, DiffItem::Removed(value));
                Some((Ordering::Less, Some(removed)))
            }
            (None, Some((key, value))) => {
                let added = (key, DiffItem::Added(value));
                Some((Ordering::Greater, Some(added)))
            }
            (Some(old), Some(new)) => {
                let order = old.0.cmp(&new.0);
                let change = match order {
                    Ordering::Less => Some((&old.0, DiffItem::Removed(&old.1))),
                    Ordering::Equal if old.1 == new.1 => None,
                    Ordering::Equal => Some((&old.0, DiffItem::Changed(&old.1, &new.1))),
                    Ordering::Greater => Some((&new.0, DiffItem::Added(&new.1))),
                };
                Some((order, change))
            }
        }
    }
}

// Appends the item if there is one: equal values give no difference.
#[inline(always)]
fn push_any<T: Drop>(items: &mut Vec<T>, item: Option<T>) -> Result<(), AllocError>
    ensures { OnOk result (items.new.items ≡ items.old.items ++ option_to_list item) }
{
    if let Some(item) = item {
        items.push(item)?;
    }
    Ok(())
}
