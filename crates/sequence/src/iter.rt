//! Iteration over the items of a list.
ghost use Rattle.std.specs.Prelude.{◌≡◌, ◌<◌, ◌≤◌, IfSome, Some, length, slice_get, slice_range, ⊤};
ghost use Rattle.std.specs.Option.{option_copied};
ghost use Rattle.std.specs.Iterator.{UpTo, YieldsFirstRef, YieldsLastRef, item_count};
ghost use Rattle.std.specs.Iterator.SizeHint.{IsWithinCount};
ghost use Rattle.std.specs.Map.Iter.{ShowsInOrder, deref};
ghost use Rattle.sequence.specs.Parts.{IsPart};
ghost use Rattle.sequence.specs.Nodes.{items_under};

use crate::label::{Label, Unlabelled};
use crate::labelled::LabelledSequence;
use crate::tree::Tree;
use std::alloc::AllocError;
use std::iter::FusedIterator;
use std::marker::Model;

/// An iterator over the items of a list, in order: `for item in &list { .. }`.
///
/// It allocates nothing. Each end keeps the leaf of its last item: a step within the leaf takes O(1), and a step to the
/// next leaf O(log n), since it descends from the root.
#[derive(Drop)]
pub struct Iter<'a, T, L: Label<T> = Unlabelled> {
    tree: Option<&'a Tree<T, L>>,
    front: (&'a [T], usize),
    back: (&'a [T], usize),
    // The items that are left have the indices `from..to`.
    from: usize,
    to: usize,
}

impl<'a, T, L: Label<T>> Model for Iter<'a, T, L> {
    ghost use Rattle.std.specs.Prelude.{◌≤◌, List, length, slice_range};
    ghost use Rattle.std.specs.Option.{option_copied};
    ghost use Rattle.sequence.specs.Parts.{IsPart};
    ghost use Rattle.sequence.specs.Nodes.{items_under};

    ghost Value = { List T };

    ghost view = { λ i. slice_range (items_under (option_copied i.tree)) i.from i.to };

    ghost invariant = { λ i. (i.from ≤ i.to) × (i.to ≤ length (items_under (option_copied i.tree)))
        × IsPart i.front.0.now i.front.1 (items_under (option_copied i.tree))
        × IsPart i.back.0.now i.back.1 (items_under (option_copied i.tree)) };
}

impl<'a, T, L: Label<T>> Iter<'a, T, L> {
    pub(crate) fn between(tree: Option<&'a Tree<T, L>>, from: usize, to: usize) -> Iter<'a, T, L>
        requires { (from ≤ to) × (to ≤ length (items_under (option_copied tree))) }
        ensures { result ≡ slice_range (items_under (option_copied tree.entry)) from to }
    {
        Iter {
            tree,
            front: (&[], 0),
            back: (&[], 0),
            from,
            to,
        }
    }

    // The item at `index`, and its leaf. The leaf of the last step is tried first, which saves the descent.
    #[inline(always)]
    #[tactic(auto, using(crate::proofs::Lists::Parts::parts))]
    fn numbered(
        tree: Option<&'a Tree<T, L>>,
        near: (&'a [T], usize),
        index: usize,
    ) -> (&'a T, (&'a [T], usize))
        requires near { IsPart near.0.now near.1 (items_under (option_copied tree)) }
        requires there { index < length (items_under (option_copied tree)) }
        ensures item { slice_get (items_under (option_copied tree.entry)) index ≡ Some result.0.now }
        ensures near { IsPart result.1.0.now result.1.1 (items_under (option_copied tree.entry)) }
    {
        // A list with an item has nodes.
        let tree = tree.unwrap();
        let (leaf, start) = match index.checked_sub(near.1) {
            Some(offset) if offset < near.0.len() => near,
            _ => tree.leaf_at(index),
        };
        (&leaf[index - start], (leaf, start))
    }
}

impl<'a, T, L: Label<T>> IntoIterator for &'a LabelledSequence<T, L> {
    type Item = &'a T;

    type IntoIter = Iter<'a, T, L>;

    ghost into_iter_gives = { λ list r. r ≡ list.now };

    #[tactic(auto, using(crate::proofs::Lists::Ranges::ranges))]
    fn into_iter(self) -> Iter<'a, T, L> {
        Iter::between(self.root.as_ref(), 0, self.len())
    }
}

impl<T, L: Label<T>> LabelledSequence<T, L> {
    /// Returns an iterator over the items, in order: `list.iter()`. O(1).
    pub fn iter(&self) -> Iter<'_, T, L>
        ensures items { result ≡ self.now }
        ensures runs { ShowsInOrder (deref {X = T}) }
    {
        self.into_iter()
    }
}

impl<'a, T, L: Label<T>> Iterator for Iter<'a, T, L> {
    type Item = &'a T;

    ghost next_gives = { YieldsFirstRef (λ s. s) };

    ghost remaining = { item_count (λ s. s) };

    #[inline]
    #[tactic(auto, using(crate::proofs::Lists::Ranges::ranges))]
    fn next(&mut self) -> Option<&'a T> {
        if self.from == self.to {
            return None;
        }
        let (item, near) = Iter::numbered(self.tree, self.front, self.from);
        self.front = near;
        self.from += 1;
        Some(item)
    }

    #[tactic(auto, using(crate::proofs::Lists::Ranges::ranges))]
    fn size_hint(&self) -> (usize, Option<usize>)
        ensures lower { IsWithinCount result.0 (item_count (λ s. s) self.now) }
        ensures upper { IfSome result.1 (UpTo (item_count (λ s. s) self.now)) }
        ensures exact { result ≡ (length self.now, Some (length self.now)) }
    {
        let left = self.to - self.from;
        (left, Some(left))
    }
}

impl<'a, T, L: Label<T>> DoubleEndedIterator for Iter<'a, T, L> {
    ghost next_back_gives = { YieldsLastRef (λ s. s) };

    #[tactic(auto, using(crate::proofs::Lists::Ranges::ranges))]
    fn next_back(&mut self) -> Option<&'a T> {
        if self.from == self.to {
            return None;
        }
        let (item, near) = Iter::numbered(self.tree, self.back, self.to - 1);
        self.back = near;
        self.to -= 1;
        Some(item)
    }
}

impl<'a, T, L: Label<T>> ExactSizeIterator for Iter<'a, T, L> {
    #[tactic(auto, using(crate::proofs::Lists::Ranges::ranges))]
    fn len(&self) -> usize {
        self.to - self.from
    }
}

impl<'a, T, L: Label<T>> FusedIterator for Iter<'a, T, L> {}

impl<'a, T, L: Label<T>> Clone for Iter<'a, T, L> {
    ghost is_clone = { λ s r. r ≡ s };

    ghost is_infallible = { λ _. ⊤ };

    fn clone(&self) -> Result<Iter<'a, T, L>, AllocError> {
        Ok(Iter::between(self.tree, self.from, self.to))
    }
}
