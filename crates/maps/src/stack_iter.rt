//! Iteration over the items of a stack.
ghost use Rattle.std.specs.Prelude.{◌≡◌, IfSome, Some, length, ⊤};
ghost use Rattle.std.specs.Iterator.{UpTo, YieldsFirstRef, item_count};
ghost use Rattle.std.specs.Iterator.SizeHint.{IsWithinCount};

use crate::links::Links;
use crate::stack::Stack;
use std::alloc::AllocError;
use std::iter::FusedIterator;
use std::marker::Model;

/// An iterator over the items of a `Stack`, from the one that was pushed last: `for item in &stack { .. }`.
#[derive(Drop)]
pub struct StackIter<'a, T> {
    links: &'a Links<T>,
}

impl<'a, T> Model for StackIter<'a, T> {
    ghost use Rattle.std.specs.Prelude.{List};

    ghost Value = { List T };

    ghost view = { λ i. i.links.now };
}

impl<'a, T> IntoIterator for &'a Stack<T> {
    type Item = &'a T;

    type IntoIter = StackIter<'a, T>;

    ghost into_iter_gives = { λ stack r. r ≡ stack.now };

    fn into_iter(self) -> StackIter<'a, T> {
        StackIter { links: &self.links }
    }
}

impl<T> Stack<T> {
    /// Returns an iterator over the items, from the one that was pushed last: `stack.iter()`. A step takes O(1).
    pub fn iter(&self) -> StackIter<'_, T>
        ensures { result ≡ self.now }
    {
        self.into_iter()
    }
}

impl<'a, T> Iterator for StackIter<'a, T> {
    type Item = &'a T;

    ghost next_gives = { YieldsFirstRef (λ s. s) };

    ghost remaining = { item_count (λ s. s) };

    fn next(&mut self) -> Option<&'a T> {
        let links = self.links;
        let (item, rest) = links.split_first()?;
        self.links = rest;
        Some(item)
    }

    fn size_hint(&self) -> (usize, Option<usize>)
        ensures lower { IsWithinCount result.0 (item_count (λ s. s) self.now) }
        ensures upper { IfSome result.1 (UpTo (item_count (λ s. s) self.now)) }
        ensures exact { result ≡ (length self.now, Some (length self.now)) }
    {
        let links = self.links;
        let left = links.len;
        (left, Some(left))
    }
}

impl<'a, T> ExactSizeIterator for StackIter<'a, T> {
    fn len(&self) -> usize {
        let links = self.links;
        links.len
    }
}

impl<'a, T> FusedIterator for StackIter<'a, T> {}

impl<'a, T> Clone for StackIter<'a, T> {
    ghost is_clone = { λ s r. r ≡ s };

    ghost is_infallible = { λ _. ⊤ };

    fn clone(&self) -> Result<StackIter<'a, T>, AllocError> {
        Ok(StackIter { links: self.links })
    }
}
