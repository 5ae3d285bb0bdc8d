//! A stack whose versions (snapshots) share their last items.
ghost use Rattle.std.specs.Prelude.{◌≡◌, ◌-◌, ◌<◌, ◌∷◌, [], ◌↔◌, IsTrue, IfOk, OnOk};
ghost use Rattle.std.specs.Prelude.{drop, length, reverse, slice_get};
ghost use Rattle.std.specs.Option.{option_copied};
ghost use Rattle.handles.specs.Copies.{CopiesAreEqual};

use crate::links::{Links, Node};
use handles::arc::Arc;
use handles::unique::UniqueArc;
use std::alloc::{AllocError, Global};
use std::marker::Model;
use std::mem;

/// A persistent stack (a linked list). `push` and `rest` return a new stack, which shares its nodes with the old one.
///
/// ```
/// let old = Stack::new().push(alloc, 1)?;
/// let new = old.push(alloc, 2)?;
/// ```
///
/// `old` is then `[1]` and `new` is `[2, 1]`.
pub struct Stack<T> {
    pub(crate) links: Links<T>,
}

impl<T> Model for Stack<T> {
    ghost use Rattle.std.specs.Prelude.{List};

    ghost Value = { List T };

    ghost view = { λ l. l.links };
}

/// Makes a version (snapshot) by one increment of a count, with no copy and no allocation: `let old = stack.clone()?;`.
/// O(1).
///
/// # Errors
///
/// `AllocError` when the `clone` of an `Arc` fails, which is never for lack of memory.
impl<T: Drop> Clone for Stack<T> {
    ghost is_clone = { λ a b. b ≡ a };

    fn clone(&self) -> Result<Stack<T>, AllocError> {
        Ok(Stack {
            links: self.links.clone()?,
        })
    }
}

impl<T: Drop> Drop for Stack<T> {
    /// Drops node by node in a loop, up to the first node that another version shares. So dropping a long stack needs
    /// no deep call stack, even if several threads drop versions of it at once.
    fn drop(self) {
        let Stack { links } = self;
        let mut first = links.first;
        while let Some(node) = first {
            first = match Arc::into_inner(node) {
                Some(node) => node.rest.first,
                None => None,
            };
        }
    }
}

impl<T> Stack<T> {
    /// Creates an empty stack, with no allocation: `Stack::new().push(alloc, 1)?`.
    pub fn new() -> Stack<T>
        ensures { result ≡ [] }
    {
        Stack {
            links: Links::new(),
        }
    }

    /// Returns the number of items: `stack.len()`. O(1).
    pub fn len(&self) -> usize
        ensures { result ≡ length self.now }
    {
        self.links.len
    }

    /// Returns `true` if there are no items.
    pub fn is_empty(&self) -> bool
        ensures { IsTrue result ↔ (self.now ≡ []) }
    {
        self.len() == 0
    }

    /// Returns the item that was pushed last, or `None` if the stack is empty: `stack.first()`. O(1).
    pub fn first(&self) -> Option<&T>
        ensures { option_copied result ≡ slice_get self.now 0 }
    {
        let (item, _) = self.links.split_first()?;
        Some(item)
    }

    /// Returns the item at `index`, counted from the one that was pushed last, or `None`: `stack.get(0)`. O(index).
    pub fn get(&self, index: usize) -> Option<&T>
        ensures { option_copied result ≡ slice_get self.now index }
    {
        let mut links = &self.links;
        let mut left = index;
        while left > 0 {
            links = &links.first.as_ref()?.rest;
            left -= 1;
        }
        let (item, _) = links.split_first()?;
        Some(item)
    }

    /// Returns the item that was pushed first, or `None` if the stack is empty: `stack.last()`. O(n).
    pub fn last(&self) -> Option<&T>
        ensures { option_copied result ≡ slice_get self.now (length self.now - 1) }
    {
        self.get(self.len().checked_sub(1)?)
    }
}

/// Creates an empty stack, as `Stack::new` does.
impl<T> Default for Stack<T> {
    ghost is_default = { λ stack. stack ≡ [] };

    fn default() -> Stack<T> {
        Stack::new()
    }
}

impl<T: Drop> Stack<T> {
    /// Returns a stack with `value` in front of this one's items: `let new = old.push(alloc, 2)?;`. O(1), with one
    /// allocation and one increment of a count.
    ///
    /// # Errors
    ///
    /// `AllocError` if there is no memory, when the `clone` of an `Arc` fails, or at `usize::MAX` items. `value` is
    /// then dropped.
    pub fn push(&self, alloc: Global, value: T) -> Result<Stack<T>, AllocError>
        ensures { IfOk result (λ stack. stack ≡ value ∷ self.now) }
    {
        let mut stack = self.clone()?;
        stack.put_first(alloc, value)?;
        Ok(stack)
    }

    // Adds one item in front, in place.
    fn put_first(&mut self, alloc: Global, value: T) -> Result<(), AllocError>
        ensures { OnOk result (self.new ≡ value ∷ self.old) }
    {
        let len = self.len().checked_add(1).ok_or(AllocError)?;
        let rest = Links::new();
        let mut node = UniqueArc::try_new(alloc, Node { value, rest })?;
        mem::swap(&mut node.rest, &mut self.links);
        self.links = Links {
            first: Some(node.shareable()),
            len,
        };
        Ok(())
    }

    /// Creates a stack of `items`, the first of them in front: `Stack::from_items(alloc, items)?`. O(n), with one
    /// allocation for each item.
    ///
    /// # Errors
    ///
    /// `AllocError` if there is no memory. The items are then dropped.
    pub fn from_items(alloc: Global, mut items: Vec<T>) -> Result<Stack<T>, AllocError>
        ensures { IfOk result (λ stack. stack ≡ items.items) }
    {
        let mut stack = Stack::new();
        while let Some(item) = items.pop() {
            stack.put_first(alloc, item)?;
        }
        Ok(stack)
    }

    /// Returns the stack without its first item, which is empty for an empty stack: `let rest = stack.rest()?;`. O(1),
    /// by one increment of a count.
    ///
    /// # Errors
    ///
    /// `AllocError` when the `clone` of an `Arc` fails, which is never for lack of memory.
    pub fn rest(&self) -> Result<Stack<T>, AllocError>
        ensures { IfOk result (λ stack. stack ≡ drop 1 self.now) }
    {
        match self.links.split_first() {
            None => Ok(Stack::new()),
            Some((_, rest)) => Ok(Stack {
                links: rest.clone()?,
            }),
        }
    }

    /// Returns `true` if both stacks have the same first node: `Stack::ptr_eq(&stack, &other)`. The answer is as exact
    /// as that of `Arc::ptr_eq`, and `false` for empty stacks.
    pub fn ptr_eq(this: &Stack<T>, other: &Stack<T>) -> bool
        ensures { IsTrue result → (0 < length this.now) × (0 < length other.now) }
    {
        match (&this.links.first, &other.links.first) {
            (Some(node), Some(same)) => Arc::ptr_eq(node, same),
            _ => false,
        }
    }
}

impl<T: Clone> Stack<T> {
    /// Returns a stack of clones of the items in reverse order: `stack.reverse(alloc)?`. O(n), with one allocation for
    /// each item.
    ///
    /// # Errors
    ///
    /// `AllocError` if there is no memory, or if the `clone` of an item fails.
    pub fn reverse(&self, alloc: Global) -> Result<Stack<T>, AllocError>
        requires { CopiesAreEqual T.is_clone }
        ensures { IfOk result (λ stack. stack ≡ reverse self.now) }
    {
        let mut reversed = Stack::new();
        for item in self {
            reversed.put_first(alloc, item.clone()?)?;
        }
        Ok(reversed)
    }
}
