//! A rose tree (any number of children at each node), whose versions (snapshots) share their branches.
ghost use Rattle.std.specs.Prelude.{◌≡◌, [], Some, IfOk, slice_get};
ghost use Rattle.std.specs.Option.{option_copied};
ghost use Rattle.rose_undo.specs.Roses.{at, branch, children, root};

mod edit;
mod modify;
mod walk;

use handles::arc::Arc;
use handles::header_slice::ThinArc;
use std::alloc::{AllocError, Global};

/// A rose tree: a value with any number of trees below it, in one block. A clone is a version (snapshot).
///
/// An edit returns a new tree, which shares all branches that the edit left alone:
///
/// ```
/// let new = tree.with_value(alloc, path, value)?;
/// ```
///
/// Edits and `drop` recurse along the depth of the tree, so they need a deep call stack for a very deep tree; `end`
/// drops such a tree in a loop.
///
/// Contracts assume that the values hold no cell, lock or atomic: a write through one of these is seen by every version
/// that shares the value, and no clause speaks of it.
#[derive(Drop, Debug, PartialEq, Eq)]
pub struct Rose<V> {
    node: ThinArc<V, Rose<V>>,
}

/// Makes a version (snapshot) by one increment of a count, with no copy and no allocation: `let old = tree.clone()?;`.
/// O(1).
///
/// # Errors
///
/// `AllocError` when the `clone` of an `Arc` fails, which is never for lack of memory.
impl<V: Drop> Clone for Rose<V> {
    ghost is_clone = { λ a b. b ≡ a };

    fn clone(&self) -> Result<Rose<V>, AllocError> {
        Ok(Rose {
            node: self.node.clone()?,
        })
    }
}

impl<V> Rose<V> {
    /// Returns the value at the root: `tree.value()`. O(1).
    pub fn value(&self) -> &V
        ensures { result.now ≡ root self.now }
    {
        &self.node.header
    }

    /// Returns the trees below the root: `tree.children()`. O(1).
    pub fn children(&self) -> &[Rose<V>]
        ensures { result.now ≡ children self.now }
    {
        self.node.slice()
    }

    /// Returns the child at `index`, or `None`: `tree.child(0)`. O(1).
    pub fn child(&self, index: usize) -> Option<&Rose<V>>
        ensures { option_copied result ≡ slice_get (children self.now) index }
    {
        self.children().get(index)
    }

    /// Returns the tree at the end of `path`, or `None`: `tree.at(path)`. A path has the index of a child for each step
    /// down. O(path).
    pub fn at(&self, path: &[usize]) -> Option<&Rose<V>>
        ensures { option_copied result ≡ at path.now self.now }
    {
        let Some((index, rest)) = path.split_first() else {
            return Some(self);
        };
        self.child(*index)?.at(rest)
    }

    /// Returns `true` if both trees have the same root node: `Rose::ptr_eq(&tree, &other)`. The answer is as exact as
    /// that of `Arc::ptr_eq`.
    pub fn ptr_eq(this: &Rose<V>, other: &Rose<V>) -> bool {
        Arc::ptr_eq(&this.node, &other.node)
    }
}

impl<V: Drop> Rose<V> {
    /// Creates a tree of one value: `Rose::leaf(alloc, value)?`.
    ///
    /// # Errors
    ///
    /// `AllocError` if there is no memory. `value` is then dropped.
    pub fn leaf(alloc: Global, value: V) -> Result<Rose<V>, AllocError>
        ensures { IfOk result (λ tree. tree ≡ branch value []) }
    {
        Rose::with_children(alloc, value, Vec::new(alloc))
    }

    /// Creates a tree of `value` with `trees` below it, in one block: `Rose::with_children(alloc, value, trees)?`.
    /// O(children).
    ///
    /// # Errors
    ///
    /// `AllocError` if there is no memory. `value` and `trees` are then dropped.
    pub fn with_children(
        alloc: Global,
        value: V,
        trees: Vec<Rose<V>>,
    ) -> Result<Rose<V>, AllocError>
        ensures { IfOk result (λ tree. tree ≡ branch value trees.items) }
    {
        let node = Arc::from_header_and_vec(alloc, value, trees)?;
        Ok(Rose { node })
    }
}
