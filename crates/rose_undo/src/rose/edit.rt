//! Edits at the end of a path, each of which returns a new tree and leaves the old one.
ghost use Rattle.std.specs.Prelude.{◌≡◌, ◌↔◌, Err, None, Some, IfOk, ◌<◌, length};
ghost use Rattle.handles.specs.Copies.{CopiesAreEqual};
ghost use Rattle.rose_undo.specs.Edits.{made};
ghost use Rattle.rose_undo.specs.Roses.{changed_at, children, inserted, removed};
ghost use Rattle.rose_undo.specs.Roses.{with_child, with_inserted, with_tree, with_value, without};
ghost use Rattle.handles.specs.declared.place.PlaceError.TheVariants.{NoPlace};

use super::Rose;
use handles::place::PlaceError;
use std::alloc::{AllocError, Global};

// What to do at the end of a path. One recursion does all four.
#[derive(Drop)]
enum Edit<V> {
    Value(V),
    Tree(Rose<V>),
    Insert(usize, Rose<V>),
    Remove(usize),
}

impl<V: Clone> Rose<V> {
    /// Returns the tree with `value` at the end of `path`: `tree.with_value(alloc, &[1, 0], value)?`. O(nodes on the
    /// path and their children).
    ///
    /// Each node on the path is made anew, of a clone of its value and of handles of its children. All other nodes are
    /// shared with this tree.
    ///
    /// # Errors
    ///
    /// `NoPlace` if the path leaves the tree, whether or not there is memory. `Memory` if there is no memory, or if the
    /// `clone` of a value or a handle fails. `value` is then dropped.
    pub fn with_value(&self, alloc: Global, path: &[usize], value: V) -> Result<Rose<V>, PlaceError>
        requires copies { CopiesAreEqual V.is_clone }
        ensures made { IfOk result (λ tree. Some tree ≡ with_value path.now value self.now) }
        ensures no_place { (result ≡ Err NoPlace) ↔ (with_value path.now value self.now ≡ None) }
    {
        self.edited_at(alloc, path, Edit::Value(value))
    }

    /// Returns the tree with `tree` in place of the one at the end of `path`, at the cost of `with_value`:
    /// `old.with_tree(alloc, path, tree)?`.
    ///
    /// # Errors
    ///
    /// The same errors as `with_value`. `tree` is then dropped.
    pub fn with_tree(
        &self,
        alloc: Global,
        path: &[usize],
        tree: Rose<V>,
    ) -> Result<Rose<V>, PlaceError>
        requires copies { CopiesAreEqual V.is_clone }
        ensures made { IfOk result (λ new. Some new ≡ with_tree path.now tree self.now) }
        ensures no_place { (result ≡ Err NoPlace) ↔ (with_tree path.now tree self.now ≡ None) }
    {
        self.edited_at(alloc, path, Edit::Tree(tree))
    }

    /// Returns the tree with `child` inserted at `index` among the children at the end of `path`, at the cost of
    /// `with_value`: `tree.with_inserted(alloc, &[], index, child)?`.
    ///
    /// # Errors
    ///
    /// The same errors as `with_value`, and `NoPlace` if `index` is greater than the number of children there. `child`
    /// is then dropped.
    pub fn with_inserted(
        &self,
        alloc: Global,
        path: &[usize],
        index: usize,
        child: Rose<V>,
    ) -> Result<Rose<V>, PlaceError>
        requires copies { CopiesAreEqual V.is_clone }
        ensures made { IfOk result (λ tree. Some tree ≡ with_inserted path.now index child self.now) }
        ensures no_place { (result ≡ Err NoPlace)
            ↔ (with_inserted path.now index child self.now ≡ None) }
    {
        self.edited_at(alloc, path, Edit::Insert(index, child))
    }

    /// Returns the tree without the child at `index` at the end of `path`, at the cost of `with_value`:
    /// `tree.without(alloc, path, index)?`.
    ///
    /// # Errors
    ///
    /// The same errors as `with_value`, and `NoPlace` if there is no child at `index`.
    pub fn without(
        &self,
        alloc: Global,
        path: &[usize],
        index: usize,
    ) -> Result<Rose<V>, PlaceError>
        requires copies { CopiesAreEqual V.is_clone }
        ensures made { IfOk result (λ tree. Some tree ≡ without path.now index self.now) }
        ensures no_place { (result ≡ Err NoPlace) ↔ (without path.now index self.now ≡ None) }
    {
        self.edited_at(alloc, path, Edit::Remove(index))
    }

    fn edited_at(&self, alloc: Global, path: &[usize], edit: Edit<V>) -> Result<Rose<V>, PlaceError>
        requires copies { CopiesAreEqual V.is_clone }
        ensures made { IfOk result (λ tree. Some tree ≡ changed_at (made edit) path.now self.now) }
        ensures no_place { (result ≡ Err NoPlace)
            ↔ (changed_at (made edit) path.now self.now ≡ None) }
    {
        let Some((index, rest)) = path.split_first() else {
            return self.edited(alloc, edit);
        };
        let child = self.child(*index).ok_or(PlaceError::NoPlace)?;
        let child = child.edited_at(alloc, rest, edit)?;
        Ok(self.with_child(alloc, *index, child)?)
    }

    fn edited(&self, alloc: Global, edit: Edit<V>) -> Result<Rose<V>, PlaceError>
        requires copies { CopiesAreEqual V.is_clone }
        ensures made { IfOk result (λ tree. Some tree ≡ made edit self.now) }
        ensures no_place { (result ≡ Err NoPlace) ↔ (made edit self.now ≡ None) }
    {
        match edit {
            Edit::Value(value) => {
                let children = self.children().to_vec(alloc)?;
                Ok(Rose::with_children(alloc, value, children)?)
            }
            Edit::Tree(tree) => Ok(tree),
            Edit::Insert(index, child) => self.inserted(alloc, index, child),
            Edit::Remove(index) => self.removed(alloc, index),
        }
    }

    fn inserted(&self, alloc: Global, index: usize, child: Rose<V>) -> Result<Rose<V>, PlaceError>
        requires copies { CopiesAreEqual V.is_clone }
        ensures made { IfOk result (λ tree. Some tree ≡ inserted index child self.now) }
        ensures no_place { (result ≡ Err NoPlace) ↔ (inserted index child self.now ≡ None) }
    {
        if self.children().len() < index {
            return Err(PlaceError::NoPlace);
        }
        let mut children = self.children().to_vec(alloc)?;
        children.insert(index, child)?;
        Ok(Rose::with_children(alloc, self.value().clone()?, children)?)
    }

    fn removed(&self, alloc: Global, index: usize) -> Result<Rose<V>, PlaceError>
        requires copies { CopiesAreEqual V.is_clone }
        ensures made { IfOk result (λ tree. Some tree ≡ removed index self.now) }
        ensures no_place { (result ≡ Err NoPlace) ↔ (removed index self.now ≡ None) }
    {
        if self.children().len() <= index {
            return Err(PlaceError::NoPlace);
        }
        let mut children = self.children().to_vec(alloc)?;
        children.remove(index);
        Ok(Rose::with_children(alloc, self.value().clone()?, children)?)
    }

    // The tree with `child` in place of its child at `index`, for a node on the path.
    fn with_child(&self, alloc: Global, index: usize, child: Rose<V>) -> Result<Rose<V>, AllocError>
        requires copies { CopiesAreEqual V.is_clone }
        requires place { index < length (children self.now) }
        ensures { IfOk result (λ tree. tree ≡ with_child index child self.now) }
    {
        let mut children = self.children().to_vec(alloc)?;
        children[index] = child;
        Rose::with_children(alloc, self.value().clone()?, children)
    }
}
