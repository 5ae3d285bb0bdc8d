//! Changes in place. Nodes that another version (snapshot) shares are copied.
ghost use Rattle.std.specs.Prelude.{◌≡◌, ◌↔◌, Err, None, IfOk, IsSome, OnErr};
ghost use Rattle.std.specs.Fn.{FnOnceTakesAtMut};
ghost use Rattle.std.specs.Option.{ForSome, option_map};
ghost use Rattle.handles.specs.Copies.{CopiesAreEqual};
ghost use Rattle.handles.specs.declared.place.PlaceError.TheVariants.{NoPlace};
ghost use Rattle.rose_undo.specs.Modified.{ChangesValue};
ghost use Rattle.rose_undo.specs.Roses.{at, branch, children, root};

use super::Rose;
use handles::arc::Arc;
use handles::header_slice::HeaderSlice;
use handles::place::PlaceError;
use handles::unique::UniqueArc;
use std::alloc::{AllocError, Global};

impl<V: Clone> Rose<V> {
    /// Calls `change` on the value at the end of `path` and returns its result:
    /// `tree.modify(alloc, path, |value| mem::replace(value, new))?`. O(path), and O(children) for each node that is
    /// copied.
    ///
    /// Nodes on the path that another version shares are copied, and the others are written in place.
    ///
    /// # Errors
    ///
    /// `NoPlace` if the path leaves the tree, whether or not there is memory. `Memory` if there is no memory, or if the
    /// `clone` of a value or a handle fails. `change` is then not called, and the tree reads as before.
    pub fn modify<R, F: FnOnce(&mut V) -> R>(
        &mut self,
        alloc: Global,
        path: &[usize],
        change: F,
    ) -> Result<R, PlaceError>
        requires copies { CopiesAreEqual V.is_clone }
        requires callable { ForSome (option_map root (at path.now self.old)) (FnOnceTakesAtMut F.FnOnce change) }
        ensures changed { IfOk result (ChangesValue F.FnOnce change path.now self.old self.new) }
        ensures no_place { (result ≡ Err NoPlace) ↔ (at path.now self.old ≡ None) }
        ensures refused { OnErr result (self.new ≡ self.old) }
    {
        if self.at(path).is_none() {
            return Err(PlaceError::NoPlace);
        }
        Ok(self.modify_there(alloc, path, change)?)
    }

    #[cycle(modify)]
    fn modify_there<R, F: FnOnce(&mut V) -> R>(
        &mut self,
        alloc: Global,
        path: &[usize],
        change: F,
    ) -> Result<R, AllocError>
        requires copies { CopiesAreEqual V.is_clone }
        requires there { IsSome (at path.now self.old) }
        requires callable { ForSome (option_map root (at path.now self.old)) (FnOnceTakesAtMut F.FnOnce change) }
        ensures changed { IfOk result (ChangesValue F.FnOnce change path.now self.old self.new) }
        ensures refused { OnErr result (self.new ≡ self.old) }
    {
        if let Some(node) = Arc::get_mut(&mut self.node) {
            return Rose::write(node, alloc, path, change);
        }
        let mut copy = self.copy(alloc)?;
        let answer = Rose::write(&mut copy, alloc, path, change)?;
        self.node = copy.shareable();
        Ok(answer)
    }

    // A copy of the root node that nobody shares yet, so that it can be written.
    fn copy(&self, alloc: Global) -> Result<UniqueArc<HeaderSlice<V, Rose<V>>>, AllocError>
        requires copies { CopiesAreEqual V.is_clone }
        ensures { IfOk result (λ node. node ≡ record { header = root self.now; items = children self.now }) }
    {
        let children = self.children().to_vec(alloc)?;
        let value = self.value().clone()?;
        UniqueArc::from_header_and_iter(alloc, value, children.into_iter()).map_err(
            AllocError::from,
        )
    }

    // Writes to a node that nobody shares.
    #[cycle(modify)]
    fn write<R, F: FnOnce(&mut V) -> R>(
        node: &mut HeaderSlice<V, Rose<V>>,
        alloc: Global,
        path: &[usize],
        change: F,
    ) -> Result<R, AllocError>
        requires copies { CopiesAreEqual V.is_clone }
        requires there { IsSome (at path.now (branch node.old.header node.old.items)) }
        requires callable { ForSome (option_map root (at path.now (branch node.old.header node.old.items)))
            (FnOnceTakesAtMut F.FnOnce change) }
        ensures changed { IfOk result (ChangesValue F.FnOnce change path.now
            (branch node.old.header node.old.items) (branch node.new.header node.new.items)) }
        ensures refused { OnErr result (node.new ≡ node.old) }
    {
        match path.split_first() {
            None => Ok(change(&mut node.header)),
            Some((index, rest)) => node.slice_mut()[*index].modify_there(alloc, rest, change),
        }
    }
}
