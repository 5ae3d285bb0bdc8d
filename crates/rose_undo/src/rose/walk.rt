//! All values of a tree, and the drop of a deep tree, by loops instead of recursions.
ghost use Rattle.std.specs.Prelude.{◌≡◌, [], IfOk, map};
ghost use Rattle.rose_undo.specs.Roses.{paths_from, preorder};

use super::Rose;
use handles::arc::Arc;
use std::alloc::{AllocError, Global};

impl<V> Rose<V> {
    /// Returns all values in preorder (a node before its children): `tree.values(alloc)?`. O(n). The work list is at
    /// most as long as the tree is deep.
    ///
    /// # Errors
    ///
    /// `AllocError` if there is no memory.
    #[tactic(auto, using(crate::proofs::Preorder::preorder_out))]
    pub fn values(&self, alloc: Global) -> Result<Vec<&V>, AllocError>
        ensures { IfOk result (λ values. map (λ v. v.now) values.items ≡ preorder self.now) }
    {
        let mut values = vec![in alloc; self.value()]?;
        let mut left = vec![in alloc; self.children()]?;
        while let Some(trees) = left.pop() {
            let Some((first, rest)) = trees.split_first() else {
                continue;
            };
            values.push(first.value())?;
            left.push(rest)?;
            left.push(first.children())?;
        }
        Ok(values)
    }

    /// Returns all values in preorder, each with its path: `tree.paths(alloc)?`. O(n) times the depth of the tree.
    ///
    /// # Errors
    ///
    /// `AllocError` if there is no memory.
    pub fn paths(&self, alloc: Global) -> Result<Vec<(Vec<usize>, &V)>, AllocError>
        ensures { IfOk result (λ paths. map (λ p. (p.0.items, p.1.now)) paths.items ≡ paths_from self.now []) }
    {
        let mut paths = vec![in alloc; (Vec::new(alloc), self.value())]?;
        let mut left = Vec::new(alloc);
        left.push(Left {
            path: Vec::new(alloc),
            tree: self,
            child: 0,
        })?;
        while let Some(Left { path, tree, child }) = left.pop() {
            let Some(below) = tree.children().get(child) else {
                continue;
            };
            let mut path_below = path.to_vec(alloc)?;
            path_below.push(child)?;
            paths.push((path_below.to_vec(alloc)?, below.value()))?;
            left.push(Left {
                path,
                tree,
                child: child + 1,
            })?;
            left.push(Left {
                path: path_below,
                tree: below,
                child: 0,
            })?;
        }
        Ok(paths)
    }
}

// A tree whose value is listed, with its path, and the index of its first child that is not.
#[derive(Drop)]
struct Left<'a, V> {
    path: Vec<usize>,
    tree: &'a Rose<V>,
    child: usize,
}

impl<V: Drop> Rose<V> {
    /// Drops the tree node by node in a loop, so that a deep tree needs no deep call stack: `tree.end(alloc)`. O(n).
    ///
    /// Nodes that another version (snapshot) shares stay. For each node below the root, its count is incremented once,
    /// and the work list needs memory. Where either fails, the trees below that node are dropped by the recursive
    /// `drop` instead.
    pub fn end(self, alloc: Global) {
        let mut left = Vec::new(alloc);
        let _ = left.push(self);
        while let Some(tree) = left.pop() {
            let Rose { node } = tree;
            if let Some(slice) = Arc::into_inner(node) {
                let _ = left.extend_with_clones(slice.slice());
            }
        }
    }
}
