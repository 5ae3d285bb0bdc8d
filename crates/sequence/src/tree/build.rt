//! How a tree is made of items: a node with all of them becomes a branch over parts of it, until it has no more than a
//! node may.
ghost use Rattle.std.specs.Prelude.{◌≡◌, ◌≤◌, ◌^◌, ◌∷◌, [], IfOk, length};
ghost use Rattle.handles.specs.Copies.{CopiesAreEqual};
ghost use Rattle.sequence.specs.Nodes.{AreParts, IsLabelled, IsList, IsNode, seen};

use crate::label::{Label, NewLabel};
use crate::tree::copies::LEAF;
use crate::tree::{Child, Node, Tree};
use std::alloc::{AllocError, Global};

impl<T: Drop, L: Label<T> + Drop> Tree<T, L> {
    // A tree of one item.
    pub(crate) fn of_one(alloc: Global, item: T) -> Result<Tree<T, L>, AllocError>
        ensures { IfOk result (λ tree. tree ≡ (item ∷ [], 0)) }
    {
        let mut items = Vec::with_capacity(alloc, LEAF)?;
        items.push(item)?;
        Tree::of(alloc, Node::Leaf(items))
    }
}

impl<T: Drop, L: NewLabel<T>> Tree<T, L> {
    // A tree of these items. All its nodes are full, but for the first two of each height.
    pub(crate) fn of_items(alloc: Global, items: Vec<T>) -> Result<Tree<T, L>, AllocError>
        requires labels { CopiesAreEqual L.is_clone }
        requires list { IsList items.items }
        ensures { IfOk result (λ tree. tree.0 ≡ items.items) }
    {
        let len = items.len();
        let mut node = Node::Leaf(items);
        'up: while node.is_full() {
            node = Node::Branch(parts(alloc, node, len)?);
        }
        Tree::of(alloc, node)
    }

    // A child with that tree, which has so many items.
    pub(crate) fn into_child(self, len: usize) -> Result<Child<T, L>, AllocError>
        requires labels { CopiesAreEqual L.is_clone }
        ensures tree { IfOk result (λ child. child.tree ≡ self) }
        ensures len { IfOk result (λ child. child.len ≡ len) }
        ensures label { IfOk result (IsLabelled L.label_of) }
    {
        let label = L::new(self.item(0))?;
        Ok(Child {
            label,
            len,
            tree: self,
        })
    }
}

// The children that a node with that many items becomes, none of which is fuller than a node may be.
fn parts<T: Drop, L: NewLabel<T>>(
    alloc: Global,
    mut node: Node<T, L>,
    mut len: usize,
) -> Result<Vec<Child<T, L>>, AllocError>
    requires labels { CopiesAreEqual L.is_clone }
    requires node { IsNode L.label_of node }
    requires len { len ≡ length (seen node).0 }
    requires wide { 2 ^ (seen node).1 ≤ length (seen node).0 }
    ensures { IfOk result (λ children. AreParts L.label_of (seen node) children.items) }
{
    let mut children = Vec::new(alloc);
    'off: while let Some(child) = node.split_node(alloc, false)? {
        len -= child.len;
        children.push(child)?;
    }
    node.fit();
    let tree = Tree::of(alloc, node)?;
    children.push(tree.into_child(len)?)?;
    children.reverse();
    Ok(children)
}

impl<T, L: Label<T>> Node<T, L> {
    // Gives back what room it has beyond its items.
    fn fit(&mut self)
        requires { IsNode L.label_of self.old }
        ensures node { IsNode L.label_of self.new }
        ensures same { seen self.new ≡ seen self.old }
    {
        match self {
            Node::Leaf(items) => items.shrink_to_fit(),
            Node::Branch(children) => children.shrink_to_fit(),
        }
    }
}
