//! How two nodes become one: what the second one has moves behind what the first one has.
ghost use Rattle.std.specs.Prelude.{◌≡◌, ℕ, ◌+◌, ◌<◌, ◌≤◌, ◌^◌, ◌++◌, ◌∷◌, [], MatchResult, OnOk, length};
ghost use Rattle.std.specs.Prelude.{slice_index_or, take};
ghost use Rattle.handles.specs.Copies.{CopiesAreEqual};
ghost use Rattle.sequence.specs.Nodes.{AreChildren, CanLose, Follows, IsCopy, IsNode, StandFor, seen};
ghost use Rattle.sequence.specs.Spots.{Leads};

use crate::label::{Label, NewLabel};
use crate::tree::{Child, Node, Tree};
use handles::arc::Arc;
use handles::unique::UniqueArc;
use std::alloc::{AllocError, Global};
use std::mem;

// Makes one child of the one of that number and the next.
pub(crate) fn join_children<T: Clone, L: NewLabel<T>>(
    children: &mut Vec<Child<T, L>>,
    at: usize,
    alloc: Global,
) -> Result<(), AllocError>
    requires copies { CopiesAreEqual T.is_clone × CopiesAreEqual L.is_clone }
    requires children { AreChildren L.label_of children.old.items }
    requires within { at + 1 < length children.old.items }
    ensures same { StandFor L.label_of children.old.items children.new.items }
    ensures before { take at children.new.items ≡ take at children.old.items }
    ensures first { OnOk result ((place k : ℕ) → Leads children.old.items place (record { child = at; place = k })
        → Leads children.new.items place (record { child = at; place = k })) }
    ensures second { OnOk result ((place k : ℕ) (d : Child T L)
        → Leads children.old.items place (record { child = at + 1; place = k })
        → Leads children.new.items place
        (record { child = at; place = (slice_index_or children.old.items at d).len + k })) }
    ensures spare { OnOk result ((d : Child T L) → CanLose (slice_index_or children.new.items at d).tree) }
{
    // For the proof: its clause says that there is room for what is taken out here, if it has to go back.
    children.reserve(0)?;
    let Child {
        mut label,
        len,
        tree,
    } = children.remove(at + 1);
    let child = &mut children[at];
    let Err(tree) = child.tree.take_over(alloc, tree, &mut label) else {
        child.len += len;
        return Ok(());
    };
    let Ok(()) = children.insert(at + 1, Child { label, len, tree }) else {
        unreachable!()
    };
    Err(AllocError)
}

impl<T: Clone, L: NewLabel<T>> Tree<T, L> {
    // Takes over what the first node of the next tree has, which is as high. If that is a branch, its first child gets
    // the label of that tree.
    fn take_over(
        &mut self,
        alloc: Global,
        next: Tree<T, L>,
        label: &mut L,
    ) -> Result<(), Tree<T, L>>
        requires copies { CopiesAreEqual T.is_clone × CopiesAreEqual L.is_clone }
        requires fits { Follows L.label_of self.old next label.old }
        ensures { MatchResult result
            (λ _. self.new ≡ (self.old.0 ++ next.0, self.old.1))
            (λ tree. (self.new ≡ self.old) × ((label.new ≡ label.old) × (tree ≡ next))) }
    {
        let Ok(node) = Arc::make_mut(&mut self.root, alloc) else {
            return Err(next);
        };
        let mut other = next.into_own(alloc)?;
        if let Err(AllocError) = node.append(&mut other, label) {
            return Err(Tree {
                root: other.shareable(),
            });
        }
        Ok(())
    }
}

impl<T: Clone, L: Label<T> + Clone> Tree<T, L> {
    // The first node, which no other version has then. A refusal gives the tree back.
    fn into_own(self, alloc: Global) -> Result<UniqueArc<Node<T, L>>, Tree<T, L>>
        requires copies { CopiesAreEqual T.is_clone × CopiesAreEqual L.is_clone }
        ensures { MatchResult result (λ node. (seen node ≡ self) × IsNode L.label_of node) (λ tree. tree ≡ self) }
    {
        let Tree { mut root } = self;
        if let Err(AllocError) = Arc::make_mut(&mut root, alloc) {
            return Err(Tree { root });
        }
        match Arc::into_unique(root) {
            Ok(node) => Ok(node),
            Err(root) => Err(Tree { root }),
        }
    }

    // The only item. A refusal gives the tree back.
    pub(crate) fn into_only(self, alloc: Global) -> Result<T, Tree<T, L>>
        requires copies { CopiesAreEqual T.is_clone × CopiesAreEqual L.is_clone }
        requires one { length self.0 ≡ 1 }
        requires wide { 2 ^ self.1 ≤ length self.0 }
        ensures { MatchResult result (λ item. self.0 ≡ item ∷ []) (λ tree. tree ≡ self) }
    {
        match self.into_own(alloc)?.into_inner() {
            Node::Leaf(mut items) => Ok(items.remove(0)),
            Node::Branch(_) => unreachable!(),
        }
    }
}

impl<T: Drop, L: Label<T> + Drop> Node<T, L> {
    // Moves what a node of the same kind has behind what this one has. Its first child gets the label.
    fn append(&mut self, other: &mut Node<T, L>, label: &mut L) -> Result<(), AllocError>
        requires whole { IsNode L.label_of self.old × IsNode L.label_of other.old }
        requires fits { Follows L.label_of (seen self.old) (seen other.old) label.old }
        ensures { MatchResult result
            (λ _. IsNode L.label_of self.new
            × (seen self.new ≡ ((seen self.old).0 ++ (seen other.old).0, (seen self.old).1)))
            (λ _. IsCopy self.old self.new × (IsCopy other.old other.new × (label.new ≡ label.old))) }
    {
        match (self, other) {
            (Node::Leaf(items), Node::Leaf(more)) => {
                items.append(more)?;
                Ok(())
            }
            (Node::Branch(children), Node::Branch(more)) => {
                let next = children.len();
                children.append(more)?;
                mem::swap(&mut children[next].label, label);
                Ok(())
            }
            _ => unreachable!(),
        }
    }
}
