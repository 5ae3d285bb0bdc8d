//! What is done to a tree where a cut is, by one way down along nodes that keep their form. If that cannot be, the
//! items stay, and what was to be done is given back.
ghost use Rattle.std.specs.Prelude.{◌≡◌, ◌+◌, ◌<◌, ◌^◌, Bool, IfErr, IfNone, IfOk, IfSome, IsTrue, List};
ghost use Rattle.std.specs.Prelude.{MatchResult, OnErr, Option, length};
ghost use Rattle.handles.specs.Copies.{CopiesAreEqual};
ghost use Rattle.sequence.specs.Acts.{IsActed, IsActedIn, OfSought, comes, gone};
ghost use Rattle.sequence.specs.Cuts.{HasCut, IsCut};
ghost use Rattle.sequence.specs.Nodes.{first_label};

use crate::cut::Seek;
use crate::label::Label;
use crate::tree::cut::{child_of, last_in};
use crate::tree::{Child, Node, Tree};
use handles::arc::Arc;
use std::alloc::Global;

// What is done to the items of a leaf.
pub(crate) trait Act<T, L: Label<T>> {
    // What it answers of the item that goes.
    type Gone;

    // Its cut, and the item that it seeks.
    type Way: Seek<T, L>;

    ghost way: { Self → Self.Way };

    // What it asks for of the item that it seeks.
    ghost needs: { Self → T → Type 0 };

    // What it answers at such a last item before the cut, which goes if there is an answer, if these come.
    ghost does: { Self → Option Self.Gone → Option T → List T → Type 0 };

    // Whether an item comes if none goes, so that there is one more.
    ghost GROWS: { Bool };

    const GROWS: bool;

    // Whether none comes in the place of one that goes, so that there is one less.
    ghost LOSES: { Bool };

    const LOSES: bool;

    fn way(&self) -> &Self::Way
        ensures { result.now ≡ way self.now };

    // Does it at the number of the last item before the cut. If it is told to, it leaves the first label as it is.
    fn act(
        self,
        items: &mut Vec<T>,
        last: Option<usize>,
        labelled: bool,
    ) -> Result<Option<Self::Gone>, Self>
        requires none { IfNone last (IsCut (Self.Way.is_before (way self)) items.old.items 0) }
        requires some { IfSome last (λ at. IsCut (Self.Way.is_before (way self)) items.old.items (at + 1)) }
        requires needs { OfSought (Self.Way.is_sought (way self)) (Self.Way.is_before (way self)) (needs self)
            items.old.items }
        requires room { length items.old.items + 1 < 2 ^ 64 }
        ensures done { IfOk result
            (IsActed (Self.Way.is_before (way self)) (does self) GROWS LOSES items.old.items items.new.items) }
        ensures first { IsTrue labelled
            → first_label L.label_of items.new.items ≡ first_label L.label_of items.old.items }
        ensures blocked { OnErr result (items.new.items ≡ items.old.items) }
        ensures back { IfErr result (λ act. act ≡ self) };
}

impl<T: Clone, L: Label<T> + Clone> Tree<T, L> {
    // Does it. If it is told to, it leaves the first label as it is.
    pub(crate) fn act<A: Act<T, L>>(
        &mut self,
        alloc: Global,
        act: A,
        labelled: bool,
    ) -> Result<Option<A::Gone>, A>
        requires copies { CopiesAreEqual T.is_clone × CopiesAreEqual L.is_clone }
        requires cut { HasCut (A.Way.is_before (A.way act)) self.old.0 }
        requires needs { OfSought (A.Way.is_sought (A.way act)) (A.Way.is_before (A.way act)) (A.needs act) self.old.0 }
        requires spare { IsTrue A.LOSES → 1 < length self.old.0 }
        requires room { length self.old.0 + 1 < 2 ^ 64 }
        ensures { MatchResult result
            (IsActedIn L.label_of labelled (A.Way.is_before (A.way act)) (A.does act) A.GROWS A.LOSES self.old self.new)
            (λ back. (self.new ≡ self.old) × (back ≡ act)) }
    {
        // Where there may be nothing to do, nothing is copied.
        if !A::GROWS && !self.root.is_unique() {
            return Err(act);
        }
        let Ok(node) = Arc::make_mut(&mut self.root, alloc) else {
            return Err(act);
        };
        let children = match node {
            Node::Leaf(items) => {
                let last = last_in(items, act.way());
                return act.act(items, last, labelled);
            }
            Node::Branch(children) => children,
        };
        let at = child_of(children, act.way());
        if A::LOSES && children[at].tree.is_thin() {
            return Err(act);
        }
        let child = &mut children[at];
        let gone = child.tree.act(alloc, act, labelled | (at > 0))?;
        child.len = len_after::<T, L, A>(child.len, &gone);
        Ok(gone)
    }
}

// How many there are after it, if there were so many before.
#[inline(always)]
pub(crate) fn len_after<T, L: Label<T>, A: Act<T, L>>(len: usize, answer: &Option<A::Gone>) -> usize
    requires some { 0 < len }
    requires room { len + 1 < 2 ^ 64 }
    ensures { result + gone answer.now ≡ len + comes A.GROWS A.LOSES answer.now }
{
    match answer {
        Some(_) => len - usize::from(A::LOSES),
        None => len + usize::from(A::GROWS),
    }
}
