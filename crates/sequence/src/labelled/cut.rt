//! The place of a cut in a list.
ghost use Rattle.std.specs.Prelude.{◌≡◌, ◌+◌, IfNone, IfSome, Some, slice_get};
ghost use Rattle.sequence.specs.Cuts.{HasCut, IsCut, IsLast};

use crate::cut::Cut;
use crate::label::Label;
use crate::labelled::LabelledSequence;
use crate::tree::Node;
use crate::tree::cut::{child_of, last_in};
use crate::tree::search::count;

impl<T, L: Label<T>> LabelledSequence<T, L> {
    /// Returns the number of items before the cut, its partition point: `entries.rank(&cut)`. O(log n).
    pub fn rank<C: Cut<T, L>>(&self, cut: &C) -> usize
        requires { HasCut (C.is_before cut.now) self.now }
        ensures { IsCut (C.is_before cut.now) self.now result }
    {
        // For the proof: its clause says that there are fewer than a number can count.
        let _ = self.len();
        match self.find(cut) {
            None => 0,
            Some((at, _)) => at + 1,
        }
    }

    /// Returns the index of the last item before the cut, and that item, or `None` if the first item is behind the cut:
    /// `entries.find(&cut)`. O(log n).
    // Inline, so that nothing is counted where no number is read.
    #[inline(always)]
    pub fn find<C: Cut<T, L>>(&self, cut: &C) -> Option<(usize, &T)>
        requires { HasCut (C.is_before cut.now) self.now }
        ensures none { IfNone result (IsCut (C.is_before cut.now) self.now 0) }
        ensures number { IfSome result (λ found. IsCut (C.is_before cut.now) self.now (found.0 + 1)) }
        ensures item { IfSome result (λ found. slice_get self.now found.0 ≡ Some found.1.now) }
    {
        let Some(tree) = &self.root else {
            return None;
        };
        let mut node = tree.node();
        let mut start = 0;
        'down: loop {
            match node {
                Node::Leaf(items) => {
                    return match last_in(items, cut) {
                        None => None,
                        Some(at) => Some((start + at, &items[at])),
                    };
                }
                Node::Branch(children) => {
                    let at = child_of(children, cut);
                    start += count(&children[..at]);
                    node = children[at].tree.node();
                }
            }
        }
    }

    /// Returns the last item before the cut, or `None` if the first item is behind the cut:
    /// `entries.last_before(&cut)`. O(log n).
    pub fn last_before<C: Cut<T, L>>(&self, cut: &C) -> Option<&T>
        requires { HasCut (C.is_before cut.now) self.now }
        ensures none { IfNone result (IsCut (C.is_before cut.now) self.now 0) }
        ensures some { IfSome result (λ item. IsLast (C.is_before cut.now) self.now item.now) }
    {
        let (_, item) = self.find(cut)?;
        Some(item)
    }
}
