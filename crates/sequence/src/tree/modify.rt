//! How a tree changes an item: in place, but for the nodes that others share, which are copied.
ghost use Rattle.std.specs.Prelude.{◌≡◌, ◌<◌, MatchResult, length, slice_get};
ghost use Rattle.std.specs.Fn.{FnOnceTakesAtMut};
ghost use Rattle.std.specs.Option.{ForSome};
ghost use Rattle.handles.specs.Copies.{CopiesAreEqual};
ghost use Rattle.sequence.specs.Changes.{ChangesItem, KeepsLabel};

use crate::label::NewLabel;
use crate::tree::search::spot_of;
use crate::tree::{Node, Tree};
use handles::arc::Arc;
use std::alloc::{AllocError, Global};

impl<T: Clone, L: NewLabel<T>> Tree<T, L> {
    // Changes the item of that number, which is there. The change is called if nothing can be refused any more.
    pub(crate) fn modify<R, F: FnOnce(&mut T) -> R>(
        &mut self,
        alloc: Global,
        index: usize,
        change: F,
    ) -> Result<R, AllocError>
        requires copies { CopiesAreEqual T.is_clone × CopiesAreEqual L.is_clone }
        requires there { index < length self.old.0 }
        requires callable { ForSome (slice_get self.old.0 index) (FnOnceTakesAtMut F.FnOnce change) }
        requires keeps { ForSome (slice_get self.old.0 index) (KeepsLabel F.FnOnce change L.label_of) }
        ensures { MatchResult result
            (λ back. ChangesItem F.FnOnce change index self.old.0 self.new.0 back × (self.new.1 ≡ self.old.1))
            (λ _. self.new ≡ self.old) }
    {
        let children = match Arc::make_mut(&mut self.root, alloc)? {
            Node::Leaf(items) => return Ok(change(&mut items[index])),
            Node::Branch(children) => children,
        };
        let spot = spot_of(children, index + 1);
        children[spot.child]
            .tree
            .modify(alloc, spot.place - 1, change)
    }
}
