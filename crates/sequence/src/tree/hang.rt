//! How two trees become one: the lower one becomes a child of the higher one, on its own level.
ghost use Rattle.std.specs.Prelude.{◌≡◌, ◌+◌, ◌<◌, ◌≤◌, ◌^◌, ◌++◌, ◌⊎◌, MatchResult, length};
ghost use Rattle.handles.specs.Copies.{CopiesAreEqual};
ghost use Rattle.sequence.specs.Spots.{spliced};

use crate::label::NewLabel;
use crate::tree::insert::Piece;
use crate::tree::{Child, Tree};
use std::alloc::{AllocError, Global};

impl<T: Clone, L: NewLabel<T>> Tree<T, L> {
    // The tree of the items of this one and those of the other behind them. The numbers say how many each has. A
    // refusal gives this one back.
    pub(crate) fn append(
        mut self,
        alloc: Global,
        len: usize,
        mut other: Tree<T, L>,
        more: usize,
    ) -> Result<Tree<T, L>, Tree<T, L>>
        requires copies { CopiesAreEqual T.is_clone × CopiesAreEqual L.is_clone }
        requires len { len ≡ length self.0 }
        requires more { more ≡ length other.0 }
        requires room { len + more < 2 ^ 64 }
        ensures { MatchResult result (λ tree. tree.0 ≡ self.0 ++ other.0) (λ tree. tree.0 ≡ self.0) }
    {
        if self.shrink().is_err() || other.shrink().is_err() {
            return Err(self);
        }
        let height = self.height();
        let others = other.height();
        if height < others {
            other.hang(alloc, more, self, len, 0, others - height)?;
            return Ok(other);
        }
        match self.hang(alloc, len, other, more, len, height - others) {
            Ok(()) => Ok(self),
            Err(_) => Err(self),
        }
    }

    // Puts the items of the other tree, which is so many levels lower, before all items or behind all. A refusal gives
    // it back.
    fn hang(
        &mut self,
        alloc: Global,
        len: usize,
        other: Tree<T, L>,
        more: usize,
        place: usize,
        mut below: u8,
    ) -> Result<(), Tree<T, L>>
        requires copies { CopiesAreEqual T.is_clone × CopiesAreEqual L.is_clone }
        requires len { len ≡ length self.old.0 }
        requires more { more ≡ length other.0 }
        requires wide { (2 ^ self.old.1 ≤ length self.old.0) × (2 ^ other.1 ≤ length other.0) }
        requires low { other.1 + below ≡ self.old.1 }
        requires edge { (place ≡ 0) ⊎ (place ≡ len) }
        requires room { len + more < 2 ^ 64 }
        ensures { MatchResult result (λ _. self.new.0 ≡ spliced place 0 other.0 self.old.0)
            (λ back. (self.new.0 ≡ self.old.0) × (back ≡ other)) }
    {
        let Ok(label) = L::new(other.item(0)) else {
            return Err(other);
        };
        // One level more if the other is no lower, or if the first node is full.
        if below == 0 || self.is_full() {
            if self.add_level(alloc, len).is_err() {
                return Err(other);
            }
            below += 1;
        }
        let part = Child {
            label,
            len: more,
            tree: other,
        };
        match self.insert(alloc, place, Piece::Part(part, below)) {
            Ok(()) => Ok(()),
            Err(Some(part)) => Err(part.tree),
            Err(None) => unreachable!(),
        }
    }
}
