//! How the last item before a cut is changed in a leaf.
ghost use Rattle.std.specs.Prelude.{Bool, false};
ghost use Rattle.std.specs.Fn.{FnOnceTakesAtMut};
ghost use Rattle.sequence.specs.Acts.{changes};
ghost use Rattle.sequence.specs.Changes.{KeepsLabel};

use crate::cut::Seek;
use crate::label::Label;
use crate::tree::act::Act;

// Changes the item that the cut seeks.
#[derive(Drop)]
pub(crate) struct Change<C, F> {
    pub(crate) cut: C,
    pub(crate) change: F,
}

impl<T, L: Label<T>, C: Seek<T, L> + Drop, R, F: FnOnce(&mut T) -> R> Act<T, L> for Change<C, F> {
    type Gone = R;

    type Way = C;

    ghost way = { λ act. act.cut };

    ghost needs = { λ act item. FnOnceTakesAtMut F.FnOnce act.change item
        × KeepsLabel F.FnOnce act.change L.label_of item };

    ghost does = { λ act. changes (C.is_sought act.cut) F.FnOnce act.change };

    ghost GROWS = { false };

    const GROWS: bool = false;

    ghost LOSES = { false };

    const LOSES: bool = false;

    #[inline(always)]
    fn way(&self) -> &C {
        &self.cut
    }

    fn act(
        self,
        items: &mut Vec<T>,
        last: Option<usize>,
        _labelled: bool,
    ) -> Result<Option<R>, Change<C, F>> {
        let Change { cut, change } = self;
        let at = match last {
            Some(at) => at,
            None => return Ok(None),
        };
        if !cut.is_sought(&items[at]) {
            return Ok(None);
        }
        Ok(Some(change(&mut items[at])))
    }
}
