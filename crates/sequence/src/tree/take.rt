//! How the last item before a cut is taken out of a leaf.
ghost use Rattle.std.specs.Prelude.{◌≡◌, Bool, false, true};
ghost use Rattle.sequence.specs.Acts.{takes};

use crate::cut::Seek;
use crate::label::Label;
use crate::tree::act::Act;

// Takes the item that the cut seeks.
#[derive(Drop)]
pub(crate) struct Take<C>(pub(crate) C);

impl<T: Drop, L: Label<T>, C: Seek<T, L> + Drop> Act<T, L> for Take<C> {
    type Gone = T;

    type Way = C;

    ghost way = { λ take. take.0 };

    ghost needs = { λ _ _. Unit {0} };

    ghost does = { λ take. takes (C.is_sought take.0) };

    ghost GROWS = { false };

    const GROWS: bool = false;

    ghost LOSES = { true };

    const LOSES: bool = true;

    #[inline(always)]
    fn way(&self) -> &C {
        &self.0
    }

    fn act(
        self,
        items: &mut Vec<T>,
        last: Option<usize>,
        labelled: bool,
    ) -> Result<Option<T>, Take<C>> {
        let at = match last {
            Some(at) => at,
            None => return Ok(None),
        };
        if !self.0.is_sought(&items[at]) {
            return Ok(None);
        }
        if labelled && at == 0 {
            return Err(self);
        }
        Ok(Some(items.remove(at)))
    }
}
