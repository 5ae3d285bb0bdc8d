//! How what is put in comes into a leaf.
ghost use Rattle.std.specs.Prelude.{◌≡◌, Bool, IfErr, IfOk, IsTrue, OnErr, false, true};
ghost use Rattle.sequence.specs.Acts.{IsActed, IsMissed, last_of, puts};
ghost use Rattle.sequence.specs.Cuts.{IsCut};
ghost use Rattle.sequence.specs.Nodes.{first_label};

use crate::label::Label;
use crate::put::Put;
use crate::tree::act::Act;
use crate::tree::copies::leaf_width;

// Puts that in.
#[derive(Drop)]
pub(crate) struct PutIn<P>(pub(crate) P);

impl<T: Drop, L: Label<T>, P: Put<T, L>> Act<T, L> for PutIn<P> {
    type Gone = P::Old;

    type Way = P;

    ghost way = { λ put. put.0 };

    ghost needs = { λ _ _. Unit {0} };

    ghost does = { λ put. puts (P.is_sought put.0) (P.made put.0) (P.replaced put.0) P.put_out };

    ghost GROWS = { true };

    const GROWS: bool = true;

    ghost LOSES = { false };

    const LOSES: bool = false;

    #[inline(always)]
    fn way(&self) -> &P {
        &self.0
    }

    fn act(
        self,
        items: &mut Vec<T>,
        last: Option<usize>,
        labelled: bool,
    ) -> Result<Option<P::Old>, PutIn<P>> {
        let at = match last {
            Some(at) => at,
            None => return self.add(items, 0, labelled),
        };
        if self.0.is_sought(&items[at]) {
            return Ok(Some(self.0.replace(&mut items[at])));
        }
        self.add(items, at + 1, labelled)
    }
}

impl<P> PutIn<P> {
    // Puts it in as an item of its own.
    #[inline(always)]
    fn add<T: Drop, L: Label<T>>(
        self,
        items: &mut Vec<T>,
        place: usize,
        labelled: bool,
    ) -> Result<Option<P::Old>, PutIn<P>>
    where
        P: Put<T, L>,
        requires cut { IsCut (P.is_before self.0) items.old.items place }
        requires missed { IsMissed (P.is_sought self.0) (last_of place items.old.items) }
        ensures done { IfOk result (IsActed (P.is_before self.0)
            (puts (P.is_sought self.0) (P.made self.0) (P.replaced self.0) P.put_out) true false
            items.old.items items.new.items) }
        ensures first { IsTrue labelled
            → first_label L.label_of items.new.items ≡ first_label L.label_of items.old.items }
        ensures blocked { OnErr result (items.new.items ≡ items.old.items) }
        ensures back { IfErr result (λ put. put ≡ self) }
    {
        if items.len() >= leaf_width(items) || labelled && place == 0 || items.reserve(1).is_err() {
            return Err(self);
        }
        let Ok(()) = items.insert(place, self.0.into_item()) else {
            unreachable!()
        };
        Ok(None)
    }
}
