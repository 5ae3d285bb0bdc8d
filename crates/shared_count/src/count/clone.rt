//! The steps of a clone.
ghost use Rattle.std.specs.Prelude.{◌≡◌};
ghost use Rattle.counting_word.specs.CountingWord.{greatest_count};
ghost use Rattle.counting_word.specs.Plans.{clone_plan};
ghost use Rattle.counting_word.specs.declared.ClonePlan.TheVariants as plan;
ghost use Rattle.shared_count.specs.Inside.Seats.{pass_at, state_at, CanCall, Replied};
ghost use Rattle.shared_count.specs.Inside.Steps.{Counts};

use super::SharedCount;
use crate::ghost_types::{BeginClone, Raise, View};
use crate::replies::TryClone;
use atomic_table::Seat;
use counting_word::{ClonePlan, MAX_REFCOUNT, plan_clone};

impl SharedCount {
    // Loads the word, and makes the compare-exchange if the plan is `Raise`.
    pub(super) fn clone_with(&self, seat: &mut Seat<(), View>) -> TryClone
        requires table { seat.old.table_id ≡ self.now.table }
        requires pass { CanCall self.now.passes seat.old.me }
        ensures table { seat.new.table_id ≡ seat.old.table_id }
        ensures reply { Replied (pass_at seat.old.me) result seat.new.me }
    {
        let word = self.table.shared.load::<BeginClone>(seat, 0);
        match plan_of(word) {
            ClonePlan::Static => TryClone::Born,
            ClonePlan::Full => TryClone::Full,
            ClonePlan::Raise(raised) => self.raise_with(seat, word, raised),
        }
    }

    // Makes the compare-exchange from the word that was read. If it fails, the word that it finds decides the reply.
    fn raise_with(&self, seat: &mut Seat<(), View>, word: u64, raised: u64) -> TryClone
        requires table { seat.old.table_id ≡ self.now.table }
        requires pass { CanCall self.now.passes seat.old.me }
        requires read { Counts word (state_at seat.old.me) }
        requires plan { plan.Raise raised ≡ clone_plan word greatest_count }
        ensures table { seat.new.table_id ≡ seat.old.table_id }
        ensures reply { Replied (pass_at seat.old.me) result seat.new.me }
    {
        let shared = &self.table.shared;
        let found = shared.compare_exchange::<Raise>(seat, 0, word, raised);
        if found == word {
            return TryClone::Born;
        }
        match plan_of(found) {
            ClonePlan::Static => TryClone::Born,
            ClonePlan::Full => TryClone::Full,
            ClonePlan::Raise(_) => TryClone::Overtaken,
        }
    }
}

// Returns the plan at the limit of this count, `MAX_REFCOUNT`.
fn plan_of(word: u64) -> ClonePlan
    ensures { result ≡ clone_plan word greatest_count }
{
    plan_clone(word, MAX_REFCOUNT)
}
