//! The steps of an end.
ghost use Rattle.std.specs.Prelude.{◌≡◌};
ghost use Rattle.shared_count.specs.Inside.Seats.{pass_at, CanCall};
ghost use Rattle.shared_count.specs.Inside.Steps.{Made};
ghost use Rattle.shared_count.specs.declared.ghost_types.Call.TheVariants.{End};

use super::SharedCount;
use crate::ghost_types::{BeginEnd, Lower, View};
use crate::replies::EndReply;
use atomic_table::Seat;
use counting_word::{DropPlan, plan_drop};

impl SharedCount {
    pub(super) fn end_with(&self, seat: &mut Seat<(), View>) -> EndReply
        requires table { seat.old.table_id ≡ self.now.table }
        requires pass { CanCall self.now.passes seat.old.me }
        ensures table { seat.new.table_id ≡ seat.old.table_id }
        ensures reply { Made (pass_at seat.old.me) (End result) seat.new.me }
    {
        let shared = &self.table.shared;
        match plan_drop(shared.load::<BeginEnd>(seat, 0)) {
            DropPlan::Static => EndReply::Ended,
            DropPlan::Lower => EndReply::of_lower(shared.fetch_sub::<Lower>(seat, 0, 1)),
        }
    }
}
