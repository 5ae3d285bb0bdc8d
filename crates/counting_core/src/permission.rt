//! Which steps on a handle are permitted.
ghost use Rattle.std.specs.Prelude.{◌≡◌, ◌<◌, IfSome, IsSome, length, true};
ghost use Rattle.counting_core.specs.Machines.{core_of};
ghost use Rattle.counting_core.specs.Permitted.{handle_of, is_another, permitted};
ghost use Rattle.counting_core.specs.Represents.{state_of};

use crate::acting::Machine;
use crate::activity::Activity;
use crate::step::Step;

impl<V: Copy> Machine<V> {
    fn is_another(&self, owner: usize, to: usize) -> bool
        ensures { result ≡ is_another (state_of (core_of self.now)) owner to }
    {
        to < self.owners.len() && to != owner
    }

    /// Returns whether the owner of a step on a handle may make it now. An owner with a call in flight may not.
    pub(crate) fn permits(&self, step: &Step<V>) -> bool
        ensures permitted { IsSome (handle_of step.now) → result ≡ permitted (state_of (core_of self.now)) step.now }
        ensures born { result ≡ true → IfSome (handle_of step.now) (λ h. h < length self.now.handles.items) }
    {
        let Some((owner, handle)) = step.on_handle() else {
            return false;
        };
        let Some(Activity::Idle) = self.owners.get(owner) else {
            return false;
        };
        let Some(entry) = self.handles.get(handle) else {
            return false;
        };
        match *step {
            Step::Raise { .. } | Step::Quit { .. } | Step::Lower { .. } => false,
            Step::Clone { .. } | Step::Mark { .. } | Step::Unique { .. } | Step::Static { .. } => {
                entry.may_be_used_by(owner)
            }
            Step::Load { .. } => entry.may_be_used_by(owner) || entry.is_sole_of(owner),
            Step::GetMut { .. } | Step::IntoUnique { .. } => entry.may_be_taken_by(owner),
            Step::Drop { .. } => entry.may_be_taken_by(owner) || entry.is_sole_of(owner),
            Step::Give { to, .. } => {
                (entry.may_be_taken_by(owner) || entry.is_sole_of(owner))
                    && self.is_another(owner, to)
            }
            Step::Lend { to, .. } => {
                entry.is_held_by(owner)
                    && entry.is_shared()
                    && !entry.is_lent_to(to)
                    && self.is_another(owner, to)
            }
            Step::Return { .. } => entry.is_live() && entry.is_lent_to(owner),
            Step::Write { .. } => entry.is_written_by(owner) || entry.is_sole_of(owner),
            Step::EndWrite { .. } => entry.is_written_by(owner),
            Step::Share { .. } => entry.is_sole_of(owner),
        }
    }
}
