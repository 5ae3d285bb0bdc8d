//! The machine in a core: its fields, and what each step makes of them.
ghost use Rattle.std.specs.Prelude.{◌≡◌, ◌<◌, length, true, false};
ghost use Rattle.counting_word.specs.CountingWord.{is_one_handle};
ghost use Rattle.counting_core.specs.Machines.{core_of, with_access};
ghost use Rattle.counting_core.specs.Represents.{IsReached};
ghost use Rattle.counting_core.specs.ByWord.{IsPermitted, FollowsWord};

use crate::activity::Activity;
use crate::handle_entry::{Access, HandleEntry, push_newborn};
use crate::step::{Answer, Step};
use counting_word::{
    ClonePlan, DropPlan, is_alone, is_last, is_marked, plan_clone, plan_drop, with_mark,
};
use std::alloc::Global;

#[derive(Drop)]
pub(crate) struct Machine<V> {
    pub(crate) alloc: Global,
    pub(crate) value: V,
    pub(crate) word: u64,
    pub(crate) limit: u64,
    pub(crate) handles: Vec<HandleEntry>,
    pub(crate) owners: Vec<Activity>,
}

impl<V: Copy> Machine<V> {
    // The first three steps continue what their owner has in flight. The other steps are on a handle.
    pub(crate) fn step(&mut self, step: Step<V>) -> Answer<V>
        requires { IsReached (core_of self.old) }
        ensures { FollowsWord (core_of self.old) step result (core_of self.new) }
    {
        match step {
            Step::Raise { owner } => self.raise(owner),
            Step::Quit { owner } => self.quit(owner),
            Step::Lower { owner } => self.lower(owner),
            _ if !self.permits(&step) => Answer::Barred,
            Step::Clone { owner, handle } => self.clone_handle(owner, handle),
            Step::Drop { owner, handle } => self.drop_handle(owner, handle),
            Step::Mark { .. } => {
                self.word = with_mark(self.word);
                Answer::Marked
            }
            Step::Unique { .. } => Answer::Is(is_alone(self.word)),
            Step::Static { .. } => Answer::Is(is_marked(self.word)),
            Step::GetMut { handle, .. } if self.take(handle, Access::Written) => Answer::Alone,
            Step::IntoUnique { handle, .. } if self.take(handle, Access::Sole) => Answer::Sole,
            Step::GetMut { .. } | Step::IntoUnique { .. } => Answer::Shared,
            Step::Load { .. } => Answer::Value(self.value),
            Step::Write { value, .. } => {
                self.value = value;
                Answer::Done
            }
            Step::EndWrite { handle, .. } | Step::Share { handle, .. } => {
                self.handles[handle].use_as(Access::Shared);
                Answer::Done
            }
            Step::Lend { owner, handle, to } => self.lend(owner, handle, to),
            Step::Return { owner, handle } => {
                self.handles[handle].take_back_from(owner);
                Answer::Done
            }
            Step::Give { handle, to, .. } => {
                self.handles[handle].give_to(to);
                Answer::Done
            }
        }
    }

    // Returns whether the handle is the only one. If so, its holder has the access from now on.
    fn take(&mut self, handle: usize, access: Access) -> bool
        requires { handle < length self.old.handles.items }
        ensures only { result ≡ is_one_handle self.old.word }
        ensures taken { result ≡ true → core_of self.new ≡ with_access (core_of self.old) handle access }
        ensures left { result ≡ false → self.new ≡ self.old }
    {
        let alone = is_alone(self.word);
        if alone {
            self.handles[handle].use_as(access);
        }
        alone
    }

    fn clone_handle(&mut self, owner: usize, handle: usize) -> Answer<V>
        requires reached { IsReached (core_of self.old) }
        requires allowed { IsPermitted (core_of self.old) (Step.Clone owner handle) }
        ensures { FollowsWord (core_of self.old) (Step.Clone owner handle) result (core_of self.new) }
    {
        match plan_clone(self.word, self.limit) {
            ClonePlan::Static => match push_newborn(&mut self.handles, self.alloc, owner) {
                Some(number) => Answer::Born(number),
                None => Answer::Memory,
            },
            ClonePlan::Full => Answer::Full,
            ClonePlan::Raise(_) => {
                let seen = self.word;
                self.owners[owner] = Activity::Cloning { handle, seen };
                Answer::Pending
            }
        }
    }

    // Makes a compare-exchange from the word that the owner saw last. If it fails, the owner has seen the word anew.
    fn raise(&mut self, owner: usize) -> Answer<V>
        requires { IsReached (core_of self.old) }
        ensures { FollowsWord (core_of self.old) (Step.Raise owner) result (core_of self.new) }
    {
        let Some(&Activity::Cloning { handle, seen }) = self.owners.get(owner) else {
            return Answer::Barred;
        };
        let found = self.word;
        let next = if found == seen {
            found + 1
        } else {
            match plan_clone(self.word, self.limit) {
                ClonePlan::Static => self.word,
                ClonePlan::Full => {
                    self.owners[owner] = Activity::Idle;
                    return Answer::Full;
                }
                ClonePlan::Raise(..) => {
                    let seen = self.word;
                    self.owners[owner] = Activity::Cloning { handle, seen };
                    return Answer::Pending;
                }
            }
        };
        let Some(number) = push_newborn(&mut self.handles, self.alloc, owner) else {
            return Answer::Memory;
        };
        self.word = next;
        self.owners[owner] = Activity::Idle;
        Answer::Born(number)
    }

    fn quit(&mut self, owner: usize) -> Answer<V>
        ensures { FollowsWord (core_of self.old) (Step.Quit owner) result (core_of self.new) }
    {
        let Some(Activity::Cloning { .. }) = self.owners.get(owner) else {
            return Answer::Barred;
        };
        self.owners[owner] = Activity::Idle;
        Answer::Quit
    }

    fn drop_handle(&mut self, owner: usize, handle: usize) -> Answer<V>
        requires allowed { IsPermitted (core_of self.old) (Step.Drop owner handle) }
        requires born { handle < length self.old.handles.items }
        ensures { FollowsWord (core_of self.old) (Step.Drop owner handle) result (core_of self.new) }
    {
        match plan_drop(self.word) {
            DropPlan::Static => {
                self.handles[handle].end();
                Answer::Ended
            }
            DropPlan::Lower => {
                self.owners[owner] = Activity::Dropping { handle };
                Answer::Pending
            }
        }
    }

    fn lower(&mut self, owner: usize) -> Answer<V>
        requires { IsReached (core_of self.old) }
        ensures { FollowsWord (core_of self.old) (Step.Lower owner) result (core_of self.new) }
    {
        let Some(&Activity::Dropping { handle }) = self.owners.get(owner) else {
            return Answer::Barred;
        };
        let old = self.word;
        self.word = old - 1;
        self.owners[owner] = Activity::Idle;
        self.handles[handle].end();
        if is_last(old) {
            Answer::GivenUp(self.value)
        } else {
            Answer::Ended
        }
    }

    fn lend(&mut self, owner: usize, handle: usize, to: usize) -> Answer<V>
        requires allowed { IsPermitted (core_of self.old) (Step.Lend owner handle to) }
        requires born { handle < length self.old.handles.items }
        ensures { FollowsWord (core_of self.old) (Step.Lend owner handle to) result (core_of self.new) }
    {
        match self.handles[handle].lend_to(to) {
            Ok(()) => Answer::Done,
            Err(_) => Answer::Memory,
        }
    }
}
