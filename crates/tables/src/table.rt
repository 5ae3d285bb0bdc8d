//! A table of `Arc`s.
ghost use Rattle.std.specs.Prelude.{◌≡◌, [], IfOk, IsOk, IsTrue, OnErr, slice_get};
ghost use Rattle.std.specs.List.{list_any};
ghost use Rattle.std.specs.Option.{option_copied, option_flatten};
ghost use Rattle.handles.specs.Copies.{CopiesAreEqual};
ghost use Rattle.commands.specs.TableModel.{is_own, outcomes_of, plain_outcomes_of};
ghost use Rattle.commands.specs.Runs.{IsAmong, Run};

use crate::serve::{Serve, serve_all};
use crate::slots::Slots;
use commands::NumberTable;
pub use commands::{Command, PlainCommand, Reply, laws};
use handles::arc::Arc;
use std::alloc::{AllocError, Global};

/// Slots of `Arc`s, for lists of commands on many handles: `table.run(alloc, commands)?`.
pub type Table<T> = Slots<Arc<T>>;

impl<T: Drop> Slots<Arc<T>> {
    /// Returns the value of a slot, or `None` if the slot is empty or the index is out of range: `table.get(0)`.
    #[inline]
    pub fn get(&self, i: usize) -> Option<&T>
        ensures { option_copied result ≡ option_flatten (slice_get self.now i) }
    {
        match self.handle(i) {
            Ok(handle) => Some(&**handle),
            Err(_) => None,
        }
    }
}

impl<T: PartialEq + Drop> Serve<PlainCommand<T>> for Slots<Arc<T>> {
    ghost meaning = { plain_outcomes_of T.eq };

    #[inline]
    fn serve_one(&mut self, alloc: Global, command: PlainCommand<T>) -> Reply {
        match command {
            PlainCommand::New(i, value) => self.new_handle(alloc, i, value),
            PlainCommand::Clone(i, j) => self.clone_handle(i, j),
            PlainCommand::Drop(i) => self.end(i),
            PlainCommand::GetMut(i, value) => self.get_mut(i, value),
            PlainCommand::IntoUnique(i, value) => self.into_unique(i, value),
            PlainCommand::Mark(i) => self.mark(i),
            PlainCommand::Raw(i) => self.raw(i),
            PlainCommand::PtrEq(i, j) => self.ptr_eq(i, j),
            PlainCommand::Same(i, j) => self.same(i, j),
        }
    }
}

impl<T: PartialEq + Drop> Slots<Arc<T>> {
    /// Runs commands that clone no value, as [`Table::run`] does: `table.run_plain(alloc, commands)?`.
    ///
    /// # Errors
    ///
    /// Returns `AllocError` as [`Table::run`] does.
    pub fn run_plain(
        &mut self,
        alloc: Global,
        commands: Vec<PlainCommand<T>>,
    ) -> Result<Vec<Reply>, AllocError>
        ensures ok { IfOk result (λ replies.
            Run (plain_outcomes_of T.eq) commands.items self.old replies.items self.new) }
        ensures err { OnErr result (self.new ≡ self.old) }
        ensures empty { commands.items ≡ [] → IsOk result }
    {
        serve_all(self, alloc, commands)
    }
}

impl<T: Clone + PartialEq> Serve<Command<T>> for Slots<Arc<T>> {
    ghost meaning = { outcomes_of T.eq };

    ghost can_serve = { λ command. IsTrue (is_own command) → CopiesAreEqual T.is_clone };

    #[inline]
    fn serve_one(&mut self, alloc: Global, command: Command<T>) -> Reply {
        self.serve(alloc, command)
    }
}

impl<T: Clone + PartialEq> Slots<Arc<T>> {
    /// Serves one command and returns its reply, which takes no memory: `table.serve(alloc, command)`.
    ///
    /// [`Command::Own`] is only for types whose clones equal the value.
    #[inline]
    pub fn serve(&mut self, alloc: Global, command: Command<T>) -> Reply
        requires copies { IsTrue (is_own command) → CopiesAreEqual T.is_clone }
        ensures { IsAmong (outcomes_of T.eq command self.old) result self.new }
    {
        match command {
            Command::New(i, value) => self.new_handle(alloc, i, value),
            Command::Clone(i, j) => self.clone_handle(i, j),
            Command::Drop(i) => self.end(i),
            Command::GetMut(i, value) => self.get_mut(i, value),
            Command::IntoUnique(i, value) => self.into_unique(i, value),
            Command::MakeMut(i, value) => self.make_mut(alloc, i, value),
            Command::Own(i) => self.own(alloc, i),
            Command::Mark(i) => self.mark(i),
            Command::Raw(i) => self.raw(i),
            Command::PtrEq(i, j) => self.ptr_eq(i, j),
            Command::Same(i, j) => self.same(i, j),
        }
    }

    /// Runs the commands in order and returns a reply to each: `table.run(alloc, commands)?`.
    ///
    /// [`Command::Own`] is only for types whose clones equal the value. The values of a table have no interior
    /// mutability: what a cell, a lock or an atomic holds is written through a shared handle, so that every slot of
    /// that block reads the change, and no clause speaks of it.
    ///
    /// # Errors
    ///
    /// Returns `AllocError` if the room for the replies cannot be allocated. No command was served then, and all are
    /// dropped.
    pub fn run(
        &mut self,
        alloc: Global,
        commands: Vec<Command<T>>,
    ) -> Result<Vec<Reply>, AllocError>
        requires copies { IsTrue (list_any is_own commands.items) → CopiesAreEqual T.is_clone }
        ensures ok { IfOk result (λ replies.
            Run (outcomes_of T.eq) commands.items self.old replies.items self.new) }
        ensures err { OnErr result (self.new ≡ self.old) }
        ensures empty { commands.items ≡ [] → IsOk result }
    {
        serve_all(self, alloc, commands)
    }
}

impl NumberTable for Slots<Arc<u32>> {
    ghost slots_of = { λ table. table };

    fn empty(alloc: Global, slots: usize) -> Result<Slots<Arc<u32>>, AllocError> {
        Slots::new(alloc, slots)
    }

    #[inline]
    fn serve_command(&mut self, alloc: Global, command: Command<u32>) -> Reply {
        self.serve(alloc, command)
    }

    #[inline]
    fn number(&self, slot: usize) -> Result<u32, Reply> {
        let handle = self.handle(slot)?;
        Ok(**handle)
    }
}
