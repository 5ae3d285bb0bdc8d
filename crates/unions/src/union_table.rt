//! A table of `ArcUnion`s.
ghost use Rattle.std.specs.Prelude.{◌≡◌, ◌<◌, ◌↔◌, [], IfErr, IfOk, IsOk, None, OnErr, OnOk, Some};
ghost use Rattle.std.specs.Prelude.{length, option_map, replicate, slice_get, slice_set};
ghost use Rattle.std.specs.Option.{option_flatten};
ghost use Rattle.commands.specs.Runs.{IsAmong, Run};
ghost use Rattle.commands.specs.TableModel.{clones, compares, ends};
ghost use Rattle.unions.specs.UnionHandles.{borrowed_union};
ghost use Rattle.unions.specs.Unions.{union_eq};
ghost use Rattle.unions.specs.UnionTableModel.{union_outcomes_of};
ghost use Rattle.unions.specs.declared.command.UnionCommand.TheVariants as Command;

use crate::arc_union::{ArcUnion, ArcUnionBorrow};
pub use crate::command::UnionCommand;
pub use crate::laws;
use handles::arc::Arc;
use std::alloc::{AllocError, Global};
use std::marker::Model;
use tables::serve::{Serve, serve_all};
use tables::slots::Slots;
use tables::table::Reply;

/// Slots of `ArcUnion`s, for lists of commands on handles of two types: `table.run(alloc, commands)?`.
#[derive(Drop)]
pub struct UnionTable<A, B> {
    handles: Slots<ArcUnion<A, B>>,
}

impl<A, B> Model for UnionTable<A, B> {
    ghost use Rattle.std.specs.Prelude.{List, Option};
    ghost use Rattle.unions.specs.Unions.{Union};

    ghost Value = { List (Option (Union A B)) };

    ghost view = { λ table. table.handles };
}

impl<A: Drop, B: Drop> UnionTable<A, B> {
    /// Creates a table with that many slots, all of them empty: `UnionTable::new(alloc, 2)?`.
    ///
    /// # Errors
    ///
    /// Returns `AllocError` if the slots cannot be allocated.
    pub fn new(alloc: Global, slots: usize) -> Result<UnionTable<A, B>, AllocError>
        ensures { IfOk result (λ table. table ≡ replicate slots None) }
    {
        let handles = Slots::new(alloc, slots)?;
        Ok(UnionTable { handles })
    }

    /// Returns the number of slots, empty ones too: `table.slots()`.
    #[inline]
    pub fn slots(&self) -> usize
        ensures { result ≡ length self.now }
    {
        self.handles.slots()
    }

    /// Returns the handle of a slot, or `None` if the slot is empty or the index is out of range: `table.get(0)`.
    #[inline]
    pub fn get(&self, i: usize) -> Option<ArcUnionBorrow<'_, A, B>>
        ensures { option_map borrowed_union result ≡ option_flatten (slice_get self.now i) }
    {
        match self.handles.handle(i) {
            Ok(handle) => Some(handle.borrow()),
            Err(_) => None,
        }
    }

    /// Puts the handle into a slot, whose old handle ends: `table.put(0, union)`.
    ///
    /// # Errors
    ///
    /// Returns the handle if the index is out of range.
    #[inline]
    pub fn put(&mut self, i: usize, handle: ArcUnion<A, B>) -> Result<(), ArcUnion<A, B>>
        ensures there { IsOk result ↔ (i < length self.old) }
        ensures set { OnOk result (self.new ≡ slice_set self.old i (Some handle)) }
        ensures back { IfErr result (λ back. back ≡ handle) }
        ensures kept { OnErr result (self.new ≡ self.old) }
    {
        self.handles.put(i, handle)
    }

    /// Drops the slot's handle, if there is one, and leaves the slot empty: `table.end(0)`.
    #[inline]
    pub fn end(&mut self, i: usize) -> Reply
        ensures { IsAmong (ends i self.old) result self.new }
    {
        self.handles.end(i)
    }

    /// Puts a clone of the first slot's handle into the second slot: `table.clone_handle(0, 1)`. A clone that fails
    /// changes nothing.
    #[inline]
    pub fn clone_handle(&mut self, i: usize, j: usize) -> Reply
        ensures { IsAmong (clones i j self.old) result self.new }
    {
        self.handles.clone_handle(i, j)
    }
}

impl<A: PartialEq + Drop, B: PartialEq + Drop> Serve<UnionCommand<A, B>> for UnionTable<A, B> {
    ghost meaning = { union_outcomes_of A.eq B.eq };

    #[inline]
    fn serve_one(&mut self, alloc: Global, command: UnionCommand<A, B>) -> Reply {
        self.serve(alloc, command)
    }
}

impl<A: PartialEq + Drop, B: PartialEq + Drop> UnionTable<A, B> {
    /// Replies whether two slots have the same variant with equal values: `table.same(0, 1)`.
    #[inline]
    pub fn same(&self, i: usize, j: usize) -> Reply
        ensures { IsAmong (compares (union_eq A.eq B.eq) i j self.now) result self.now }
    {
        self.handles.same(i, j)
    }

    /// Serves one command and returns its reply, which takes no memory: `table.serve(alloc, command)`.
    #[inline]
    pub fn serve(&mut self, alloc: Global, command: UnionCommand<A, B>) -> Reply
        ensures { IsAmong (union_outcomes_of A.eq B.eq command self.old) result self.new }
    {
        match command {
            UnionCommand::First(i, a) => self.new_first(alloc, i, a),
            UnionCommand::Second(i, b) => self.new_second(alloc, i, b),
            UnionCommand::Clone(i, j) => self.clone_handle(i, j),
            UnionCommand::Drop(i) => self.end(i),
            UnionCommand::IsFirst(i) => self.is_first(i),
            UnionCommand::IsSecond(i) => self.is_second(i),
            UnionCommand::ReadFirst(i, a) => self.read_first(i, a),
            UnionCommand::ReadSecond(i, b) => self.read_second(i, b),
            UnionCommand::PtrEq(i, j) => self.ptr_eq(i, j),
            UnionCommand::Same(i, j) => self.same(i, j),
        }
    }

    /// Runs the commands in order and returns a reply to each: `table.run(alloc, commands)?`.
    ///
    /// # Errors
    ///
    /// Returns `AllocError` if the room for the replies cannot be allocated. No command was served then, and all are
    /// dropped.
    pub fn run(
        &mut self,
        alloc: Global,
        commands: Vec<UnionCommand<A, B>>,
    ) -> Result<Vec<Reply>, AllocError>
        ensures ok { IfOk result (λ replies.
            Run (union_outcomes_of A.eq B.eq) commands.items self.old replies.items self.new) }
        ensures err { OnErr result (self.new ≡ self.old) }
        ensures empty { commands.items ≡ [] → IsOk result }
    {
        serve_all(self, alloc, commands)
    }

    #[inline]
    fn new_first(&mut self, alloc: Global, i: usize, value: A) -> Reply
        ensures { IsAmong (union_outcomes_of A.eq B.eq (Command.First i value) self.old) result self.new }
    {
        if i >= self.slots() {
            return Reply::NoSlot;
        }
        match Arc::new(alloc, value) {
            Ok(handle) => {
                self.handles.fill(i, ArcUnion::from_first(handle));
                Reply::Done
            }
            Err(_) => Reply::Refused,
        }
    }

    #[inline]
    fn new_second(&mut self, alloc: Global, i: usize, value: B) -> Reply
        ensures { IsAmong (union_outcomes_of A.eq B.eq (Command.Second i value) self.old) result self.new }
    {
        if i >= self.slots() {
            return Reply::NoSlot;
        }
        match Arc::new(alloc, value) {
            Ok(handle) => {
                self.handles.fill(i, ArcUnion::from_second(handle));
                Reply::Done
            }
            Err(_) => Reply::Refused,
        }
    }

    #[inline]
    fn is_first(&self, i: usize) -> Reply
        ensures { IsAmong (union_outcomes_of A.eq B.eq (Command.IsFirst i) self.now) result self.now }
    {
        match self.handles.handle(i) {
            Ok(handle) => Reply::Is(handle.is_first()),
            Err(missing) => missing,
        }
    }

    #[inline]
    fn is_second(&self, i: usize) -> Reply
        ensures { IsAmong (union_outcomes_of A.eq B.eq (Command.IsSecond i) self.now) result self.now }
    {
        match self.handles.handle(i) {
            Ok(handle) => Reply::Is(handle.is_second()),
            Err(missing) => missing,
        }
    }

    #[inline]
    fn read_first(&self, i: usize, value: A) -> Reply
        ensures { IsAmong (union_outcomes_of A.eq B.eq (Command.ReadFirst i value) self.now) result self.now }
    {
        match self.handles.handle(i) {
            Ok(handle) => match handle.as_first() {
                Some(first) => Reply::Is(*first.get() == value),
                None => Reply::Is(false),
            },
            Err(missing) => missing,
        }
    }

    #[inline]
    fn read_second(&self, i: usize, value: B) -> Reply
        ensures { IsAmong (union_outcomes_of A.eq B.eq (Command.ReadSecond i value) self.now) result self.now }
    {
        match self.handles.handle(i) {
            Ok(handle) => match handle.as_second() {
                Some(second) => Reply::Is(*second.get() == value),
                None => Reply::Is(false),
            },
            Err(missing) => missing,
        }
    }

    #[inline]
    fn ptr_eq(&self, i: usize, j: usize) -> Reply
        ensures { IsAmong (union_outcomes_of A.eq B.eq (Command.PtrEq i j) self.now) result self.now }
    {
        match self.handles.two_handles(i, j) {
            Ok((a, b)) => Reply::Is(ArcUnion::ptr_eq(a, b)),
            Err(missing) => missing,
        }
    }
}
