//! Slots, and the commands that are the same for every kind of handle.
ghost use Rattle.std.specs.Prelude.{◌≡◌, ◌<◌, ◌↔◌, IfErr, IfOk, IsOk, None, OnErr, OnOk, Some};
ghost use Rattle.std.specs.Prelude.{length, replicate, slice_get, slice_set};
ghost use Rattle.std.specs.Option.{option_flatten};
ghost use Rattle.handles.specs.Copies.{CopiesAreEqual};
ghost use Rattle.commands.specs.TableModel.{IsMissing, AreMissing, clones, compares, ends};
ghost use Rattle.commands.specs.Runs.{IsAmong};

use commands::Reply;
use std::alloc::{AllocError, Global};
use std::marker::Model;

/// Slots, each empty or with a handle: `Slots::new(alloc, 2)?`. Handles may share a block, which the values that the
/// slots read never show.
#[derive(Drop)]
pub struct Slots<H> {
    pub(crate) handles: Vec<Option<H>>,
}

impl<H> Model for Slots<H> {
    ghost use Rattle.std.specs.Prelude.{List, Option};

    ghost Value = { List (Option H) };

    ghost view = { λ slots. slots.handles.items };
}

impl<H> Slots<H> {
    /// Returns the number of slots, empty ones too: `table.slots()`.
    #[inline]
    pub fn slots(&self) -> usize
        ensures { result ≡ length self.now }
    {
        self.handles.len()
    }

    /// Returns the handle in a slot: `table.handle(0)`.
    ///
    /// # Errors
    ///
    /// Returns the reply of each command that reads the slot: `Empty`, or `NoSlot` if the index is out of range.
    #[inline]
    pub fn handle(&self, i: usize) -> Result<&H, Reply>
        ensures found { IfOk result (λ handle. slice_get self.now i ≡ Some (Some handle.now)) }
        ensures nothing { OnErr result (option_flatten (slice_get self.now i) ≡ None) }
        ensures missing { IfErr result (IsMissing self.now i) }
    {
        match self.handles.get(i) {
            None => Err(Reply::NoSlot),
            Some(None) => Err(Reply::Empty),
            Some(Some(handle)) => Ok(handle),
        }
    }

    /// Returns the handles in two slots: `table.two_handles(0, 1)`.
    ///
    /// # Errors
    ///
    /// Returns the reply of each command that reads both: `NoSlot` if an index is out of range, and else `Empty`.
    #[inline]
    pub fn two_handles(&self, i: usize, j: usize) -> Result<(&H, &H), Reply>
        ensures first { IfOk result (λ found. slice_get self.now i ≡ Some (Some found.0.now)) }
        ensures second { IfOk result (λ found. slice_get self.now j ≡ Some (Some found.1.now)) }
        ensures missing { IfErr result (AreMissing self.now i j) }
    {
        if j >= self.slots() {
            return Err(Reply::NoSlot);
        }
        match (self.handle(i), self.handle(j)) {
            (Ok(first), Ok(second)) => Ok((first, second)),
            (Err(missing), _) | (_, Err(missing)) => Err(missing),
        }
    }
}

impl<H: Drop> Slots<H> {
    /// Creates a table with that many slots, all of them empty: `Table::new(alloc, 2)?`.
    ///
    /// # Errors
    ///
    /// Returns `AllocError` if the slots cannot be allocated.
    pub fn new(alloc: Global, slots: usize) -> Result<Slots<H>, AllocError>
        ensures { IfOk result (λ table. table ≡ replicate slots None) }
    {
        let mut handles = Vec::with_capacity(alloc, slots)?;
        for _ in 0..slots {
            handles.push_reserved(None);
        }
        Ok(Slots { handles })
    }

    /// Puts the handle into a slot that exists: `table.fill(0, handle)`. The slot's old handle ends.
    #[inline]
    pub fn fill(&mut self, i: usize, handle: H)
        requires { i < length self.old }
        ensures { self.new ≡ slice_set self.old i (Some handle) }
    {
        self.handles[i] = Some(handle);
    }

    /// Puts the handle into a slot, whose old handle ends: `table.put(0, handle)`.
    ///
    /// # Errors
    ///
    /// Returns the handle if the index is out of range.
    #[inline]
    pub fn put(&mut self, i: usize, handle: H) -> Result<(), H>
        ensures there { IsOk result ↔ (i < length self.old) }
        ensures set { OnOk result (self.new ≡ slice_set self.old i (Some handle)) }
        ensures back { IfErr result (λ back. back ≡ handle) }
        ensures kept { OnErr result (self.new ≡ self.old) }
    {
        if i >= self.slots() {
            return Err(handle);
        }
        self.fill(i, handle);
        Ok(())
    }

    /// Drops the slot's handle, if there is one, and leaves the slot empty: `table.end(0)`.
    #[inline]
    #[tactic(auto, using(crate::proofs::SlotLemmas::slots))]
    pub fn end(&mut self, i: usize) -> Reply
        ensures { IsAmong (ends i self.old) result self.new }
    {
        let Some(slot) = self.handles.get_mut(i) else {
            return Reply::NoSlot;
        };
        match slot.take() {
            None => Reply::Empty,
            Some(_) => Reply::Done,
        }
    }
}

impl<H: Clone> Slots<H> {
    /// Puts a clone of the first slot's handle into the second slot: `table.clone_handle(0, 1)`. A clone that fails
    /// changes nothing.
    #[inline]
    pub fn clone_handle(&mut self, i: usize, j: usize) -> Reply
        requires { CopiesAreEqual H.is_clone }
        ensures { IsAmong (clones i j self.old) result self.new }
    {
        if j >= self.slots() {
            return Reply::NoSlot;
        }
        match self.handle(i) {
            Ok(handle) => match handle.clone() {
                Ok(handle) => {
                    self.fill(j, handle);
                    Reply::Done
                }
                Err(_) => Reply::Refused,
            },
            Err(missing) => missing,
        }
    }
}

impl<H: PartialEq> Slots<H> {
    /// Replies whether two slots have handles of equal values: `table.same(0, 1)`.
    #[inline]
    pub fn same(&self, i: usize, j: usize) -> Reply
        ensures { IsAmong (compares H.eq i j self.now) result self.now }
    {
        match self.two_handles(i, j) {
            Ok((a, b)) => Reply::Is(*a == *b),
            Err(missing) => missing,
        }
    }
}
