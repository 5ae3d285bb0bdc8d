//! Undo and redo of any value, by keeping each version (snapshot).
ghost use Rattle.std.specs.Prelude.{◌≡◌, ◌↔◌, ◌<◌, ◌-◌, ◌∷◌, ◌++◌, ◌&&◌, [], IfOk, IsTrue, OnErr, OnOk, drop, length};
ghost use Rattle.std.specs.Cmp.{and_equiv, and_per, on_equiv, on_per};
ghost use Rattle.std.specs.Cmp.Lexicographic.{lists_equiv, lists_per, pointwise};
ghost use Rattle.std.specs.Bool.{OnFalse, OnTrue};
ghost use Rattle.rose_undo.specs.Versions.{IsUndone};

use std::alloc::{AllocError, Global};
use std::marker::Model;
use std::mem;

/// A value with the versions before it and the undone versions, for undo and redo.
///
/// ```
/// let mut next: Sequence<Arc<String>> = buffer.current().clone()?;
/// next.insert(alloc, number, line)?;
/// buffer.change(next)?;
/// ```
///
/// Here `buffer` is an `Undo<Sequence<Arc<String>>>`. A version costs little if `T` shares its parts, as a `Sequence`,
/// a `TreeMap` or a `Rose` does.
#[derive(Drop, Debug)]
pub struct Undo<T> {
    before: Vec<T>,
    current: T,
    undone: Vec<T>,
}

impl<T> Model for Undo<T> {
    ghost use Rattle.rose_undo.specs.Versions.{Versions};

    ghost Value = { Versions T };

    ghost view = { λ u. record { before = u.before.items; current = u.current; undone = u.undone.items } };
}

/// Compares the earlier and the undone versions too. O(versions).
impl<T: PartialEq> PartialEq for Undo<T> {
    ghost eq = { λ u v. pointwise T.eq u.before v.before && T.eq u.current v.current
        && pointwise T.eq u.undone v.undone };

    ghost laws = { and_per (and_per (on_per (λ u. u.before) (lists_per T.laws)) (on_per (λ u. u.current) T.laws))
        (on_per (λ u. u.undone) (lists_per T.laws)) };

    fn eq(&self, other: &Undo<T>) -> bool {
        self.before == other.before && self.current == other.current && self.undone == other.undone
    }
}

impl<T: Eq> Eq for Undo<T> {
    ghost laws = { and_equiv (and_equiv (on_equiv (λ u. u.before) (lists_equiv T.Eq.laws))
        (on_equiv (λ u. u.current) T.Eq.laws)) (on_equiv (λ u. u.undone) (lists_equiv T.Eq.laws)) };
}

impl<T> Undo<T> {
    /// Creates a value without earlier versions, with no allocation: `Undo::new(alloc, value)`.
    pub fn new(alloc: Global, current: T) -> Undo<T>
        ensures { result ≡ record { before = []; current = current; undone = [] } }
    {
        Undo {
            before: Vec::new(alloc),
            current,
            undone: Vec::new(alloc),
        }
    }

    /// Returns the current value: `undo.current()`.
    pub fn current(&self) -> &T
        ensures { result.now ≡ self.now.current }
    {
        &self.current
    }

    /// Returns the versions that `undo` can go back to, the oldest first: `undo.before().len()`.
    pub fn before(&self) -> &[T]
        ensures { result.now ≡ self.now.before }
    {
        &self.before
    }

    /// Returns the versions that `redo` can go forward to, the next one last.
    pub fn undone(&self) -> &[T]
        ensures { result.now ≡ self.now.undone }
    {
        &self.undone
    }

    /// Returns `true` if there is a version to go back to.
    pub fn can_undo(&self) -> bool
        ensures { IsTrue result ↔ (0 < length self.now.before) }
    {
        !self.before.is_empty()
    }

    /// Returns `true` if there is a version to go forward to.
    pub fn can_redo(&self) -> bool
        ensures { IsTrue result ↔ (0 < length self.now.undone) }
    {
        !self.undone.is_empty()
    }
}

impl<T: Drop> Undo<T> {
    /// Makes `next` the current value and keeps the old one: `buffer.change(next)?`. The undone versions are dropped.
    /// O(1) amortized, beside these drops.
    ///
    /// # Errors
    ///
    /// `AllocError` if there is no memory for one more version. Nothing changes; `next` is dropped.
    pub fn change(&mut self, next: T) -> Result<(), AllocError>
        ensures changed { OnOk result (self.new
            ≡ record { before = self.old.before ++ self.old.current ∷ []; current = next; undone = [] }) }
        ensures refused { OnErr result (self.new ≡ self.old) }
    {
        self.before.reserve(1)?;
        self.before
            .push_reserved(mem::replace(&mut self.current, next));
        self.undone.clear();
        Ok(())
    }

    /// Drops the oldest versions, so that `undo` can go back at most `kept` times: `undo.forget(100)`. O(versions),
    /// with no allocation.
    ///
    /// For a bounded history call `forget` after each `change`.
    #[tactic(auto, using(crate::proofs::Forgotten::forgetting))]
    pub fn forget(&mut self, kept: usize)
        ensures before { self.new.before ≡ drop (length self.old.before - kept) self.old.before }
        ensures others { self.new ≡ record self.old { before = self.new.before } }
    {
        let Some(gone) = self.before.len().checked_sub(kept) else {
            return;
        };
        self.before.rotate_left(gone);
        self.before.truncate(kept);
    }

    /// Goes back to the version before the last change: `undo.undo()?` returns `false` if there is none. O(1)
    /// amortized.
    ///
    /// # Errors
    ///
    /// `AllocError` if there is no memory. Nothing changes.
    pub fn undo(&mut self) -> Result<bool, AllocError>
        ensures there { IfOk result (λ moved. IsTrue moved ↔ (0 < length self.old.before)) }
        ensures back { IfOk result (λ moved. OnTrue moved (IsUndone self.old self.new)) }
        ensures first { IfOk result (λ moved. OnFalse moved (self.new ≡ self.old)) }
        ensures refused { OnErr result (self.new ≡ self.old) }
    {
        self.undone.reserve(1)?;
        let Some(version) = self.before.pop() else {
            return Ok(false);
        };
        self.undone
            .push_reserved(mem::replace(&mut self.current, version));
        Ok(true)
    }

    /// Reverts the last `undo`: `undo.redo()?` returns `false` if there was none since the last change. O(1) amortized.
    ///
    /// # Errors
    ///
    /// `AllocError` if there is no memory. Nothing changes.
    pub fn redo(&mut self) -> Result<bool, AllocError>
        ensures there { IfOk result (λ moved. IsTrue moved ↔ (0 < length self.old.undone)) }
        ensures back { IfOk result (λ moved. OnTrue moved (IsUndone self.new self.old)) }
        ensures last { IfOk result (λ moved. OnFalse moved (self.new ≡ self.old)) }
        ensures refused { OnErr result (self.new ≡ self.old) }
    {
        self.before.reserve(1)?;
        let Some(version) = self.undone.pop() else {
            return Ok(false);
        };
        self.before
            .push_reserved(mem::replace(&mut self.current, version));
        Ok(true)
    }
}
