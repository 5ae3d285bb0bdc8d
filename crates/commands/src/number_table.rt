//! The trait of the tables on which a script runs.
ghost use Rattle.std.specs.Prelude.{◌≡◌, ◌==◌, ℕ, IfErr, IfOk, None, Some, replicate, slice_get};
ghost use Rattle.commands.specs.TableModel.{IsMissing, Slots, outcomes_of};
ghost use Rattle.commands.specs.Runs.{IsAmong};

use crate::{Command, Reply};
use std::alloc::{AllocError, Global};

/// A table of numbers, whatever its handles are: `table.serve_command(alloc, command)`.
pub trait NumberTable: Drop {
    // What the slots read.
    ghost slots_of: { Self → Slots ℕ };

    /// Creates a table with that many slots, all of them empty: `T::empty(alloc, slots)?`.
    ///
    /// # Errors
    ///
    /// Returns `AllocError` if the slots cannot be allocated.
    fn empty(alloc: Global, slots: usize) -> Result<Self, AllocError>
        ensures { IfOk result (λ table. slots_of table ≡ replicate slots None) };

    /// Serves one command and returns its reply, which takes no memory: `table.serve_command(alloc, command)`.
    fn serve_command(&mut self, alloc: Global, command: Command<u32>) -> Reply
        ensures { IsAmong (outcomes_of (λ a b. a == b) command (slots_of self.old)) result (slots_of self.new) };

    /// Returns the number in a slot: `table.number(0)`.
    ///
    /// # Errors
    ///
    /// Returns the reply of each command that reads the slot: `Empty`, or `NoSlot` if the index is out of range.
    fn number(&self, slot: usize) -> Result<u32, Reply>
        ensures number { IfOk result (λ number. slice_get (slots_of self.now) slot ≡ Some (Some number)) }
        ensures missing { IfErr result (IsMissing (slots_of self.now) slot) };
}
