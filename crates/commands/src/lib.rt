//! The commands of tables and the replies to them, by what they mean on plain values. No handle is needed here.
#![tactic(auto)]

pub mod laws;
mod number_table;

pub use number_table::NumberTable;

/// A command on the slots of a table, which are numbered from 0: `Command::New(0, 5)`.
#[derive(Debug, PartialEq, Drop)]
pub enum Command<T> {
    /// Puts a new handle of the value into the slot; the handle that was there ends.
    New(usize, T),
    /// Puts a clone of the first slot's handle into the second slot.
    Clone(usize, usize),
    /// Ends the slot's handle.
    Drop(usize),
    /// Writes the value in place, if the slot's handle is the only one and its block is not static.
    GetMut(usize, T),
    /// Writes the value as `GetMut` does, through the slot's handle as a `UniqueArc`.
    IntoUnique(usize, T),
    /// Writes the value, in a block of the slot's own.
    MakeMut(usize, T),
    /// Moves the slot's handle to a block of its own, with a clone of the value if the block has other handles or is
    /// static. Only for types whose clones equal the value, and so not for `String` or `Vec`, whose clone has another
    /// buffer.
    Own(usize),
    /// Makes the slot's block static, which is never freed from then on.
    Mark(usize),
    /// Turns the slot's handle into a token (`RawArc`) and back.
    Raw(usize),
    /// Asks whether two slots have handles of one block.
    PtrEq(usize, usize),
    /// Asks whether the values of two slots are equal.
    Same(usize, usize),
}

/// The commands that clone no value, each as in [`Command`]: `PlainCommand::New(0, 5)`.
#[derive(Debug, PartialEq, Drop)]
pub enum PlainCommand<T> {
    New(usize, T),
    Clone(usize, usize),
    Drop(usize),
    GetMut(usize, T),
    IntoUnique(usize, T),
    Mark(usize),
    Raw(usize),
    PtrEq(usize, usize),
    Same(usize, usize),
}

/// The reply to a command: `Reply::Done`. Only a command with the reply `Done` may change the table. The value of a
/// command with another reply is dropped.
#[derive(Clone, Copy, Debug, PartialEq, Eq)]
pub enum Reply {
    /// The command was carried out.
    Done,
    /// The answer to `PtrEq` or `Same`.
    Is(bool),
    /// The block has other handles, or is static.
    Shared,
    /// A slot that the command reads has no handle.
    Empty,
    /// The table has no slot at that index.
    NoSlot,
    /// An allocation failed, or the handle could not be cloned.
    Refused,
}
