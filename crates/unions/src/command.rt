//! The commands of tables of unions.

/// A command on the slots of a table of unions, which are numbered from 0: `UnionCommand::First(0, 5)`.
#[derive(Debug, PartialEq, Drop)]
pub enum UnionCommand<A, B> {
    /// Puts a new handle of the first type into the slot; the handle that was there ends.
    First(usize, A),
    /// Puts a new handle of the second type into the slot; the handle that was there ends.
    Second(usize, B),
    /// Puts a clone of the first slot's handle into the second slot.
    Clone(usize, usize),
    /// Ends the slot's handle.
    Drop(usize),
    /// Asks whether the slot's union is the first variant.
    IsFirst(usize),
    /// Asks whether the slot's union is the second variant.
    IsSecond(usize),
    /// Asks whether the slot's union is the first variant, with a value equal to this one.
    ReadFirst(usize, A),
    /// Asks whether the slot's union is the second variant, with a value equal to this one.
    ReadSecond(usize, B),
    /// Asks whether two slots have handles of one block.
    PtrEq(usize, usize),
    /// Asks whether two slots have the same variant with equal values.
    Same(usize, usize),
}
