//! The types of which only contracts and proofs speak. No value of them is made.
use crate::replies::{EndReply, TryClone};
use atomic_table::{Join, Play, Split, TableRule};
use std::collections::LinkedList;

/// A call with its reply, as an entry of a history has it.
pub enum Call {
    Clone(TryClone),
    End(EndReply),
    Mark,
    Unique(bool),
    Static(bool),
}

/// An entry of a history: a call by the pass with the name `caller`.
pub struct Event {
    /// The name of the pass.
    pub caller: u64,
    pub call: Call,
}

/// What is known of a pass: the number of passes that its count was opened with, its name, and the history that it
/// has seen.
pub struct Known {
    /// The number of passes that the count was opened with.
    pub passes: u64,
    pub name: u64,
    /// The history that the pass has seen, the earliest call first.
    pub seen: LinkedList<Event>,
}

/// How much of a pass a seat has.
pub enum Part {
    /// One of two halves. The pass can make no call while the other half is elsewhere.
    Half,
    /// Both halves. The pass can make any call.
    Whole,
    /// Both halves, and the pass has begun an end but not yet decremented the count.
    InDrop,
}

/// A pass, or a part of one, in a seat. A seat is a participant of the table of the word (`atomic_table`).
pub struct Share {
    pub known: Known,
    pub part: Part,
}

/// What a seat knows. The seat of a pass has one share; the seat that `open` splits has one for each pass to come.
pub type View = LinkedList<Share>;

/// The rule of the table: the word stands for a legal history, and each seat knows a beginning of that history.
pub struct CountRule;

impl TableRule<(), View, usize> for CountRule {
    ghost use Rattle.shared_count.specs.Inside.Rule.{Keeps};
    ghost use Rattle.shared_count.specs.Inside.Shares.{newcomers};

    ghost holds = { Keeps };

    ghost first = { λ n. newcomers n 0 n };
}

/// The load of `is_unique`.
pub struct AskUnique;

impl Play<(), View> for AskUnique {
    ghost use Rattle.shared_count.specs.Inside.Steps.{TellsUnique};

    ghost then = { TellsUnique };
}

/// The load of `is_static`.
pub struct AskStatic;

impl Play<(), View> for AskStatic {
    ghost use Rattle.shared_count.specs.Inside.Steps.{TellsStatic};

    ghost then = { TellsStatic };
}

/// The load of a clone, which replies or leaves the clone in flight.
pub struct BeginClone;

impl Play<(), View> for BeginClone {
    ghost use Rattle.shared_count.specs.Inside.Steps.{TellsClone};

    ghost then = { TellsClone };
}

/// The compare-exchange of a clone, which succeeds or fails.
pub struct Raise;

impl Play<(), View> for Raise {
    ghost use Rattle.shared_count.specs.Inside.Steps.{TellsRaise};

    ghost then = { TellsRaise };
}

/// The load of an end, which replies or leaves the end in flight.
pub struct BeginEnd;

impl Play<(), View> for BeginEnd {
    ghost use Rattle.shared_count.specs.Inside.Steps.{TellsEnd};

    ghost then = { TellsEnd };
}

/// The subtraction of an end.
pub struct Lower;

impl Play<(), View> for Lower {
    ghost use Rattle.shared_count.specs.Inside.Steps.{TellsLower};

    ghost then = { TellsLower };
}

/// The bitwise or of `mark`.
pub struct SetMark;

impl Play<(), View> for SetMark {
    ghost use Rattle.shared_count.specs.Inside.Steps.{TellsMark};

    ghost then = { TellsMark };
}

/// The load of `meet`.
pub struct Meet;

impl Play<(), View> for Meet {
    ghost use Rattle.shared_count.specs.Inside.Steps.{TellsMeet};

    ghost then = { TellsMeet };
}

/// Moves the first share of a seat to a new seat.
pub struct Deal;

impl Split<View> for Deal {
    ghost use Rattle.shared_count.specs.Inside.Shares.{all_but_first, first_alone};

    ghost left = { all_but_first };

    ghost right = { first_alone };
}

/// Writes a note of a pass: a seat with one half of the pass, and a copy of the history that it has seen.
pub struct WriteNote;

impl Split<View> for WriteNote {
    ghost use Rattle.shared_count.specs.Inside.Shares.{as_halves};

    ghost left = { as_halves };

    ghost right = { as_halves };
}

/// Moves a note into the seat of another pass.
pub struct TakeNote;

impl Join<View> for TakeNote {
    ghost use Rattle.std.specs.Prelude.{[]};
    ghost use Rattle.shared_count.specs.Inside.Shares.{with_note};

    ghost both = { with_note };

    ghost spent = { [] };
}

/// Moves a pass's own note back into its seat. The pass is whole again, and has seen what the note has.
pub struct ReadNote;

impl Join<View> for ReadNote {
    ghost use Rattle.std.specs.Prelude.{[]};
    ghost use Rattle.shared_count.specs.Inside.Shares.{as_in_note};

    ghost both = { as_in_note };

    ghost spent = { [] };
}
