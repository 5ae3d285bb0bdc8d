//! Lemmas about every command and every run, by what commands mean. The functions do nothing: a call gives its lemma
//! to a proof.
ghost use Rattle.commands.specs.TableModel.{outcomes_of, plain_outcomes_of};
ghost use Rattle.commands.specs.TableLaws.{NumberOfSlotsStays, OnlyDoneChanges, OtherSlotsStay, plain_written, written};

/// Proves that no run changes the number of slots.
#[tactic(auto, using(crate::proofs::Changes::number_stays_plain))]
pub fn number_of_slots_stays<T: PartialEq>()
    ensures table { NumberOfSlotsStays (outcomes_of T.eq) }
    ensures plain { NumberOfSlotsStays (plain_outcomes_of T.eq) }
{}

/// Proves that no command changes a slot but the one that it writes, if it writes one.
#[tactic(auto, using(crate::proofs::Changes::others_stay_table, crate::proofs::Changes::others_stay_plain))]
pub fn other_slots_stay<T: PartialEq>()
    ensures table { OtherSlotsStay (outcomes_of T.eq) written }
    ensures plain { OtherSlotsStay (plain_outcomes_of T.eq) plain_written }
{}

/// Proves that a command with another reply than `Done` changes nothing.
#[tactic(auto, using(crate::proofs::Changes::only_done_table, crate::proofs::Changes::only_done_plain))]
pub fn only_done_changes<T: PartialEq>()
    ensures table { OnlyDoneChanges (outcomes_of T.eq) }
    ensures plain { OnlyDoneChanges (plain_outcomes_of T.eq) }
{}
