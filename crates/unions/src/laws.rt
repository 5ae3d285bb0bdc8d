//! Lemmas about every command and every run, by what commands mean. The functions do nothing: a call gives its lemma
//! to a proof.
ghost use Rattle.commands.specs.TableLaws.{NumberOfSlotsStays, OnlyDoneChanges, OtherSlotsStay};
ghost use Rattle.unions.specs.UnionTableModel.{union_outcomes_of, union_written};

/// Proves that no run changes the number of slots.
pub fn number_of_slots_stays<A: PartialEq, B: PartialEq>()
    ensures { NumberOfSlotsStays (union_outcomes_of A.eq B.eq) }
{}

/// Proves that no command changes a slot but the one that it writes, if it writes one.
#[tactic(auto, using(crate::proofs::UnionChanges::others_stay_union))]
pub fn other_slots_stay<A: PartialEq, B: PartialEq>()
    ensures { OtherSlotsStay (union_outcomes_of A.eq B.eq) union_written }
{}

/// Proves that a command with another reply than `Done` changes nothing.
#[tactic(auto, using(crate::proofs::UnionChanges::only_done_union))]
pub fn only_done_changes<A: PartialEq, B: PartialEq>()
    ensures { OnlyDoneChanges (union_outcomes_of A.eq B.eq) }
{}
