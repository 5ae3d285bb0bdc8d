//! Lemmas about legal histories. The functions do nothing: a call gives its lemma to a proof.
ghost use Rattle.shared_count.specs.HistoryLaws.{BeginningsAreLegal, HandlesAreOwned, CallsAreOfPasses};
ghost use Rattle.shared_count.specs.HistoryLaws.{MarkedExactlyIfCalled, LastIsToldOnce, OneEndIsLast};

/// Proves that each beginning of a legal history is legal.
#[tactic(auto, using(crate::proofs::LegalHistories::legal_front))]
pub fn beginnings_are_legal()
    ensures { BeginningsAreLegal }
{}

/// Proves that each handle is owned by one of the passes that the count was opened with.
#[tactic(auto, using(crate::proofs::LegalHistories::handles_are_owned))]
pub fn handles_are_owned()
    ensures { HandlesAreOwned }
{}

/// Proves that each call is one of those passes'.
#[tactic(auto, using(crate::proofs::LegalHistories::calls_are_of_passes))]
pub fn calls_are_of_passes()
    ensures { CallsAreOfPasses }
{}

/// Proves that a count is static exactly if one of its passes called `mark`.
#[tactic(auto, using(crate::proofs::LegalHistories::marked_if_called))]
pub fn marked_exactly_if_called()
    ensures { MarkedExactlyIfCalled }
{}

/// Proves that `Last` was replied once if the history leaves a count without a handle that is not static, and else
/// never.
#[tactic(auto, using(crate::proofs::LegalHistories::last_is_told_once))]
pub fn last_is_told_once()
    ensures { LastIsToldOnce }
{}

/// Proves that exactly one `end` was the last, if no pass owns a handle any more and none called `mark`.
#[tactic(auto, using(crate::proofs::LegalHistories::one_end_is_last))]
pub fn one_end_is_last()
    ensures { OneEndIsLast }
{}
