//! Tests of the callers in `uses`: of all that no contract says.
#![tactic(auto)]

#[cfg(test)]
mod callers;
#[cfg(test)]
mod ending;
#[cfg(test)]
mod made;
#[cfg(test)]
mod refusals;
