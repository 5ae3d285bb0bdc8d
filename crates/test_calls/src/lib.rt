//! Tests of handles, tables and counts, on one thread and on several: of all that no contract says.
#![tactic(auto)]

#[cfg(test)]
mod calls;
#[cfg(test)]
mod ending;
#[cfg(test)]
mod made;
#[cfg(test)]
mod threads;
