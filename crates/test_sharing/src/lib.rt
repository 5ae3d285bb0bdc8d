//! Tests of collections: of all that no contract says.
#![tactic(auto)]

#[cfg(test)]
mod ending;
#[cfg(test)]
mod made;
#[cfg(test)]
mod sharing;
