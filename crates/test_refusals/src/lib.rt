//! Tests of what remains after an allocation has failed, which no contract says. `gate/refused_memory.sh` runs each
//! test once for each allocation, which then fails.
#![tactic(auto)]

#[cfg(test)]
mod ending;
#[cfg(test)]
mod refusals;
