//! The protocol of a counted block as an abstract machine, the core: any number of owners, one step at a time.
//!
//! A clone and a drop are two steps each: a read of the count, and then an increment (`Raise`) or a decrement
//! (`Lower`). The steps of other owners may come between the two in any order. So a list of steps is one interleaving
//! of the calls of as many threads as there are owners. For each of them it is proved what [`Core::step`] answers:
//! what a reference model answers, which has a list of live handles and no count.
#![tactic(auto)]

mod acting;
mod activity;
mod handle_entry;
pub mod laws;
mod permission;
mod protocol;
mod step;

pub use protocol::Core;
pub use step::{Answer, Step};
