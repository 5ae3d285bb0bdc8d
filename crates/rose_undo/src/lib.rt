//! Rose trees whose versions (snapshots) share the branches that a change left alone, and undo and redo of any value.
#![tactic(auto)]

mod rose;
mod undo;

pub use handles::place::PlaceError;
pub use rose::Rose;
pub use undo::Undo;
