//! Tables of handles, on which commands run as on a table of plain values.
#![tactic(auto)]

mod arc_slots;
pub mod serve;
pub mod slots;
pub mod table;
