//! `ArcUnion`, a handle of one of two types, and tables of them.
#![tactic(auto)]

pub mod arc_union;
pub mod command;
pub mod laws;
pub mod union_table;
