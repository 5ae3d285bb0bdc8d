//! Reference-counted handles of a shared block: `Arc` shares a value, `UniqueArc` fills it in before it is shared,
//! `StaticArc` has one that is never freed, and `ThinArc` has a header and a slice.
#![tactic(auto)]

pub mod arc;
mod attempt;
mod block;
pub mod borrow;
pub mod header_slice;
mod limit;
pub mod place;
pub mod static_arc;
pub mod unique;
