//! Interning: an `Interner` keeps equal values in one block, and gives each a number, its `Symbol`.
#![tactic(auto)]

mod asked;
mod compare;
mod error;
mod iter;
mod map;
mod parts;
mod query;
mod symbol;
mod table;

pub use error::InternError;
pub use iter::Iter;
pub use map::InternMap;
pub use query::{Make, Query};
pub use symbol::Symbol;
pub use table::Interner;
