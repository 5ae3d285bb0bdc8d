//! A list of a fixed length with O(1) clones: a `CowTable` keeps its items in pages, which its clones share until one
//! of them is written (copy on write).
#![tactic(auto)]

mod compare;
mod page_length;
mod paging;
mod table;

pub use handles::place::PlaceError;
pub use table::CowTable;

/// The error of `CowTable::set`.
pub type SetError = PlaceError;
