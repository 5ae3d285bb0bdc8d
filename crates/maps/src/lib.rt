//! Sorted maps and stacks. A clone is an O(1) version (snapshot), and versions share the nodes that did not change
//! (structural sharing).
#![tactic(auto)]

mod compare;
mod cut;
mod entries;
mod entry;
mod key;
mod links;
mod map;
mod query;
mod stack;
mod stack_iter;

pub use entries::diff::DiffItem;
pub use entries::fields::{Field, Fields, Keys, Values};
pub use entries::iter::Iter;
pub use entries::{Entries, Tree};
pub use key::Key;
pub use map::TreeMap;
pub use query::Query;
pub use stack::Stack;
pub use stack_iter::StackIter;
