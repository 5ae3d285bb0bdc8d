//! A list with access by index. A clone is an O(1) version (snapshot), and a change of one version is seen in no other.
#![tactic(auto)]

mod compare;
mod cut;
mod iter;
mod label;
mod labelled;
mod put;
mod sequence;
mod tree;

pub use cut::{Cut, Seek};
pub use handles::place::PlaceError;
pub use iter::Iter;
pub use label::{Label, NewLabel, Unlabelled};
pub use labelled::LabelledSequence;
pub use put::Put;
pub use sequence::Sequence;
pub use tree::Tree;
