//! Examples: code as users of the crates write it, with contracts of its own, which show what callers can prove.
#![tactic(auto)]

pub mod accounts;
pub mod agenda;
pub mod along_a_path;
pub mod bank;
pub mod buffer;
pub mod copies;
pub mod crossing;
pub mod documents;
pub mod dynamic;
pub mod editions;
pub mod edits;
pub mod names;
pub mod nodes;
pub mod noted;
pub mod published;
pub mod read_back;
pub mod recursive;
pub mod shared_json;
pub mod symbols;
pub mod text_style;
pub mod tree_total;
pub mod two_threads;
pub mod two_versions;
