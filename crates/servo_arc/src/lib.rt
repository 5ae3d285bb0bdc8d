//! Atomically reference-counted pointers without weak references. This crate has no code: it names the crates below
//! it.
//!
//! `Arc` shares a value, `UniqueArc` fills one in before it is shared, `StaticArc` has one that is never freed,
//! `ThinArc` has a header and a slice, `ThinStr` a header and a text, and `ArcUnion` is a handle of one of two types:
//!
//! ```
//! let first = Arc::try_new(alloc, 5)?;
//! let mut second = first.clone()?;
//! *Arc::make_mut(&mut second, alloc)? = 9;
//! ```
//!
//! `table` runs commands on handles and on unions; `union_table` is another name for the latter. `word` and
//! `counting_core` are the protocol of the count. `shared_count` is a count without a value, whose replies form one
//! legal history over threads.
#![tactic(auto)]

pub use counting_core;
pub use counting_word as word;
pub use handles::arc::{Arc, Full, RawArc};
pub use handles::borrow::ArcBorrow;
pub use handles::header_slice::{BuildError, HeaderSlice, ThinArc, ThinStr};
pub use handles::static_arc::StaticArc;
pub use handles::unique::{UninitArc, UniqueArc};
pub use handles::{arc, borrow, header_slice, unique};
pub use shared_count;
pub use unions::arc_union::{ArcUnion, ArcUnionBorrow, ThinArcUnion};
pub use unions::{arc_union, union_table};

/// Tables of handles, and of unions of them: `Table::new(alloc, 2)?`.
pub mod table {
    pub use tables::table::{Command, PlainCommand, Reply, Table, laws};
    pub use unions::union_table::{UnionCommand, UnionTable};
}
