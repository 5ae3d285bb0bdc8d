//! Types that hold themselves through a handle. Only such types show that the files of `handles/specs/formers` fit.
//!
//! For each kind of handle one type has every derive that the toolchain offers there: `Node` for `Arc`, `Unique`,
//! `HeaderTree` for `ThinArc`, `FirstOfUnion`, `Borrowing`, `Linked` for `StaticArc`, and `Token` for `RawArc`, which
//! has none. Each other way back has one type with `Drop`, `Clone` and either `PartialEq` or `Debug`: through a `Vec`,
//! a map or an array, through an `Option` behind the handle, in a cycle of two types, in an enum, in a generic type and
//! in one with a lifetime. Types that mix these ways have `Drop` alone, since a derive proves the same at each. `walks`
//! has recursive functions over these types.

pub mod by_arc;
pub mod by_collections;
pub mod by_other_handles;
pub mod by_static;
pub mod by_versions;
pub mod walks;
