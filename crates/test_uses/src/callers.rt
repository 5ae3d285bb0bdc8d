//! Tests of the callers in `uses`, and of a document that is edited by them.

mod agenda;
mod calling;
mod documents;
mod editions;
mod recursive;
mod shared_json;
