//! Tests on one thread: of handles, of what is built on them, and of the scripts of `arcbench`.

mod borrows;
mod counted_tables;
mod drop_order;
mod header_slices;
mod iterators;
mod laws;
mod limits;
mod one_thread;
mod page_rows;
mod put;
mod same_blocks;
mod script_runs;
mod table_copies;
mod texts;
mod two_handles;
mod union_rows;
mod unmarked;
mod word;
