//! Tests in which threads clone, drop, write or make static one block or one count, and of what capabilities of a count
//! know.

mod alone_again;
mod count_rows;
mod count_threads;
mod many_threads;
mod two_threads;
mod waiting;
mod wrong_answers;
