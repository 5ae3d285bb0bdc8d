//! A count of handles that threads share, and whose replies form one legal history.
//!
//! The count is one word, without a lock. A `CountPass` is a thread's right to use the count, and owns some of its
//! handles. In a contract a pass is a name and the history that the pass has seen: the calls of all passes with their
//! replies, in one order. Each call continues the history of its own pass, and `SharedCount::meet` lets two passes
//! see one history.
#![tactic(auto)]

mod count;
mod ghost_types;
pub mod laws;
mod pass;
mod replies;

pub use count::SharedCount;
pub use ghost_types::{Call, Event};
pub use pass::CountPass;
pub use replies::{EndReply, TryClone};
