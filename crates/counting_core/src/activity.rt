//! What an owner is in the middle of.

#[derive(Clone, Copy)]
pub(crate) enum Activity {
    Idle,
    /// A clone of the handle is in flight. It still has to increment the count from the word that it saw last.
    Cloning { handle: usize, seen: u64 },
    /// A drop of the handle is in flight. It still has to decrement the count.
    Dropping { handle: usize },
}
