//! The replies to a clone and to an end.
ghost use Rattle.std.specs.Prelude.{◌≡◌};
ghost use Rattle.shared_count.specs.History.{end_reply};
ghost use Rattle.shared_count.specs.Passes.{born_count};
ghost use Rattle.counting_word.specs.CountingWord.{is_one_handle};

use counting_word::is_last;

/// The reply to `count.try_clone(&mut pass)`.
#[must_use]
#[derive(Clone, Copy, Debug, PartialEq, Eq)]
pub enum TryClone {
    /// The pass owns one more handle.
    Born,
    /// The count is not static and has `MAX_REFCOUNT` handles. Nothing changed.
    Full,
    /// Another pass changed the count between the load and the compare-exchange. Nothing changed; a caller may try
    /// again.
    Overtaken,
}

/// The reply to `count.end(&mut pass)`.
#[must_use]
#[derive(Clone, Copy, Debug, PartialEq, Eq)]
pub enum EndReply {
    /// Other handles are left, or the count is static.
    Ended,
    /// The handle was the last, and the count is not static.
    Last,
}

impl TryClone {
    /// Returns the number of handles that a clone with this reply adds.
    pub(crate) fn born(self) -> u64
        ensures { result ≡ born_count self }
    {
        match self {
            TryClone::Born => 1,
            TryClone::Full | TryClone::Overtaken => 0,
        }
    }
}

impl EndReply {
    /// Returns the reply to an end whose subtraction found this word.
    pub(crate) fn of_lower(found: u64) -> EndReply
        ensures { result ≡ end_reply (is_one_handle found) }
    {
        if is_last(found) {
            EndReply::Last
        } else {
            EndReply::Ended
        }
    }
}
