//! The counting word of a block, a `u64`: bit 63 is the mark of a static block, bits 0 to 62 count the handles.
//!
//! Nothing here touches memory. Each function says what a word that was read or replaced means for the call that read
//! it, as `plan_clone(word, limit)`, so that all who share a word decide by the same rules.
#![tactic(auto)]

ghost use Rattle.std.specs.Prelude.{◌≡◌, ◌+◌, IfSome, IfNone, false};
ghost use Rattle.counting_word.specs.CountingWord.{is_marked_word, is_one_handle, marked_word, IsLimit, IsWithin};
ghost use Rattle.counting_word.specs.Plans.{clone_plan, drop_plan};

pub mod laws;

/// Bit 63, the mark. It is set in the word of a static block, which is never freed, and it is never cleared.
pub const MARK: u64 = 1 << 63;

/// The greatest count, 2^63 - 1: the most handles that a block can have before it is static. A block may have a lower
/// limit of its own, from 1 on.
pub const MAX_REFCOUNT: u64 = MARK - 1;

/// What a clone does after it has read the word: `plan_clone(1, MAX_REFCOUNT)` is `Raise(2)`.
#[derive(Clone, Copy, Debug, PartialEq, Eq)]
pub enum ClonePlan {
    /// The block is static: the new handle exists without another step.
    Static,
    /// The count is at its limit: the clone fails.
    Full,
    /// A compare-exchange from the word that was read to this word makes the handle.
    Raise(u64),
}

/// What a drop does after it has read the word: `plan_drop(1)` is `Lower`.
#[derive(Clone, Copy, Debug, PartialEq, Eq)]
pub enum DropPlan {
    /// The block is static: the handle ends without another step.
    Static,
    /// A subtraction of one from the word ends the handle.
    Lower,
}

/// Returns `true` if the word has the mark, so that the block is static: `is_marked(word)`.
#[inline]
pub fn is_marked(word: u64) -> bool
    ensures { result ≡ is_marked_word word }
{
    word >= MARK
}

/// Returns `true` if the word, read through a handle, shows that this is the only handle and the block is not static:
/// `is_alone(word)`.
#[inline]
pub fn is_alone(word: u64) -> bool
    ensures { result ≡ is_one_handle word }
{
    word == 1
}

/// Returns `true` if a subtraction that found this word ended the last handle, so that the value has to be dropped:
/// `is_last(old)`.
#[inline]
pub fn is_last(old: u64) -> bool
    ensures { result ≡ is_one_handle old }
{
    old == 1
}

/// Returns what a clone does next that read this word, of a block with this limit: `plan_clone(1, 2)`.
#[inline]
pub fn plan_clone(word: u64, limit: u64) -> ClonePlan
    requires limit { IsLimit limit }
    requires within { IsWithin word limit }
    ensures { result ≡ clone_plan word limit }
{
    if is_marked(word) {
        return ClonePlan::Static;
    }
    match raised(word, limit) {
        Some(next) => ClonePlan::Raise(next),
        None => ClonePlan::Full,
    }
}

/// Returns the word with one handle more, or `None` if the count is at its limit: `raised(word, limit)`. The word
/// must not have the mark.
#[inline]
pub fn raised(word: u64, limit: u64) -> Option<u64>
    requires limit { IsLimit limit }
    requires within { IsWithin word limit }
    requires unmarked { is_marked_word word ≡ false }
    ensures raise { IfSome result (λ next. (next ≡ word + 1) × (clone_plan word limit ≡ ClonePlan.Raise next)) }
    ensures full { IfNone result (clone_plan word limit ≡ ClonePlan.Full) }
{
    if word == limit { None } else { Some(word + 1) }
}

/// Returns what a drop does next that read this word: `plan_drop(word)`.
#[inline]
pub fn plan_drop(word: u64) -> DropPlan
    ensures { result ≡ drop_plan word }
{
    if is_marked(word) {
        DropPlan::Static
    } else {
        DropPlan::Lower
    }
}

/// Returns the word with the mark: `with_mark(word)`. A word that has the mark stays the same.
#[inline]
#[tactic(auto, using(crate::proofs::Words::marks))]
pub fn with_mark(word: u64) -> u64
    ensures { result ≡ marked_word word }
{
    word | MARK
}
