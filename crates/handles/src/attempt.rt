//! Attempts to clone a handle.
ghost use Rattle.std.specs.Prelude.{◌≡◌, ◌⊎◌, IfOk, IfErr, false};
ghost use Rattle.std.specs.Iterator.{IsFinite};
ghost use Rattle.handles.specs.Founds.{LostRaise};
ghost use Rattle.handles.specs.Attempts.{IsSeen, IsMadeOf, IsAttempt, IsPlanned, Stops};
ghost use Rattle.handles.specs.Attempts.{IsFullOf, IsLostOf, IsRefusedOf};

use crate::arc::Full;
use crate::block::{Handle, Held, Logged, Permit};
use counting_word::{is_marked, raised};
use std::hint;
use std::sync::Wait;

// How often a clone spins after it got its handle, if a compare-exchange of it failed before.
const PAUSES: u16 = 256;

pub(crate) enum Attempt<T> {
    Made(Handle<T>),
    // The word that was read is at the limit, and the log says so.
    Full(Logged),
    // The compare-exchange failed: it found this word, and not the word that it started from.
    Lost(u64, Permit<T>),
}

impl<T> Handle<T> {
    // Clones by one load, and one compare-exchange if the word that was read allows it.
    #[inline]
    pub(crate) fn first_attempt(&self) -> Attempt<T>
        requires { self.now.sole ≡ false }
        ensures { IsAttempt self.now result }
    {
        // Borrowed before the word is read: after that load the compiler would read the pointer again.
        let held = self.held();
        let (word, permit) = self.read();
        self.next_attempt(held, word, permit)
    }

    // Clones by one compare-exchange, if the word that was seen last allows it.
    #[inline]
    #[tactic(auto, using(crate::proofs::Logs::Founds::found_full))]
    pub(crate) fn next_attempt(&self, held: &Held<T>, word: u64, permit: Permit<T>) -> Attempt<T>
        requires shared { self.now.sole ≡ false }
        requires held { held.now ≡ self.now.held }
        requires seen { IsSeen self.now word permit }
        ensures shows { IsAttempt self.now result }
        ensures plan { IsPlanned word self.now.held.limit.count result }
    {
        if is_marked(word) {
            return Attempt::Made(permit.into_handle());
        }
        let Some(next) = raised(word, held.limit.count) else {
            return Attempt::Full(permit.into_logged());
        };
        let (found, permit) = self.raise(word, next, permit);
        if found == word {
            Attempt::Made(permit.into_handle())
        } else {
            Attempt::Lost(found, permit)
        }
    }
}

// The first attempt is outside the loop: most clones need no more, and a loop would carry its state through the first
// attempt.
impl<T: Drop> Handle<T> {
    // Clones by one load and at most `raises` compare-exchanges, but at least one.
    #[inline]
    pub(crate) fn try_clone(&self, raises: u8) -> Result<Handle<T>, Logged>
        requires { self.now.sole ≡ false }
        ensures made { IfOk result (IsMadeOf self.now) }
        ensures refused { IfErr result (IsRefusedOf self.now) }
    {
        match self.first_attempt() {
            Attempt::Made(handle) => Ok(handle),
            Attempt::Full(logged) => Err(logged),
            // The range begins at 1, since the first attempt made one compare-exchange.
            Attempt::Lost(word, permit) => self.raise_again(word, permit, &mut (1..raises)),
        }
    }

    // Clones until there is a handle or the block is full. The `Full` is the evidence that the block is.
    #[inline]
    pub(crate) fn clone_or_full(&self, rt: &impl Wait) -> Result<Handle<T>, Full>
        requires { self.now.sole ≡ false }
        ensures made { IfOk result (IsMadeOf self.now) }
        ensures full { IfErr result (λ full. (full.id ≡ self.now.id) × (full.limit ≡ self.now.held.limit.count)) }
    {
        match self.first_attempt() {
            Attempt::Made(handle) => Ok(handle),
            Attempt::Full(logged) => Err(self.full_by(logged)),
            // Only a clone whose compare-exchange failed makes the call that may wait.
            Attempt::Lost(word, permit) => match self.raise_unless_full(word, permit, rt) {
                Ok(handle) => Ok(handle),
                Err(logged) => Err(self.full_by(logged)),
            },
        }
    }

    // Repeats a failed compare-exchange until there is a handle or the block is full. Kept out of line, since only
    // this path may wait.
    #[cold]
    #[inline(never)]
    pub(crate) fn raise_unless_full(
        &self,
        word: u64,
        permit: Permit<T>,
        rt: &impl Wait,
    ) -> Result<Handle<T>, Logged>
        requires shared { self.now.sole ≡ false }
        requires seen { IsSeen self.now word permit }
        requires lost { LostRaise self.now.held.limit.count self.now.number permit.log }
        ensures made { IfOk result (IsMadeOf self.now) }
        ensures full { IfErr result (IsFullOf self.now) }
    {
        self.raise_again(word, permit, &mut rt.forever())
    }

    // Repeats a failed compare-exchange once for each turn.
    fn raise_again<I: Iterator>(
        &self,
        mut word: u64,
        mut permit: Permit<T>,
        turns: &mut I,
    ) -> Result<Handle<T>, Logged>
    where
        I::Item: Drop,
        requires shared { self.now.sole ≡ false }
        requires seen { IsSeen self.now word permit }
        requires lost { LostRaise self.now.held.limit.count self.now.number permit.log }
        requires turns { I.can_next turns.old × IsFinite (I.remaining turns.old) }
        ensures made { IfOk result (IsMadeOf self.now) }
        ensures refused { IfErr result (λ logged.
            IsFullOf self.now logged ⊎ (IsLostOf self.now logged × Stops I.next_gives)) }
    {
        let held = self.held();
        while turns.next().is_some() {
            match self.next_attempt(held, word, permit) {
                Attempt::Made(handle) => {
                    let_others_raise();
                    return Ok(handle);
                }
                Attempt::Full(logged) => return Err(logged),
                Attempt::Lost(found, again) => {
                    word = found;
                    permit = again;
                }
            }
        }
        // A compare-exchange that failed because the block became static leaves a handle too.
        if is_marked(word) {
            Ok(permit.into_handle())
        } else {
            Err(permit.into_logged())
        }
    }
}

// Threads that clone at once make each other's compare-exchange fail. So a clone that failed backs off, once it has
// its handle. A pause before the next compare-exchange would start that one from an old word, and it would fail
// again.
fn let_others_raise() {
    for _ in 0..PAUSES {
        hint::spin_loop();
    }
}
