//! `SharedCount`, and the calls by which its passes use it.
ghost use Rattle.std.specs.Prelude.{◌≡◌, ◌≢◌, ◌+◌, ◌<◌, map, All, IfOk};
ghost use Rattle.std.specs.List.{range_with_len};
ghost use Rattle.shared_count.specs.Passes.{first_pass, handles, born_count};
ghost use Rattle.shared_count.specs.Passes.{Called, HasSeenMark, HasSeenMore, WasOvertaken};
ghost use Rattle.shared_count.specs.declared.ghost_types.Call.TheVariants.{Clone, End, Mark, Unique, Static};
ghost use Rattle.shared_count.specs.declared.replies.TryClone.TheVariants.{Born, Overtaken};

mod clone;
mod end;

use crate::ghost_types::{
    AskStatic, AskUnique, CountRule, Deal, Meet, ReadNote, SetMark, TakeNote, View, WriteNote,
};
use crate::pass::CountPass;
use crate::replies::{EndReply, TryClone};
use atomic_table::{Seat, Table};
use counting_word::{MARK, is_alone, is_marked};
use std::alloc::{AllocError, Global};
use std::marker::Model;

/// A count of handles without a value, for threads that must agree who was the last: `count.end(&mut pass)`.
///
/// The count is one word, changed by single atomic steps and without a lock. The replies to all calls form one legal
/// history. Each call requires a pass of this count, and all but `meet` require that the pass owns a handle:
///
/// ```
/// let (count, mut passes) = SharedCount::open(alloc, 2)?;
/// let mut pass = passes.pop().unwrap();
/// let reply = count.end(&mut pass);
/// ```
///
/// In a contract a count is its identity and the number of `passes` that it was opened with.
#[derive(Drop)]
pub struct SharedCount {
    table: Table<(), View, usize, CountRule, Global>,
}

impl Model for SharedCount {
    ghost use Rattle.std.specs.Prelude.{◌≡◌};
    ghost use Rattle.shared_count.specs.Passes.{CountId};

    ghost Value = { CountId };

    ghost view = { λ c. record { table = c.table.shared.table_id; passes = c.table.shared.key } };

    ghost invariant = { λ c. c.table.shared.table_id.words ≡ 1 };
}

impl SharedCount {
    /// Creates a count of `n` handles, one for each of its `n` passes: `SharedCount::open(alloc, 2)?`. It makes `n`
    /// loads.
    ///
    /// # Errors
    ///
    /// Returns `AllocError` if one of three allocations fails, one for the passes and two for the table of the word.
    /// No other call takes memory.
    pub fn open(alloc: Global, n: usize) -> Result<(SharedCount, Vec<CountPass>), AllocError>
        requires { 0 < n }
        ensures opened { IfOk result (λ r. r.0.passes ≡ n) }
        ensures passes { IfOk result (λ r. r.1.items ≡ map (first_pass r.0) (range_with_len 0 n)) }
        ensures owned { IfOk result (λ r. All (λ p. handles p ≡ 1) r.1.items) }
    {
        let mut passes = Vec::with_capacity(alloc, n)?;
        let (table, mut seat): (Table<(), View, usize, CountRule, Global>, Seat<(), View>) =
            Table::of_words(alloc, &[n as u64], &n)?;
        for _ in 0..n {
            let seat = table.shared.split_seat::<Deal>(&mut seat);
            passes.push(CountPass { seat, owned: 1 })?;
        }
        Ok((SharedCount { table }, passes))
    }

    /// Adds a handle to the pass, by a load and at most one compare-exchange: `count.try_clone(&mut pass)`.
    ///
    /// The call never retries. If another pass changes the count after the load, the compare-exchange fails. The
    /// reply is then `Overtaken`, unless the count is static or full by that time.
    pub fn try_clone(&self, pass: &mut CountPass) -> TryClone
        requires count { pass.old.count ≡ self.now }
        requires owns { 0 < handles pass.old }
        requires room { handles pass.old < u64.MAX }
        ensures pass { (pass.new.count ≡ pass.old.count) × (pass.new.name ≡ pass.old.name) }
        ensures call { result ≢ Overtaken → Called pass.old (Clone result) pass.new }
        ensures overtaken { result ≡ Overtaken → WasOvertaken pass.old pass.new }
        ensures marked { HasSeenMark pass.old → result ≡ Born }
        ensures owned { handles pass.new ≡ handles pass.old + born_count result }
    {
        let reply = self.clone_with(&mut pass.seat);
        pass.owned += reply.born();
        reply
    }

    /// Ends one handle of the pass, by a load and at most one subtraction: `count.end(&mut pass)`.
    pub fn end(&self, pass: &mut CountPass) -> EndReply
        requires count { pass.old.count ≡ self.now }
        requires owns { 0 < handles pass.old }
        ensures pass { (pass.new.count ≡ pass.old.count) × (pass.new.name ≡ pass.old.name) }
        ensures call { Called pass.old (End result) pass.new }
        ensures owned { handles pass.new + 1 ≡ handles pass.old }
    {
        let reply = self.end_with(&mut pass.seat);
        pass.owned -= 1;
        reply
    }

    /// Makes the count static, by one or: `count.mark(&mut pass)`. From then on no `end` is the last. A second call
    /// changes nothing.
    pub fn mark(&self, pass: &mut CountPass)
        requires count { pass.old.count ≡ self.now }
        requires owns { 0 < handles pass.old }
        ensures pass { (pass.new.count ≡ pass.old.count) × (pass.new.name ≡ pass.old.name) }
        ensures call { Called pass.old Mark pass.new }
        ensures owned { handles pass.new ≡ handles pass.old }
    {
        let shared = &self.table.shared;
        shared.fetch_or::<SetMark>(&mut pass.seat, 0, MARK);
    }

    /// Returns `true` if the count is not static and has one handle, which is that of this pass, by one load:
    /// `count.is_unique(&mut pass)`.
    pub fn is_unique(&self, pass: &mut CountPass) -> bool
        requires count { pass.old.count ≡ self.now }
        requires owns { 0 < handles pass.old }
        ensures pass { (pass.new.count ≡ pass.old.count) × (pass.new.name ≡ pass.old.name) }
        ensures call { Called pass.old (Unique result) pass.new }
        ensures owned { handles pass.new ≡ handles pass.old }
    {
        is_alone(self.table.shared.load::<AskUnique>(&mut pass.seat, 0))
    }

    /// Returns `true` if the count is static, by one load: `count.is_static(&mut pass)`.
    pub fn is_static(&self, pass: &mut CountPass) -> bool
        requires count { pass.old.count ≡ self.now }
        requires owns { 0 < handles pass.old }
        ensures pass { (pass.new.count ≡ pass.old.count) × (pass.new.name ≡ pass.old.name) }
        ensures call { Called pass.old (Static result) pass.new }
        ensures owned { handles pass.new ≡ handles pass.old }
    {
        is_marked(self.table.shared.load::<AskStatic>(&mut pass.seat, 0))
    }

    /// Lets both passes see one history, which has all calls of both: `count.meet(&mut first, &mut second)`. The
    /// passes need not own a handle. The call makes five loads.
    pub fn meet(&self, first: &mut CountPass, second: &mut CountPass)
        requires first { first.old.count ≡ self.now }
        requires second { second.old.count ≡ self.now }
        ensures first_pass { (first.new.count ≡ first.old.count)
            × (first.new.name ≡ first.old.name) }
        ensures second_pass { (second.new.count ≡ second.old.count)
            × (second.new.name ≡ second.old.name) }

        // Both have seen the same history, and neither made a call.
        ensures first_seen { HasSeenMore first.old first.new }
        ensures second_seen { HasSeenMore second.old second.new }
        ensures together { first.new.seen ≡ second.new.seen }
        ensures apart { first.old.name ≢ second.old.name }
        ensures first_owned { handles first.new ≡ handles first.old }
        ensures second_owned { handles second.new ≡ handles second.old }
    {
        // The second pass writes a note, the first reads the count with that note, and the second takes the note
        // back.
        let shared = &self.table.shared;
        let note = shared.split_seat::<WriteNote>(&mut second.seat);
        shared.join_seat::<TakeNote>(&mut first.seat, note);
        shared.load::<Meet>(&mut first.seat, 0);
        let read = shared.split_seat::<Deal>(&mut first.seat);
        shared.join_seat::<ReadNote>(&mut second.seat, read);
    }
}
