//! The program, from its arguments to its exit status.
ghost use Rattle.std.specs.Prelude.{◌≡◌, ◌≢◌, ◌≤◌, ◌↔◌, ◌⊎◌, ℕ, IsErrOf, List, map};
ghost use Rattle.std.specs.Io.KnownBytes.{IsAtEnd};
ghost use Rattle.scripts.specs.Arguments.{AreWrong};
ghost use Rattle.scripts.specs.Fault.{note_of, status_of};
ghost use Rattle.scripts.specs.Program.{DidAsAsked, DidByStatus};
ghost use Rattle.scripts.specs.Written.{WroteBeginning};
ghost use Rattle.scripts.specs.declared.fault.Fault.{Fault as EndedBy};
ghost use Rattle.scripts.specs.declared.fault.Fault.TheVariants as Fault;

use crate::arguments::{Request, argument_words};
use crate::core_script::run_core_script;
use crate::fault::Fault;
use crate::script;
use crate::table_script::run_table_script;
use commands::NumberTable;
use std::alloc::{AllocError, Global};
use std::convert::AsStr;
use std::env::Env;
use std::io::{Read, Write};

/// Runs the program on the arguments of its environment, with tables of type `T`, and returns its exit status:
/// `start::<Table<u32>, _, _, _, _>(&rt, rt.alloc(), &mut input, &mut output, &mut errors)`.
pub fn start<T: NumberTable, V: Env, R: Read, W: Write, E: Write>(
    environment: &V,
    alloc: Global,
    input: &mut R,
    output: &mut W,
    errors: &mut E,
) -> u8
    ensures range { result ≤ 5 }
    ensures unread { result ≡ 1 → input.new ≡ input.old }
    ensures read { (result ≡ 0) ⊎ (result ≡ 2) ⊎ (result ≡ 4) → IsAtEnd (R.remaining input.new) }
    ensures unwritten { (result ≡ 1) ⊎ (result ≡ 3) → output.new ≡ output.old }
    ensures wrote { (result ≡ 1)
        ⊎ ((words : List (List ℕ)) × DidByStatus words (R.remaining input.old) result
        (W.contents output.old) (W.contents output.new)) }
    ensures quiet { result ≢ 1 → result ≢ 3 → result ≢ 5 → errors.new ≡ errors.old }
    ensures reported { (fault : EndedBy) → result ≡ status_of fault
        → WroteBeginning (note_of fault) (E.contents errors.old) (E.contents errors.new) }
{
    match argument_words(environment, alloc) {
        Ok(words) => bench::<T, _, _, _, _>(alloc, &words, input, output, errors),
        Err(AllocError) => Fault::Memory.report(errors),
    }
}

/// Runs the program on these arguments, without its own name, and returns its exit status:
/// `bench::<Table<u32>, _, _, _, _>(alloc, words, input, &mut output, &mut errors)`.
pub fn bench<T: NumberTable, S: AsStr, R: Read, W: Write, E: Write>(
    alloc: Global,
    words: &[S],
    input: &mut R,
    output: &mut W,
    errors: &mut E,
) -> u8
    ensures range { result ≤ 5 }
    ensures arguments { (result ≡ 1) ↔ AreWrong (map S.text words.now) }
    ensures unread { result ≡ 1 → input.new ≡ input.old }
    ensures read { (result ≡ 0) ⊎ (result ≡ 2) ⊎ (result ≡ 4) → IsAtEnd (R.remaining input.new) }
    ensures unwritten { (result ≡ 1) ⊎ (result ≡ 3) → output.new ≡ output.old }
    ensures wrote { (result ≡ 1) ⊎ DidByStatus (map S.text words.now) (R.remaining input.old) result
        (W.contents output.old) (W.contents output.new) }
    ensures quiet { result ≢ 1 → result ≢ 3 → result ≢ 5 → errors.new ≡ errors.old }
    ensures reported { (fault : EndedBy) → result ≡ status_of fault
        → WroteBeginning (note_of fault) (E.contents errors.old) (E.contents errors.new) }
{
    match do_as_asked::<T, S, R, W>(alloc, words, input, output) {
        Ok(()) => 0,
        Err(fault) => fault.report(errors),
    }
}

/// Reads the arguments, then the script, and runs the script.
fn do_as_asked<T: NumberTable, S: AsStr, R: Read, W: Write>(
    alloc: Global,
    words: &[S],
    input: &mut R,
    output: &mut W,
) -> Result<(), Fault>
    ensures arguments { IsErrOf result Fault.Arguments ↔ AreWrong (map S.text words.now) }
    ensures unread { IsErrOf result Fault.Arguments → input.new ≡ input.old }
    ensures read { IsErrOf result Fault.Arguments ⊎ IsErrOf result Fault.Input
        ⊎ IsErrOf result Fault.Memory
        ⊎ IsAtEnd (R.remaining input.new) }
    ensures unwritten { IsErrOf result Fault.Arguments ⊎ IsErrOf result Fault.Input
        → output.new ≡ output.old }
    ensures wrote { IsErrOf result Fault.Arguments
        ⊎ DidAsAsked (map S.text words.now) (R.remaining input.old) result
        (W.contents output.old) (W.contents output.new) }
{
    let request = Request::from_words(words).ok_or(Fault::Arguments)?;
    let script = script::read(alloc, input)?;
    match request {
        Request::Core { owners, limit } => run_core_script(alloc, owners, limit, &script, output),
        Request::Table { slots } => run_table_script::<T, W>(alloc, slots, &script, output),
    }
}
