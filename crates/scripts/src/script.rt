//! Scripts, whatever the language of their lines.
ghost use Rattle.std.specs.Prelude.{◌≡◌, ◌≢◌, ◌⊎◌, ℕ, ◌<◌, List, [], ◌∷◌, ◌++◌, length, Some};
ghost use Rattle.std.specs.Prelude.{IfErr, IfSome, IfNone, OnOk, IfOk};
ghost use Rattle.std.specs.IoError.{error_kind};
ghost use Rattle.std.specs.Io.KnownBytes.{Appends, IsAtEnd};
ghost use Rattle.scripts.specs.Fault.{IsFaultOfRun, PrintsUpTo};
ghost use Rattle.scripts.specs.Script.{answer_text, lines_of};
ghost use Rattle.scripts.specs.Written.{Wrote, WroteBeginning};
ghost use Rattle.scripts.specs.declared.fault.Fault.TheVariants as Fault;

use crate::fault::Fault;
use crate::output::write_whole;
use itoa::Buffer;
use memchr::memchr;
use std::alloc::{AllocError, Global};
use std::io;
use std::io::{ErrorKind, Read, Write};

/// Answers are gathered up to this many bytes, and then written as one part. A `BufWriter` in place of the `Vec`
/// would leave unproved that the answers reach this output.
const PART_SIZE: usize = 1 << 16;

/// The last answer of a part may exceed the size of the part by less than this many bytes.
const ANSWER_ROOM: usize = 64;

/// Runs the lines of a script, one after the other: `answer_lines(alloc, script, &mut interpreter, output)?`.
pub trait Interpreter {
    // The line may be answered by this text, which leaves the second state.
    ghost answers: { Self → List ℕ → List ℕ → Self → Type 0 };

    // The line asks for nothing.
    ghost is_faulty: { List ℕ → Type 0 };

    /// Runs a line and appends its answer to `gathered`: `interpreter.answer_to(line, &mut part)`. Returns `None` if
    /// the line is faulty, which changes nothing.
    ///
    /// A line whose answer finds no memory in `gathered` has run all the same.
    fn answer_to(&mut self, line: &[u8], gathered: &mut Vec<u8>) -> Option<Result<(), AllocError>>
        ensures answered { IfSome result (λ appended. (text : List ℕ)
            × answers self.old line.now text self.new
            × OnOk appended (gathered.new.items ≡ gathered.old.items ++ text)) }
        ensures faulty { IfNone result (is_faulty line.now) }
        ensures unchanged { IfNone result (self.new ≡ self.old) }
        ensures kept { IfNone result (gathered.new.items ≡ gathered.old.items) };
}

/// Reads the whole script: `read(alloc, input)?`.
///
/// # Errors
///
/// Returns `Memory` if the text cannot be allocated, and `Input` if a read fails for another reason.
pub fn read<R: Read>(alloc: Global, input: &mut R) -> Result<Vec<u8>, Fault>
    ensures whole { IfOk result (λ script. IfSome (R.remaining input.old) (λ bytes.
        script.items ≡ bytes)) }
    ensures end { OnOk result (IsAtEnd (R.remaining input.new)) }
    ensures fault { IfErr result (λ fault. (fault ≡ Fault.Input) ⊎ (fault ≡ Fault.Memory)) }
{
    let mut script = Vec::new(alloc);
    match input.read_to_end(&mut script) {
        Ok(_) => Ok(script),
        Err(error) => Err(read_fault(&error)),
    }
}

/// Returns the fault of a read that failed, or that found no memory for the text.
fn read_fault(error: &io::Error) -> Fault
    ensures memory { error_kind error.now ≡ ErrorKind.OutOfMemory → result ≡ Fault.Memory }
    ensures input { error_kind error.now ≢ ErrorKind.OutOfMemory → result ≡ Fault.Input }
{
    match error.kind() {
        ErrorKind::OutOfMemory => Fault::Memory,
        _ => Fault::Input,
    }
}

/// Runs the lines up to the first faulty one, and writes their answers, then the fault:
/// `answer_lines(alloc, script, &mut runner, output)?`.
///
/// # Errors
///
/// Returns `Line` at the first faulty line, `Output` if a write fails, and `Memory` if the answers find no memory.
pub fn answer_lines<I: Interpreter, W: Write>(
    alloc: Global,
    script: &[u8],
    interpreter: &mut I,
    output: &mut W,
) -> Result<(), Fault>
    ensures fault { IfErr result IsFaultOfRun }
    ensures wrote { Wrote (λ text. PrintsUpTo I.answers I.is_faulty
        interpreter.old script.now result text interpreter.new)
        (W.contents output.old) (W.contents output.new) }
{
    let mut part = Vec::with_capacity(alloc, PART_SIZE + ANSWER_ROOM)?;
    let mut number = 0;
    let mut rest = script;
    while let Some((line, after)) = split_line(rest) {
        number += 1;
        let Some(appended) = interpreter.answer_to(line, &mut part) else {
            append_with_number(&mut part, b"fault: line ", number)?;
            write_last(&part, output)?;
            return Err(Fault::Line(number));
        };
        appended?;
        if part.len() >= PART_SIZE {
            write_part(&mut part, output)?;
        }
        rest = after;
    }
    write_last(&part, output)
}

/// Returns the first line of a text, without its line feed, and the text after it.
fn split_line(text: &[u8]) -> Option<(&[u8], &[u8])>
    ensures first { IfSome result (λ split. lines_of text.now ≡ split.0.now ∷ lines_of split.1.now) }
    ensures shorter { IfSome result (λ split. length split.1.now < length text.now) }
    ensures end { IfNone result (text.now ≡ []) }
{
    if text.is_empty() {
        return None;
    }
    match memchr(b'\n', text) {
        Some(at) => Some((&text[..at], &text[at + 1..])),
        None => Some((text, &[])),
    }
}

/// Appends an answer of words and a number, with a line feed:
/// `append_with_number(&mut part, b"fault: line ", number)?`. An answer without a number is appended by itself.
pub fn append_with_number(
    gathered: &mut Vec<u8>,
    words: &[u8],
    number: u64,
) -> Result<(), AllocError>
    ensures { OnOk result (gathered.new.items
        ≡ gathered.old.items ++ answer_text (words.now, Some number)) }
{
    gathered.extend_from_slice(words)?;
    gathered.extend_from_slice(Buffer::new().format(number).as_bytes())?;
    gathered.extend_from_slice(b"\n")
}

/// Writes the gathered answers, and clears them.
fn write_part<W: Write>(part: &mut Vec<u8>, output: &mut W) -> Result<(), Fault>
    ensures written { OnOk result (Appends
        (W.contents output.old) (W.contents output.new) part.old.items) }
    ensures begun { WroteBeginning part.old.items (W.contents output.old) (W.contents output.new) }
    ensures emptied { OnOk result (part.new.items ≡ []) }
    ensures fault { IfErr result (λ fault. fault ≡ Fault.Output) }
{
    write_whole(part, output)?;
    part.clear();
    Ok(())
}

fn write_last<W: Write>(part: &[u8], output: &mut W) -> Result<(), Fault>
    ensures written { OnOk result (Appends
        (W.contents output.old) (W.contents output.new) part.now) }
    ensures begun { WroteBeginning part.now (W.contents output.old) (W.contents output.new) }
    ensures fault { IfErr result (λ fault. fault ≡ Fault.Output) }
{
    write_whole(part, output)?;
    output.flush().map_err(|_| Fault::Output)
}
