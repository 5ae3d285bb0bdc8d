//! Scripts of `core`: their lines are steps of a counting core, the protocol of a counted block as a machine.
ghost use Rattle.std.specs.Prelude.{◌≡◌, ◌<◌, ◌++◌, IfErr, IfOk, OnOk};
ghost use Rattle.counting_word.specs.CountingWord.{IsLimit};
ghost use Rattle.counting_core.specs.Represents.{Represents};
ghost use Rattle.counting_core.specs.Trace.{Open};
ghost use Rattle.scripts.specs.Fault.{IsFaultOfRun};
ghost use Rattle.scripts.specs.Line.{IsInvalid};
ghost use Rattle.scripts.specs.Script.{answer_text};
ghost use Rattle.scripts.specs.Written.{Wrote};
ghost use Rattle.scripts.specs.declared.fault.Fault.TheVariants as Fault;
ghost use Rattle.scripts.specs.CoreScript.{CoreAnswers, PrintsLegalTrace};
ghost use Rattle.scripts.specs.StepAnswer.{printed_answer};
ghost use Rattle.scripts.specs.StepLine.{step_line};

use crate::fault::Fault;
use crate::script::{Interpreter, answer_lines, append_with_number};
use crate::step_line::read_step;
use counting_core::{Answer, Core};
use std::alloc::{AllocError, Global};
use std::io::Write;

/// The value of each block that a script opens.
const VALUE: u32 = 5;

/// Runs the script on a new core: `run_core_script(alloc, owners, limit, &script, output)?`. Owner 0 holds the only
/// handle, of a block of `VALUE` and this limit. Writes the answer to each line, up to the first line that is no
/// step, and in place of its answer the fault.
///
/// # Errors
///
/// Returns `Line` at the first line that is no step, `Output` if a write fails, and `Memory` if the core or the room
/// for the answers cannot be allocated. A step that finds no memory is answered `memory`, and the run continues.
pub fn run_core_script<W: Write>(
    alloc: Global,
    owners: usize,
    limit: u64,
    script: &[u8],
    output: &mut W,
) -> Result<(), Fault>
    requires owners { 0 < owners }
    requires limit { IsLimit limit }
    ensures fault { IfErr result IsFaultOfRun }
    ensures wrote { Wrote (PrintsLegalTrace owners limit script.now result)
        (W.contents output.old) (W.contents output.new) }
{
    let Ok(core) = Core::new(alloc, VALUE, owners, limit) else {
        return Err(Fault::Memory);
    };
    answer_lines(alloc, script, &mut CoreRunner { core }, output)
}

/// A core on which a script runs.
#[derive(Drop)]
struct CoreRunner {
    core: Core<u32>,
}

impl Interpreter for CoreRunner {
    ghost answers = { λ old line text new. CoreAnswers old.core line text new.core };

    ghost is_faulty = { IsInvalid step_line };

    fn answer_to(&mut self, line: &[u8], gathered: &mut Vec<u8>) -> Option<Result<(), AllocError>> {
        let step = read_step(line)?;
        Some(append_answer(gathered, self.core.step(step)))
    }
}

// Appends each text in an arm of its own, so that its bytes are copied without a loop.
fn append_answer(gathered: &mut Vec<u8>, answer: Answer<u32>) -> Result<(), AllocError>
    ensures { OnOk result (gathered.new.items
        ≡ gathered.old.items ++ answer_text (printed_answer answer)) }
{
    match answer {
        Answer::Born(handle) => append_with_number(gathered, b"born ", handle as u64),
        Answer::Full => gathered.extend_from_slice(b"full\n"),
        Answer::Pending => gathered.extend_from_slice(b"pending\n"),
        Answer::Quit => gathered.extend_from_slice(b"quit\n"),
        Answer::Ended => gathered.extend_from_slice(b"ended\n"),
        Answer::GivenUp(value) => append_with_number(gathered, b"given up ", u64::from(value)),
        Answer::Marked => gathered.extend_from_slice(b"marked\n"),
        Answer::Is(true) => gathered.extend_from_slice(b"is true\n"),
        Answer::Is(false) => gathered.extend_from_slice(b"is false\n"),
        Answer::Alone => gathered.extend_from_slice(b"alone\n"),
        Answer::Sole => gathered.extend_from_slice(b"sole\n"),
        Answer::Shared => gathered.extend_from_slice(b"shared\n"),
        Answer::Done => gathered.extend_from_slice(b"done\n"),
        Answer::Value(value) => append_with_number(gathered, b"value ", u64::from(value)),
        Answer::Memory => gathered.extend_from_slice(b"memory\n"),
        Answer::Barred => gathered.extend_from_slice(b"barred\n"),
    }
}
