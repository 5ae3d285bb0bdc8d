//! Scripts of `table`: their lines are commands on a table of handles, or ask for the number in a slot.
ghost use Rattle.std.specs.Prelude.{◌≡◌, ◌++◌, ℕ, List, Option, IfErr, OnOk, slice_get};
ghost use Rattle.scripts.specs.Fault.{IsFaultOfRun};
ghost use Rattle.scripts.specs.Line.{IsInvalid};
ghost use Rattle.scripts.specs.Script.{answer_text};
ghost use Rattle.scripts.specs.Written.{Wrote};
ghost use Rattle.scripts.specs.TableAnswer.{IsAnsweredBy, printed_slot};
ghost use Rattle.scripts.specs.TableLine.{table_line};
ghost use Rattle.scripts.specs.TableScript.{PrintsModelTable, TableAnswers};

use crate::fault::Fault;
use crate::script::{Interpreter, answer_lines, append_with_number};
use crate::table_answer::append_reply;
use crate::table_line::{TableLine, read_table_line};
use commands::NumberTable;
use std::alloc::{AllocError, Global};
use std::io::Write;

/// Runs the script on a new table of `slots` empty slots. Writes the answer to each line, up to the first line that
/// is invalid, and in place of its answer the fault.
///
/// Returns `Line` at that line, `Output` if a write fails, and `Memory` if the table or the room for the answers
/// cannot be allocated. A command that finds no memory is answered `refused`, and the run continues.
pub(crate) fn run_table_script<T: NumberTable, W: Write>(
    alloc: Global,
    slots: usize,
    script: &[u8],
    output: &mut W,
) -> Result<(), Fault>
    ensures fault { IfErr result IsFaultOfRun }
    ensures wrote { Wrote (PrintsModelTable slots script.now result)
        (W.contents output.old) (W.contents output.new) }
{
    let table = T::empty(alloc, slots)?;
    answer_lines(alloc, script, &mut TableRunner { alloc, table }, output)
}

/// A table, and the allocator of its commands.
#[derive(Drop)]
struct TableRunner<T> {
    alloc: Global,
    table: T,
}

impl<T: NumberTable> Interpreter for TableRunner<T> {
    ghost answers = { λ old line text new. TableAnswers (T.slots_of old.table) line text (T.slots_of new.table) };

    ghost is_faulty = { IsInvalid table_line };

    fn answer_to(&mut self, line: &[u8], gathered: &mut Vec<u8>) -> Option<Result<(), AllocError>> {
        let asked = read_table_line(line)?;
        Some(self.answer(asked, gathered))
    }
}

impl<T: NumberTable> TableRunner<T> {
    fn answer(&mut self, asked: TableLine, gathered: &mut Vec<u8>) -> Result<(), AllocError>
        ensures { (printed : List ℕ × Option ℕ)
            × IsAnsweredBy asked (T.slots_of self.old.table) printed (T.slots_of self.new.table)
            × OnOk result (gathered.new.items ≡ gathered.old.items ++ answer_text printed) }
    {
        match asked {
            TableLine::Serve(command) => {
                append_reply(gathered, self.table.serve_command(self.alloc, command))
            }
            TableLine::Get(slot) => append_reading(gathered, &self.table, slot),
        }
    }
}

fn append_reading<T: NumberTable>(
    gathered: &mut Vec<u8>,
    table: &T,
    slot: usize,
) -> Result<(), AllocError>
    ensures { OnOk result (gathered.new.items
        ≡ gathered.old.items ++ answer_text (printed_slot (slice_get (T.slots_of table.now) slot))) }
{
    match table.number(slot) {
        Ok(number) => append_with_number(gathered, b"value ", u64::from(number)),
        Err(missing) => append_reply(gathered, missing),
    }
}
