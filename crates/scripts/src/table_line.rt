//! The lines of a table's script: each is a command, or asks for the number in a slot.
ghost use Rattle.std.specs.Prelude.{◌≡◌, ℕ, [], ◌∷◌, IfSome, IfNone};
ghost use Rattle.scripts.specs.Line.{Encodes, IsInvalid, Parses};
ghost use Rattle.scripts.specs.declared.table_line.TableLine.{TableLine as Asked};
ghost use Rattle.scripts.specs.TableLine.{table_line};

use crate::line::{Line, is_word, read_line};
use commands::Command;

/// A line of a table's script: a command, or in `TableLine::Get(0)` the question which number a slot has.
#[derive(Drop)]
pub enum TableLine {
    /// Serve the command.
    Serve(Command<u32>),
    /// Answer with the number in the slot at this index.
    Get(usize),
}

/// Parses a line of a table's script, or returns `None` if the line is invalid: `read_table_line(line)`.
pub fn read_table_line(text: &[u8]) -> Option<TableLine>
    ensures line { IfSome result (Parses table_line text.now) }
    ensures none { IfNone result (IsInvalid table_line text.now) }
{
    asked_by(read_line(text)?)
}

// Decides by the number of operands, and then by the word.
fn asked_by(line: Line<'_>) -> Option<TableLine>
    ensures line { IfSome result (Encodes table_line line.entry.word.now line.entry.numbers.items) }
    ensures none { IfNone result ((asked : Asked)
        → ¬ (Encodes table_line line.entry.word.now line.entry.numbers.items asked)) }
{
    match *line.numbers.as_slice() {
        [slot] => asked_of_slot(line.word, slot as usize),
        [slot, value] => asked_with_value(line.word, slot as usize, value),
        _ => None,
    }
}

fn asked_of_slot(word: &[u8], slot: usize) -> Option<TableLine>
    ensures line { IfSome result (Encodes table_line word.now (slot ∷ [])) }
    ensures none { IfNone result ((asked : Asked) → ¬ (Encodes table_line word.now (slot ∷ []) asked)) }
{
    Some(TableLine::Serve(match word {
        _ if is_word(word, b"get") => return Some(TableLine::Get(slot)),
        _ if is_word(word, b"drop") => Command::Drop(slot),
        _ if is_word(word, b"own") => Command::Own(slot),
        _ if is_word(word, b"mark") => Command::Mark(slot),
        _ if is_word(word, b"raw") => Command::Raw(slot),
        _ => return None,
    }))
}

// The value may be the number of another slot.
fn asked_with_value(word: &[u8], slot: usize, value: u32) -> Option<TableLine>
    ensures line { IfSome result (Encodes table_line word.now (slot ∷ value ∷ [])) }
    ensures none { IfNone result ((asked : Asked)
        → ¬ (Encodes table_line word.now (slot ∷ value ∷ []) asked)) }
{
    let other = value as usize;
    Some(TableLine::Serve(match word {
        _ if is_word(word, b"new") => Command::New(slot, value),
        _ if is_word(word, b"clone") => Command::Clone(slot, other),
        _ if is_word(word, b"getmut") => Command::GetMut(slot, value),
        _ if is_word(word, b"intounique") => Command::IntoUnique(slot, value),
        _ if is_word(word, b"makemut") => Command::MakeMut(slot, value),
        _ if is_word(word, b"ptreq") => Command::PtrEq(slot, other),
        _ if is_word(word, b"same") => Command::Same(slot, other),
        _ => return None,
    }))
}
