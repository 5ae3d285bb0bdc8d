//! The lines of a core's script: each is a step.
ghost use Rattle.std.specs.Prelude.{◌≡◌, ℕ, [], ◌∷◌, IfSome, IfNone};
ghost use Rattle.counting_core.specs.declared.step.Step.{Step as CoreStep};
ghost use Rattle.scripts.specs.Line.{Encodes, IsInvalid, Parses};
ghost use Rattle.scripts.specs.StepLine.{step_line};

use crate::line::{Line, is_word, read_line};
use counting_core::Step;

/// Parses a line of a core's script as a step, or returns `None` if the line is invalid: `read_step(line)`.
pub fn read_step(text: &[u8]) -> Option<Step<u32>>
    ensures step { IfSome result (Parses step_line text.now) }
    ensures none { IfNone result (IsInvalid step_line text.now) }
{
    step_of(read_line(text)?)
}

// Decides by the number of operands, and then by the word.
fn step_of(line: Line<'_>) -> Option<Step<u32>>
    ensures step { IfSome result (Encodes step_line line.entry.word.now line.entry.numbers.items) }
    ensures none { IfNone result ((step : CoreStep ℕ)
        → ¬ (Encodes step_line line.entry.word.now line.entry.numbers.items step)) }
{
    let word = line.word;
    match *line.numbers.as_slice() {
        [owner] => step_of_owner(word, owner as usize),
        [owner, handle] => step_on_handle(word, owner as usize, handle as usize),
        [owner, handle, value] => step_with_value(word, owner as usize, handle as usize, value),
        _ => None,
    }
}

fn step_of_owner(word: &[u8], owner: usize) -> Option<Step<u32>>
    ensures step { IfSome result (Encodes step_line word.now (owner ∷ [])) }
    ensures none { IfNone result ((step : CoreStep ℕ) → ¬ (Encodes step_line word.now (owner ∷ []) step)) }
{
    Some(match word {
        _ if is_word(word, b"raise") => Step::Raise { owner },
        _ if is_word(word, b"quit") => Step::Quit { owner },
        _ if is_word(word, b"lower") => Step::Lower { owner },
        _ => return None,
    })
}

fn step_on_handle(word: &[u8], owner: usize, handle: usize) -> Option<Step<u32>>
    ensures step { IfSome result (Encodes step_line word.now (owner ∷ handle ∷ [])) }
    ensures none { IfNone result ((step : CoreStep ℕ)
        → ¬ (Encodes step_line word.now (owner ∷ handle ∷ []) step)) }
{
    Some(match word {
        _ if is_word(word, b"clone") => Step::Clone { owner, handle },
        _ if is_word(word, b"drop") => Step::Drop { owner, handle },
        _ if is_word(word, b"mark") => Step::Mark { owner, handle },
        _ if is_word(word, b"unique") => Step::Unique { owner, handle },
        _ if is_word(word, b"static") => Step::Static { owner, handle },
        _ if is_word(word, b"getmut") => Step::GetMut { owner, handle },
        _ if is_word(word, b"endwrite") => Step::EndWrite { owner, handle },
        _ if is_word(word, b"intounique") => Step::IntoUnique { owner, handle },
        _ if is_word(word, b"share") => Step::Share { owner, handle },
        _ if is_word(word, b"load") => Step::Load { owner, handle },
        _ if is_word(word, b"return") => Step::Return { owner, handle },
        _ => return None,
    })
}

// The value may be the number of another owner.
fn step_with_value(word: &[u8], owner: usize, handle: usize, value: u32) -> Option<Step<u32>>
    ensures step { IfSome result (Encodes step_line word.now (owner ∷ handle ∷ value ∷ [])) }
    ensures none { IfNone result ((step : CoreStep ℕ)
        → ¬ (Encodes step_line word.now (owner ∷ handle ∷ value ∷ []) step)) }
{
    let to = value as usize;
    Some(match word {
        _ if is_word(word, b"write") => Step::Write {
            owner,
            handle,
            value,
        },
        _ if is_word(word, b"lend") => Step::Lend { owner, handle, to },
        _ if is_word(word, b"give") => Step::Give { owner, handle, to },
        _ => return None,
    })
}
