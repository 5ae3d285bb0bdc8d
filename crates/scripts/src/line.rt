//! The fields of a line: a word, and the numbers after it.
ghost use Rattle.std.specs.Prelude.{◌≡◌, ◌↔◌, ◌<◌, ◌^◌, ℕ, List, Option, decimal, IfSome, IfNone, IsTrue};
ghost use Rattle.std.specs.Option.{option_copied};
ghost use Rattle.scripts.specs.Line.{IsLine, fields, fields_if_any, space};
ghost use Rattle.scripts.specs.Split.{with_rest};

use crate::number::split_number;
use crate::split::split_once;
use arrayvec::ArrayVec;

/// A line of a word and at most three numbers, each after one space: `read_line(text)`.
#[derive(Drop)]
pub struct Line<'a> {
    /// The bytes before the first space.
    pub word: &'a [u8],
    /// The numbers after the word, in their order.
    pub numbers: ArrayVec<u32, 3>,
}

/// Splits the text into a word and its numbers, or returns `None` if it has another form: `read_line(b"lend 0 1")`.
pub fn read_line(text: &[u8]) -> Option<Line<'_>>
    ensures line { IfSome result (λ line. IsLine text.now line.word.now line.numbers.items) }
    ensures none { IfNone result ((word numbers : List ℕ) → ¬ (IsLine text.now word numbers)) }
{
    let (word, mut rest) = split_once(text, b' ');
    let mut numbers = ArrayVec::new();
    while let Some(text) = rest {
        if numbers.is_full() {
            return None;
        }
        let (number, after) = split_field(text)?;
        numbers.push(number);
        rest = after;
    }
    Some(Line { word, numbers })
}

/// Returns the number that is the first field of a text, and the text after the space behind it, if there is a space.
fn split_field(text: &[u8]) -> Option<(u32, Option<&[u8]>)>
    ensures number { IfSome result (λ field.
        text.now ≡ with_rest space (decimal field.0) (option_copied field.1)) }
    ensures in_range { IfSome result (λ field. field.0 < 2 ^ 32) }
    ensures none { IfNone result ((number : ℕ) (rest : Option (List ℕ))
        → text.now ≡ with_rest space (decimal number) rest → ¬ (number < 2 ^ 32)) }
{
    let (number, after) = split_number(text)?;
    let Some((next, rest)) = after.split_first() else {
        return Some((number, None));
    };
    if *next != b' ' {
        return None;
    }
    Some((number, Some(rest)))
}

/// Returns `true` if the text is this word: `is_word(word, b"clone")`. The word is an array, so that its bytes are
/// compared without a loop.
#[inline(always)]
pub fn is_word<const N: usize>(text: &[u8], word: &[u8; N]) -> bool
    ensures { IsTrue result ↔ (text.now ≡ word.now) }
{
    match <&[u8; N]>::try_from(text) {
        Ok(text) => text == word,
        Err(_) => false,
    }
}
