//! The numbers of arguments and scripts.
ghost use Rattle.std.specs.Prelude.{ℕ, List, IfSome, IfNone};
ghost use Rattle.scripts.specs.Number.{BeginsWith, IsNumber};

/// Parses a number from 0 to 4294967295 as scripts write it, or returns `None`: `parse_number(b"42")`. A number is
/// digits, with no zero before other digits.
pub fn parse_number(word: &[u8]) -> Option<u32>
    ensures number { IfSome result (IsNumber word.now) }
    ensures none { IfNone result ((number : ℕ) → ¬ (IsNumber word.now number)) }
{
    match split_number(word)? {
        (number, []) => Some(number),
        _ => None,
    }
}

/// Returns the number that a text begins with, and the text after its digits. Each byte is read once.
pub(crate) fn split_number(text: &[u8]) -> Option<(u32, &[u8])>
    ensures number { IfSome result (λ split. BeginsWith text.now split.0 split.1.now) }
    ensures none { IfNone result ((number : ℕ) (rest : List ℕ) → ¬ (BeginsWith text.now number rest)) }
{
    let mut value = 0u64;
    let mut count = 0;
    while count < text.len() && text[count].is_ascii_digit() {
        value = value * 10 + u64::from(text[count] - b'0');
        if value > u64::from(u32::MAX) {
            return None;
        }
        count += 1;
    }
    if count == 0 {
        return None;
    }
    if text[0] == b'0' && count > 1 {
        return None;
    }
    Some((value as u32, &text[count..]))
}
