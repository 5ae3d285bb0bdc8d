//! Splitting a text at a byte.
ghost use Rattle.std.specs.Prelude.{◌≡◌, ◌≢◌, All};
ghost use Rattle.std.specs.Option.{option_copied};
ghost use Rattle.scripts.specs.Split.{with_rest};

/// Splits the text at the first such byte, as `split_once(text, b' ')`: the part before it, and the part after it, if
/// the byte occurs.
// Not inlined: within `read_line` the compiler would add more work to each byte.
#[inline(never)]
pub fn split_once(text: &[u8], separator: u8) -> (&[u8], Option<&[u8]>)
    ensures first { All (λ byte. byte ≢ separator) result.0.now }
    ensures parts { text.now ≡ with_rest separator result.0.now (option_copied result.1) }
{
    for (at, byte) in text.iter().enumerate() {
        if *byte == separator {
            return (&text[..at], Some(&text[at + 1..]));
        }
    }
    (text, None)
}
