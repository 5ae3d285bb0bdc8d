//! A name behind one pointer: a `ThinStr` is a header and a text.
ghost use Rattle.std.specs.Prelude.{◌≡◌, IfOk};
ghost use Rattle.std.specs.Str.{bytes_eq};
ghost use Rattle.servo_arc.specs.HeaderSlice.{HeaderAndItems};

use servo_arc::ThinStr;
use std::alloc::{AllocError, Global};

/// Creates a name with a kind, and returns two handles of it.
pub fn shared_name(
    alloc: Global,
    kind: u8,
    name: &str,
) -> Result<(ThinStr<u8>, ThinStr<u8>), AllocError>
    ensures first { IfOk result (λ names. names.0 ≡ record { header = kind; items = name.now }) }
    ensures second { IfOk result (λ names. names.1 ≡ names.0) }
{
    let first = ThinStr::from_header_and_str(alloc, kind, name)?;
    let second = first.clone()?;
    Ok((first, second))
}

/// Returns `true` if the text of the name equals `text`.
pub fn is_named(name: &ThinStr<u8>, text: &str) -> bool
    ensures { result ≡ bytes_eq name.now.items text.now }
{
    name.as_str() == text
}
