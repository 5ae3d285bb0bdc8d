//! Writing of which a contract says how much was written.
ghost use Rattle.std.specs.Prelude.{◌≡◌, [], IfErr, OnOk};
ghost use Rattle.std.specs.Io.KnownBytes.{Appends};
ghost use Rattle.scripts.specs.Written.{WroteBeginning};
ghost use Rattle.scripts.specs.declared.fault.Fault.TheVariants as Fault;

use crate::fault::Fault;
use std::io::{ErrorKind, Write};

/// Writes all the bytes, in as many writes as it takes: `write_whole(bytes, output)?`. `write_all` of the library
/// would leave unproved what is written when a write fails.
///
/// # Errors
///
/// Returns `Output` if a write fails. A beginning of the bytes is written then.
pub fn write_whole<W: Write>(bytes: &[u8], output: &mut W) -> Result<(), Fault>
    ensures whole { OnOk result (Appends
        (W.contents output.old) (W.contents output.new) bytes.now) }
    ensures begun { WroteBeginning bytes.now (W.contents output.old) (W.contents output.new) }
    ensures nothing { bytes.now ≡ [] → output.new ≡ output.old }
    ensures fault { IfErr result (λ fault. fault ≡ Fault.Output) }
{
    let mut rest = bytes;
    for _ in 0..u64::MAX {
        if rest.is_empty() {
            return Ok(());
        }
        match output.write(rest) {
            Ok(0) => return Err(Fault::Output),
            Ok(count) => rest = &rest[count..],
            Err(error) if error.kind() == ErrorKind::Interrupted => continue,
            Err(_) => return Err(Fault::Output),
        }
    }
    Err(Fault::Output)
}
