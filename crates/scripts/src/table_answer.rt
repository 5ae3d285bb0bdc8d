//! The texts of a table's replies.
ghost use Rattle.std.specs.Prelude.{◌≡◌, ◌++◌, OnOk};
ghost use Rattle.scripts.specs.Script.{answer_text};
ghost use Rattle.scripts.specs.TableAnswer.{printed_reply};

use commands::Reply;
use std::alloc::AllocError;

/// Appends the text of a reply: `append_reply(gathered, reply)?`. Each text has an arm of its own, so that its bytes
/// are copied without a loop.
pub fn append_reply(gathered: &mut Vec<u8>, reply: Reply) -> Result<(), AllocError>
    ensures { OnOk result (gathered.new.items
        ≡ gathered.old.items ++ answer_text (printed_reply reply)) }
{
    match reply {
        Reply::Done => gathered.extend_from_slice(b"done\n"),
        Reply::Is(true) => gathered.extend_from_slice(b"is true\n"),
        Reply::Is(false) => gathered.extend_from_slice(b"is false\n"),
        Reply::Shared => gathered.extend_from_slice(b"shared\n"),
        Reply::Empty => gathered.extend_from_slice(b"empty\n"),
        Reply::NoSlot => gathered.extend_from_slice(b"no slot\n"),
        Reply::Refused => gathered.extend_from_slice(b"refused\n"),
    }
}
