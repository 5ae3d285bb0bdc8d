//! Runs of commands, for every kind of table.
ghost use Rattle.std.specs.Prelude.{◌≡◌, [], All, IfOk, IsOk, OnErr, ⊤};
ghost use Rattle.commands.specs.Runs.{IsAmong, Means, Run};

use commands::Reply;
use std::alloc::{AllocError, Global};

/// A table that serves commands of this type: `serve_all(&mut table, alloc, commands)?`.
pub trait Serve<C> {
    // What a command means, and which commands may be served.
    ghost meaning: { C → Means Self };

    ghost can_serve: { C → Type 0 } = { λ _. ⊤ };

    /// Serves one command and returns its reply, which takes no memory: `table.serve_one(alloc, command)`.
    fn serve_one(&mut self, alloc: Global, command: C) -> Reply
        requires { can_serve command }
        ensures { IsAmong (meaning command self.old) result self.new };
}

/// Serves the commands in order and returns a reply to each: `serve_all(&mut table, alloc, commands)?`.
///
/// # Errors
///
/// Returns `AllocError` if the room for the replies cannot be allocated. No command was served then, and all are
/// dropped.
pub fn serve_all<S: Serve<C>, C: Drop>(
    table: &mut S,
    alloc: Global,
    commands: Vec<C>,
) -> Result<Vec<Reply>, AllocError>
    requires { All S.can_serve commands.items }
    ensures ok { IfOk result (λ replies.
        Run S.meaning commands.items table.old replies.items table.new) }
    ensures err { OnErr result (table.new ≡ table.old) }
    ensures empty { commands.items ≡ [] → IsOk result }
{
    let mut replies = Vec::with_capacity(alloc, commands.len())?;
    for command in commands {
        replies.push_reserved(table.serve_one(alloc, command));
    }
    Ok(replies)
}
