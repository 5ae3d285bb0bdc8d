//! An editor's buffer: a list of lines with undo. Its versions (snapshots) share all lines and nearly all nodes.
ghost use Rattle.std.specs.Prelude.{◌≡◌, ◌∷◌, ◌++◌, [], IfOk, OnErr, OnOk, drop, take};
ghost use Rattle.std.specs.List.{insert};

use rose_undo::Undo;
use sequence::{PlaceError, Sequence};
use servo_arc::Arc;
use std::alloc::Global;

/// Lines with their earlier versions. A line is behind a handle, so that a clone equals the original.
pub type Buffer = Undo<Sequence<Arc<String>>>;

/// Puts a line in, and keeps the version before.
pub fn insert_line(
    buffer: &mut Buffer,
    alloc: Global,
    number: usize,
    line: Arc<String>,
) -> Result<(), PlaceError>
    ensures inserted { OnOk result (buffer.new.current ≡ insert buffer.old.current number line) }
    ensures kept { OnOk result (buffer.new.before ≡ buffer.old.before ++ buffer.old.current ∷ []) }
    ensures refused { OnErr result (buffer.new ≡ buffer.old) }
{
    let mut next: Sequence<Arc<String>> = buffer.current().clone()?;
    next.insert(alloc, number, line)?;
    buffer.change(next)?;
    Ok(())
}

/// Returns the lines with those from `number` on moved to the front. `lines` stays as it is.
///
/// # Errors
///
/// `NoPlace` if there are fewer than `number` lines, and `Memory`.
pub fn turned(
    lines: &Sequence<Arc<String>>,
    alloc: Global,
    number: usize,
) -> Result<Sequence<Arc<String>>, PlaceError>
    ensures { IfOk result (λ all. all ≡ drop number lines.now ++ take number lines.now) }
{
    let mut front: Sequence<Arc<String>> = lines.clone()?;
    let mut all = front.split_off(alloc, number)?;
    all.append(alloc, front)?;
    Ok(all)
}
