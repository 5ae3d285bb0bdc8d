//! A shared value that a writer replaces as a whole, under a lock. Readers keep the version (snapshot) that they took.
ghost use Rattle.std.specs.Prelude.{◌≡◌, ◌≤◌, IfOk};

use servo_arc::{Arc, Full};
use std::mem;
use std::sync::{RwLock, Wait};

/// Two limits. Their relation is a ghost field of the type, since no contract can name the value under a lock.
#[derive(Drop)]
pub struct Limits {
    pub low: u32,
    pub high: u32,
    ghost ordered: { low ≤ high },
}

/// Returns the current version. The lock is held for one `clone` of the handle, however long the version is then read.
pub fn latest(rt: &impl Wait, limits: &RwLock<Arc<Limits>>) -> Result<Arc<Limits>, Full>
    ensures { IfOk result (λ latest. latest.low ≤ latest.high) }
{
    Arc::clone(&limits.read(rt), rt)
}

/// Replaces the current version by `next`. The old one is dropped after the lock is released, unless a reader has it.
pub fn replace(rt: &impl Wait, limits: &RwLock<Arc<Limits>>, next: Arc<Limits>) {
    let old = swapped(&mut limits.write(rt), next);
    drop(old);
}

/// Returns the old version. A contract of a change under a lock needs a function that borrows what the lock guards.
fn swapped(current: &mut Arc<Limits>, next: Arc<Limits>) -> Arc<Limits>
    ensures put { current.new ≡ next }
    ensures given { result ≡ current.old }
{
    mem::replace(current, next)
}
