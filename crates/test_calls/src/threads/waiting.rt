//! Waiting for other threads, by a counter of those that have arrived. A thread that waits too long ends the process
//! with an error.
use std::process::Abort;
use std::sync::atomic::AtomicU64;
use std::sync::atomic::Ordering::SeqCst;

pub const MOST_TURNS: u64 = 100_000_000;

/// Returns `true` if `number` threads have arrived, in this turn of a waiting loop. The write to the counter takes
/// longer than a load, which leaves the others time to run.
pub fn have_come(rt: &impl Abort, came: &AtomicU64, number: u64, turn: u64) -> bool {
    assert!(rt; turn < MOST_TURNS, "another thread did not come");
    came.fetch_add(0, SeqCst) >= number
}

pub fn wait_for(rt: &impl Abort, came: &AtomicU64, number: u64) {
    for turn in 0..=MOST_TURNS {
        if have_come(rt, came, number, turn) {
            return;
        }
    }
}

/// Arrives and waits for the others, so that all threads continue at once.
pub fn arrive(rt: &impl Abort, came: &AtomicU64, number: u64) {
    came.fetch_add(1, SeqCst);
    wait_for(rt, came, number)
}
