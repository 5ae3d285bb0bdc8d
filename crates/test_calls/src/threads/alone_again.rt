//! A handle asks whether it is unique while another thread drops the other handle of its block. It is not unique before
//! the drop, and is afterwards. In between both answers are possible.
use crate::made::arc_of;
use crate::threads::waiting::{MOST_TURNS, have_come, wait_for};
use servo_arc::{Arc, UniqueArc};
use std::process::Abort;
use std::sync::atomic::AtomicU64;
use std::sync::atomic::Ordering::SeqCst;
use std::thread;
use testing::{again, same_at};

const ROUNDS: u64 = 1000;

// The two threads take turns: one has asked, and the other has dropped its handle.
const ASKED: u64 = 1;

const GONE: u64 = 2;

fn drop_once_asked(rt: &impl Abort, steps: &AtomicU64, handle: Arc<u64>) {
    wait_for(rt, steps, ASKED);
    drop(handle);
    steps.fetch_add(1, SeqCst);
}

fn write_when_alone(rt: &impl Abort, steps: &AtomicU64, mut handle: Arc<u64>) -> bool {
    let was_refused = Arc::get_mut(&mut handle).is_none();
    steps.fetch_add(1, SeqCst);
    for turn in 0..=MOST_TURNS {
        if have_come(rt, steps, GONE, turn) {
            break;
        }
        if let Some(value) = Arc::get_mut(&mut handle) {
            *value = 3;
        }
    }
    match Arc::get_mut(&mut handle) {
        Some(value) => *value = 2,
        None => return false,
    }
    was_refused && *handle == 2
}

fn unique_at_last(rt: &impl Abort, steps: &AtomicU64, handle: Arc<u64>) -> Option<UniqueArc<u64>> {
    let mut handle = Arc::into_unique(handle).err()?;
    steps.fetch_add(1, SeqCst);
    for turn in 0..=MOST_TURNS {
        if have_come(rt, steps, GONE, turn) {
            break;
        }
        handle = match Arc::into_unique(handle) {
            Ok(unique) => unique.shareable(),
            Err(handle) => handle,
        };
    }
    Arc::into_unique(handle).ok()
}

fn write_once_unique(rt: &impl Abort, steps: &AtomicU64, handle: Arc<u64>) -> bool {
    match unique_at_last(rt, steps, handle) {
        Some(mut unique) => {
            *unique = 2;
            *unique.shareable() == 2
        }
        None => false,
    }
}

// The rounds use `get_mut` and `into_unique` in turn.
#[test]
fn a_handle_writes_once_the_other_is_gone(rt: HostRuntime) {
    for round in 0..2 * ROUNDS {
        let steps = AtomicU64::new(0);
        let a = arc_of(&rt, 1u64);
        let b = again!(&rt, &a);
        let (is_written, ()) = thread::join(
            &rt,
            || match round % 2 {
                0 => write_when_alone(&rt, &steps, a),
                _ => write_once_unique(&rt, &steps, a),
            },
            || drop_once_asked(&rt, &steps, b),
        );
        same_at!(&rt, round, is_written, true);
    }
}
