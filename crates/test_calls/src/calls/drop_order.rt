//! The order in which the values of a header slice are dropped.
use servo_arc::{Arc, BuildError, UniqueArc};
use std::alloc::{AllocError, Global};
use std::process::Abort;
use std::sync::atomic::AtomicU64;
use std::sync::atomic::Ordering::SeqCst;
use std::vec::IntoIter;
use testing::{ok, same_at};

/// The number of drops, and of those out of their turn.
#[derive(Default, Drop)]
struct Log {
    drops: AtomicU64,
    misplaced: AtomicU64,
}

impl Log {
    fn read(&self) -> (u64, u64) {
        (self.drops.load(SeqCst), self.misplaced.load(SeqCst))
    }
}

/// A value that has to be dropped after `turn` others.
struct Placed<'a> {
    turn: u64,
    log: &'a Log,
}

impl Drop for Placed<'_> {
    fn drop(self) {
        let Placed { turn, log } = self;
        if log.drops.fetch_add(1, SeqCst) != turn {
            log.misplaced.fetch_add(1, SeqCst);
        }
    }
}

// A number of values, of which the builder takes the first ones. The others are dropped with the iterator, at any time.
fn source_of<'a>(
    alloc: Global,
    (number, taken): (u64, u64),
    log: &'a Log,
    rest: &'a Log,
) -> Result<IntoIter<Placed<'a>>, AllocError> {
    let mut made = Vec::new(alloc);
    for turn in 0..number {
        let log = if turn < taken { log } else { rest };
        made.push(Placed { turn, log })?;
    }
    Ok(made.into_iter())
}

/// The requested number of items, the number that there is, and the error.
type Row = (usize, u64, Option<BuildError>);

const OVER: Option<BuildError> = Some(BuildError::OverReported);

const UNDER: Option<BuildError> = Some(BuildError::UnderReported);

static ROWS: &[Row; 11] = &[
    (3, 3, None),
    (3, 2, OVER),
    (1, 2, UNDER),
    (1, 3, UNDER),
    (0, 1, UNDER),
    (0, 0, None),
    (usize::MAX, 0, Some(BuildError::Memory)),
    (12, 12, None),
    (101, 100, OVER),
    (99, 100, UNDER),
    (5000, 5000, None),
];

// All items that were taken are dropped in turn, and then the header. Nothing is dropped before the slice.
fn check<T: Drop>(rt: &impl Abort, row: Row, log: &Log, built: Result<T, BuildError>) {
    let (_, items, refusal) = row;
    let all = items.wrapping_add(1);
    let before = if refusal.is_none() { 0 } else { all };
    let seen = (built.as_ref().err().copied(), log.read());
    same_at!(rt, row, seen, (refusal, (before, 0)));
    drop(built);
    same_at!(rt, row, log.read(), (all, 0));
}

fn check_row(rt: &(impl Abort + AllocGlobal), row: &Row, is_unique: bool) {
    let (num_items, number, refusal) = *row;
    let turn = number.min((num_items as u64).saturating_add(1));
    let (log, rest) = (Log::default(), Log::default());
    let items = ok!(rt, source_of(rt.alloc(), (number, turn), &log, &rest));
    let header = Placed { turn, log: &log };
    let taken = (num_items, turn, refusal);
    if is_unique {
        let built = UniqueArc::from_header_and_iter_with_size(rt.alloc(), header, items, num_items);
        check(rt, taken, &log, built);
    } else {
        let built = Arc::from_header_and_iter_with_size(rt.alloc(), header, items, num_items);
        check(rt, taken, &log, built);
    }
    same_at!(rt, row, rest.read().0, number.wrapping_sub(turn));
}

#[test]
fn drops_items_in_order_and_then_the_header(rt: HostRuntime) {
    for row in ROWS {
        check_row(&rt, row, false);
        check_row(&rt, row, true);
    }
}
