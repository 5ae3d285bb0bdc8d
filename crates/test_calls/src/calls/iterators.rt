//! How often a builder calls the iterator, and what it builds of the items.
ghost use Rattle.std.specs.Prelude.{◌≤◌};

use servo_arc::{Arc, BuildError, ThinArc, UniqueArc};
use std::alloc::{AllocError, Global};
use std::fmt::Debug;
use std::process::Abort;
use std::sync::atomic::AtomicU64;
use std::sync::atomic::Ordering::SeqCst;
use std::vec::IntoIter;
use testing::counted::{Counted, Tally};
use testing::{ok, same, same_at, shared};

// Returns these answers in turn and then only `None`, so it can return an item after a `None`. Counts the calls.
#[derive(Drop)]
struct Answers<'a, T> {
    left: IntoIter<Option<T>>,
    asked: &'a AtomicU64,
}

impl<T: Drop> Iterator for Answers<'_, T> {
    type Item = T;

    fn next(&mut self) -> Option<T> {
        self.asked.fetch_add(1, SeqCst);
        self.left.next()?
    }
}

/// A number of items, the answers of the iterator in turn, the slice or error that is built, and the number of calls.
type Row<'a, T> = (usize, &'a [Option<T>], Result<&'a [T], BuildError>, u64);

fn source_of<'a, T: Copy>(
    alloc: Global,
    answers: &[Option<T>],
    asked: &'a AtomicU64,
) -> Result<Answers<'a, T>, AllocError> {
    Ok(Answers {
        left: answers.to_vec(alloc)?.into_iter(),
        asked,
    })
}

type Built<T> = Result<ThinArc<u8, T>, BuildError>;

// Resets the number of calls, for the next builder.
fn check_built<T: Debug + PartialEq + Drop>(
    rt: &impl Abort,
    row: &Row<'_, T>,
    built: Built<T>,
    asked: &AtomicU64,
) {
    let (num_items, _, expected, asks) = row;
    match built {
        Ok(slice) => same_at!(rt, *num_items, Ok(slice.slice()), *expected),
        Err(refusal) => same_at!(rt, *num_items, Err(refusal), *expected),
    }
    same_at!(rt, *num_items, asked.swap(0, SeqCst), *asks);
}

// Checks a row by both constructors.
fn check<T: Copy + Debug + PartialEq + Drop>(rt: &(impl Abort + AllocGlobal), row: &Row<'_, T>) {
    let (num_items, answers, ..) = *row;
    let asked = AtomicU64::new(0);
    let source = ok!(rt, source_of(rt.alloc(), answers, &asked));
    let built = Arc::from_header_and_iter_with_size(rt.alloc(), 7u8, source, num_items);
    check_built(rt, row, built, &asked);
    let source = ok!(rt, source_of(rt.alloc(), answers, &asked));
    let built = UniqueArc::from_header_and_iter_with_size(rt.alloc(), 7u8, source, num_items);
    check_built(rt, row, shared(built), &asked);
}

const OVER: BuildError = BuildError::OverReported;

const UNDER: BuildError = BuildError::UnderReported;

static ROWS: &[Row<'static, u64>; 12] = &[
    (3, &[Some(1), Some(2)], Err(OVER), 3),
    (2, &[Some(1), Some(2), Some(3)], Err(UNDER), 3),
    (0, &[Some(1)], Err(UNDER), 1),
    (0, &[], Ok(&[]), 1),
    (1, &[Some(1), None, Some(2)], Ok(&[1]), 2),
    (2, &[Some(1), None, Some(2)], Err(OVER), 2),
    (2, &[Some(1), Some(2), None, Some(3)], Ok(&[1, 2]), 3),
    (3, &[Some(1), None, Some(2), Some(3)], Err(OVER), 2),
    (0, &[None, Some(1)], Ok(&[]), 1),
    (1, &[Some(1), Some(2), Some(3)], Err(UNDER), 2),
    (usize::MAX, &[Some(1)], Err(BuildError::Memory), 0),
    (usize::MAX / 8, &[Some(1)], Err(BuildError::Memory), 0),
];

#[test]
fn asks_once_more_and_never_after_none(rt: HostRuntime) {
    for row in ROWS {
        check(&rt, row);
    }
}

static WITHOUT_SIZE: &[Row<'static, ()>; 2] = &[
    (3, &[Some(()), Some(()), Some(())], Ok(&[(), (), ()]), 4),
    (usize::MAX, &[Some(()), Some(())], Err(OVER), 3),
];

#[test]
fn takes_items_without_size(rt: HostRuntime) {
    for row in WITHOUT_SIZE {
        check(&rt, row);
    }
}

// Claims more items than it yields, and counts the calls of `len`.
#[derive(Drop)]
struct Boasting<'a> {
    claimed: usize,
    left: u8,
    asked: &'a AtomicU64,
    ghost enough: { left ≤ claimed },
}

impl Iterator for Boasting<'_> {
    ghost use Rattle.std.specs.Iterator.{at_most};

    type Item = u8;

    ghost remaining = { λ b. at_most b.claimed };

    fn next(&mut self) -> Option<u8> {
        if self.left == 0 {
            return None;
        }
        *self = Boasting {
            claimed: self.claimed - 1,
            left: self.left - 1,
            asked: self.asked,
        };
        Some(self.left)
    }
}

impl ExactSizeIterator for Boasting<'_> {
    fn len(&self) -> usize {
        self.asked.fetch_add(1, SeqCst);
        self.claimed
    }
}

fn boaster(claimed: usize, asked: &AtomicU64) -> Boasting<'_> {
    Boasting {
        claimed: claimed.max(3),
        left: 3,
        asked,
    }
}

static BOASTS: &[Row<'static, u8>; 2] = &[(3, &[], Ok(&[2, 1, 0]), 1), (4, &[], Err(OVER), 1)];

#[test]
fn asks_the_iterator_for_the_number_once(rt: HostRuntime) {
    for row in BOASTS {
        let asked = AtomicU64::new(0);
        let built = Arc::from_header_and_iter(rt.alloc(), 1u8, boaster(row.0, &asked));
        check_built(&rt, row, built, &asked);
        let built = UniqueArc::from_header_and_iter(rt.alloc(), 1u8, boaster(row.0, &asked));
        check_built(&rt, row, shared(built), &asked);
        let results = boaster(row.0, &asked).map(Ok);
        let built = Arc::try_from_header_and_iter(rt.alloc(), 1u8, results);
        check_built(&rt, row, built, &asked);
    }
}

// If the iterator ends early or yields an error, the items that were taken are dropped, then the header, and the
// iterator too.
#[test]
fn drops_what_was_taken_of_results(rt: HostRuntime) {
    let (asked, headers, items) = (AtomicU64::new(0), Tally::new(), Tally::new());
    let results = boaster(4, &asked).map(|_: u8| Ok(Counted::new(&items, 0)));
    let built = Arc::try_from_header_and_iter(rt.alloc(), Counted::new(&headers, 0), results);
    let seen = (built.err(), headers.drops(), items.drops());
    same!(&rt, seen, (Some(OVER), 1, 3));
    let results = [
        Ok(Counted::new(&items, 5)),
        Err(UNDER),
        Ok(Counted::new(&items, 6)),
    ];
    let (header, results) = (Counted::new(&headers, 9), results.into_iter());
    let built = Arc::try_from_header_and_iter(rt.alloc(), header, results);
    let seen = (built.err(), headers.drops(), items.drops());
    same!(&rt, seen, (Some(UNDER), 2, 5));
    let item = || Some(Counted::new(&items, 7));
    let left = ok!(&rt, vec![in rt.alloc(); item(), None, item()]).into_iter();
    let asked = &asked;
    let built = Arc::from_header_and_iter_with_size(rt.alloc(), 7u8, Answers { left, asked }, 2);
    same!(&rt, (built.err(), items.drops()), (Some(OVER), 7));
}
