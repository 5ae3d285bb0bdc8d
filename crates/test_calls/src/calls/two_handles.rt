//! Calls on two handles of one block, whose value counts its copies and drops.
use self::Answer::*;
use self::Call::*;
use self::Who::{A, B};
use crate::made::arc_of;
use servo_arc::Arc;
use std::alloc::Global;
use std::mem::replace;
use std::process::Abort;
use testing::counted::{Counted, Tally};
use testing::{again, ok, same_at, turns};

type Slot<'a> = Option<Arc<Counted<'a>>>;

#[derive(Clone, Copy)]
enum Call {
    Read,
    IsUnique,
    IsStatic,
    // Whether both handles have one block.
    PtrEq,
    Mark,
    // Whether the value is lent. If so, the number is written.
    GetMut(u64),
    // The old value. Then the number is written.
    MakeMut(u64),
    // Whether the handle becomes unique. If so, the number is written, and the handle is shared again.
    IntoUnique(u64),
    // The value, which is then dropped.
    IntoInner,
    // The value, which is then dropped. The handle stays if it is not the only one.
    TryUnwrap,
    // The value or a copy of it, which is then dropped.
    UnwrapOrClone,
    // Whether `find_static` finds the block static.
    FindStatic,
    // The value of the handle, which then is static.
    IntoStatic,
    End,
}

#[derive(Clone, Copy, Debug, PartialEq)]
enum Answer {
    Done,
    Is(bool),
    Value(u64),
    Nothing,
}

fn answered(alloc: Global, slot: &mut Slot<'_>, call: Call) -> Option<Answer> {
    let handle = slot.as_mut()?;
    Some(match call {
        Read => Value(handle.value),
        IsUnique => Is(handle.is_unique()),
        IsStatic => Is(handle.is_static()),
        FindStatic => Is(handle.find_static().is_some()),
        Mark => {
            handle.mark_as_intentionally_leaked();
            Done
        }
        GetMut(number) => {
            let value = Arc::get_mut(handle);
            Is(value.map(|value| value.value = number).is_some())
        }
        MakeMut(number) => {
            let value = Arc::make_mut(handle, alloc).ok()?;
            Value(replace(&mut value.value, number))
        }
        _ => return answered_by_spending(slot, call),
    })
}

fn answered_by_spending(slot: &mut Slot<'_>, call: Call) -> Option<Answer> {
    let handle = slot.take()?;
    Some(match call {
        IntoUnique(number) => match Arc::into_unique(handle) {
            Ok(mut unique) => {
                unique.value = number;
                *slot = Some(unique.shareable());
                Is(true)
            }
            Err(handle) => {
                *slot = Some(handle);
                Is(false)
            }
        },
        IntoInner => Arc::into_inner(handle).map_or(Nothing, |value| Value(value.value)),
        TryUnwrap => match Arc::try_unwrap(handle) {
            Ok(value) => Value(value.value),
            Err(handle) => {
                *slot = Some(handle);
                Nothing
            }
        },
        UnwrapOrClone => Value(Arc::unwrap_or_clone(handle).ok()?.value),
        IntoStatic => Value(handle.into_static().value),
        _ => Done,
    })
}

fn is_one_block<'a>(a: &Slot<'a>, b: &Slot<'a>) -> bool {
    match (a.as_ref(), b.as_ref()) {
        (Some(a), Some(b)) => Arc::ptr_eq(a, b),
        _ => false,
    }
}

#[derive(Clone, Copy)]
enum Who {
    A,
    B,
}

/// Whose call it is, the call, its answer, and how often the value was copied and dropped by then.
type Row = (Who, Call, Answer, [u64; 2]);

fn check<'a>(
    rt: &(impl Abort + AllocGlobal),
    tally: &'a Tally,
    handle: Arc<Counted<'a>>,
    (name, rows): &Rows,
) {
    let mut b = Some(again!(rt, &handle));
    let mut a = Some(handle);
    for (number, (who, call, answer, counts)) in rows.iter().enumerate() {
        let found = match (who, call) {
            (_, PtrEq) => Some(Is(is_one_block(&a, &b))),
            (A, _) => answered(rt.alloc(), &mut a, *call),
            (B, _) => answered(rt.alloc(), &mut b, *call),
        };
        let seen = (found, [tally.copies(), tally.drops()]);
        same_at!(rt, (name, number), seen, (Some(*answer), *counts));
    }
}

/// A name, and what is called on two handles of one block.
type Rows = (&'static str, &'static [Row]);

static ROWS: &[Rows; 9] = &[
    turns!["the last handle drops the value";
        A Read => Value(5), [0, 0]; B Read => Value(5), [0, 0]; A End => Done, [0, 0]; B Read => Value(5), [0, 0];
        B End => Done, [0, 1]],
    turns!["a shared value is not written";
        A GetMut(6) => Is(false), [0, 0]; A Read => Value(5), [0, 0]; B Read => Value(5), [0, 0];
        A PtrEq => Is(true), [0, 0]; A IsUnique => Is(false), [0, 0]; B IsUnique => Is(false), [0, 0];
        B End => Done, [0, 0]; A IsUnique => Is(true), [0, 0]; A GetMut(6) => Is(true), [0, 0];
        A Read => Value(6), [0, 0]],
    turns!["a shared value is copied once to be written";
        A MakeMut(9) => Value(5), [1, 0]; A Read => Value(9), [1, 0]; B Read => Value(5), [1, 0];
        A PtrEq => Is(false), [1, 0]; A IsUnique => Is(true), [1, 0]; B IsUnique => Is(true), [1, 0];
        A MakeMut(9) => Value(9), [1, 0]; A End => Done, [1, 1]; B End => Done, [1, 2]],
    turns!["a mark may be set twice";
        A IsStatic => Is(false), [0, 0]; A Mark => Done, [0, 0]; B Mark => Done, [0, 0];
        A IsStatic => Is(true), [0, 0]; B IsStatic => Is(true), [0, 0]; A IntoInner => Nothing, [0, 0];
        B IntoUnique(6) => Is(false), [0, 0]],
    turns!["a shared handle is not unique";
        A IntoUnique(6) => Is(false), [0, 0]; A Read => Value(5), [0, 0]; B Read => Value(5), [0, 0];
        A PtrEq => Is(true), [0, 0]; B IsUnique => Is(false), [0, 0]; A End => Done, [0, 0];
        B IntoUnique(6) => Is(true), [0, 0]; B End => Done, [0, 1]],
    turns!["the last handle gives the value"; A IntoInner => Nothing, [0, 0]; B IntoInner => Value(5), [0, 1]],
    turns!["only the last handle gives the value, and another one a copy";
        A TryUnwrap => Nothing, [0, 0]; A UnwrapOrClone => Value(5), [1, 1]; B IsUnique => Is(true), [1, 1];
        B TryUnwrap => Value(5), [1, 2]],
    turns!["the last handle gives no copy"; B End => Done, [0, 0]; A UnwrapOrClone => Value(5), [0, 1]],
    turns!["a handle stays for good, and marks the block";
        A FindStatic => Is(false), [0, 0]; A IsStatic => Is(false), [0, 0]; A IntoStatic => Value(5), [0, 0];
        B FindStatic => Is(true), [0, 0]; B IsStatic => Is(true), [0, 0]; B TryUnwrap => Nothing, [0, 0];
        B UnwrapOrClone => Value(5), [1, 1]],
];

static LEAKED: &Rows = &turns!["a marked block is left as it is";
    A IsStatic => Is(true), [0, 0]; A IsUnique => Is(false), [0, 0]; A GetMut(4) => Is(false), [0, 0];
    A MakeMut(4) => Value(3), [1, 0]; A Read => Value(4), [1, 0]; A IsStatic => Is(false), [1, 0];
    B Read => Value(3), [1, 0]; B IsStatic => Is(true), [1, 0]; B End => Done, [1, 0]; A End => Done, [1, 1]];

static STATIC: &Rows = &turns!["the only handle of a marked block is not alone";
    B End => Done, [0, 0]; A Read => Value(3), [0, 0]; A IsStatic => Is(true), [0, 0]; A IsUnique => Is(false), [0, 0];
    A GetMut(4) => Is(false), [0, 0]];

#[test]
fn two_handles_are_answered_in_turn(rt: HostRuntime) {
    for rows in ROWS {
        let tally = Tally::new();
        let handle = arc_of(&rt, Counted::new(&tally, 5));
        check(&rt, &tally, handle, rows);
    }
}

#[test]
fn two_handles_of_a_marked_block_are_answered_in_turn(rt: HostRuntime) {
    let (tally, static_tally) = (Tally::new(), Tally::new());
    let leaked = Arc::new_leaked(rt.alloc(), Counted::new(&tally, 3));
    check(&rt, &tally, ok!(&rt, leaked), LEAKED);
    let kept = Arc::new_static(rt.alloc(), Counted::new(&static_tally, 3));
    check(&rt, &static_tally, ok!(&rt, kept), STATIC);
    let leaked = Arc::new_leaked(rt.alloc(), Counted::new(&static_tally, 3));
    check(&rt, &static_tally, ok!(&rt, leaked), STATIC);
}
