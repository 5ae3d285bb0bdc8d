//! The worked rows of the shared count, on one thread.
ghost use Rattle.std.specs.Prelude.{◌≡◌};

use self::Call::{Mark, Owned, Static, Unique};
use self::Who::{P, Q};
use servo_arc::shared_count::{CountPass, EndReply, SharedCount, TryClone};
use std::process::Abort;
use testing::opened::{open_one, open_two};
use testing::{holds, ok, same_at, turns};

/// A call with its answer.
#[derive(Clone, Copy, Debug, PartialEq)]
enum Call {
    Clone(TryClone),
    End(EndReply),
    Mark,
    Unique(bool),
    Static(bool),
    Owned(u64),
}

const BORN: Call = Call::Clone(TryClone::Born);

const ENDED: Call = Call::End(EndReply::Ended);

const LAST: Call = Call::End(EndReply::Last);

/// A capability, with the count that it belongs to.
#[derive(Drop)]
struct Caller<'a> {
    count: &'a SharedCount,
    pass: CountPass,
    ghost own: { pass.count ≡ count.now },
}

impl<'a> Caller<'a> {
    fn of(count: &'a SharedCount, pass: CountPass) -> Caller<'a>
        requires { pass.count ≡ count.now }
    {
        Caller { count, pass }
    }

    /// Returns the call with the answer that it gets, or `None` if the capability owns no handle.
    fn answered(&mut self, call: Call) -> Option<Call> {
        let owned = self.pass.owned();
        if owned == 0 || owned == u64::MAX {
            return (call == Owned(owned)).then_some(call);
        }
        match call {
            Call::Clone(_) => Some(Call::Clone(self.count.try_clone(&mut self.pass))),
            Call::End(_) => Some(Call::End(self.count.end(&mut self.pass))),
            Mark => {
                self.count.mark(&mut self.pass);
                Some(Mark)
            }
            Unique(_) => Some(Unique(self.count.is_unique(&mut self.pass))),
            Static(_) => Some(Static(self.count.is_static(&mut self.pass))),
            Owned(_) => Some(Owned(owned)),
        }
    }
}

#[derive(Clone, Copy)]
enum Who {
    P,
    Q,
}

/// Who calls, and the call.
type Row = (Who, Call);

fn check(rt: &impl Abort, mut p: Caller<'_>, mut q: Caller<'_>, (name, rows): &Rows) {
    for (number, (who, call)) in rows.iter().enumerate() {
        let found = match who {
            P => p.answered(*call),
            Q => q.answered(*call),
        };
        same_at!(rt, (name, number), found, Some(*call));
    }
}

/// A name, and calls of two passes.
type Rows = (&'static str, &'static [Row]);

/// Calls of the two capabilities of one count.
static TOGETHER: &[Rows; 2] = &[
    turns!["two passes see each other in the replies";
        P Unique(false); Q ENDED; P Unique(true); P BORN; P Unique(false); P Mark; P Static(true); P ENDED; P ENDED],
    // A clone that used the count which `is_unique` had read would be `Overtaken` here.
    turns!["a clone reads the word anew"; P Unique(false); Q ENDED; P BORN; P Owned(2); P ENDED; P LAST],
];

/// Calls of two capabilities, each the only one of its count.
const APART: &[Rows; 3] = &[
    turns!["a pass alone is unique and ends last";
        P Owned(1); P BORN; P Owned(2); P ENDED; P Unique(true); P LAST; P Owned(0)],
    turns!["a pass alone ends last"; P LAST],
    turns!["two counts know nothing of each other"; P Mark; Q Unique(true); Q LAST; P Static(true); P ENDED],
];

static MET: &Rows =
    &turns!["a marked count never ends last"; P Static(true); Q ENDED; Q ENDED; P ENDED];

#[test]
fn passes_are_answered_in_turn(rt: HostRuntime) {
    for rows in TOGETHER {
        let (count, p, q) = ok!(&rt, open_two(rt.alloc()));
        let (p, q) = (Caller::of(&count, p), Caller::of(&count, q));
        check(&rt, p, q, rows);
    }
    for rows in APART {
        let (one, p) = ok!(&rt, open_one(rt.alloc()));
        let (two, q) = ok!(&rt, open_one(rt.alloc()));
        check(&rt, Caller::of(&one, p), Caller::of(&two, q), rows);
    }
}

#[test]
fn a_marked_count_never_ends_last(rt: HostRuntime) {
    let (count, mut p, mut q) = ok!(&rt, open_two(rt.alloc()));
    count.mark(&mut p);
    holds!(&rt, count.try_clone(&mut q) == TryClone::Born);
    count.meet(&mut p, &mut q);
    check(&rt, Caller::of(&count, p), Caller::of(&count, q), MET);
}

#[test]
fn the_handles_of_a_dropped_pass_stay_counted(rt: HostRuntime) {
    let (count, mut p, q) = ok!(&rt, open_two(rt.alloc()));
    drop(q);
    holds!(&rt, !count.is_unique(&mut p));
    holds!(&rt, count.end(&mut p) == EndReply::Ended);
}
