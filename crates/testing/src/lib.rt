//! Macros and values for tests. `assert!` and `?` may end a test early, with all its variables, and each such end makes
//! the proof of the test longer. The macros here end the process inside one call instead, and print the expression. No
//! library may end the process, so that call is in the module `ending` of the crate that uses the macros.
#![tactic(auto)]

pub mod counted;
pub mod opened;

ghost use Rattle.std.specs.Prelude.{IsOk, IsTrue};

use servo_arc::{Arc, UniqueArc};
use std::fmt::Debug;

/// The bytes of a call stack that is enough for a recursion into some thousands of nodes, and not into more.
pub const SMALL_STACK: usize = 0x4_0000;

/// Two values that should be equal.
#[derive(Debug, Drop)]
pub struct Differ<T> {
    found: T,
    expected: T,
}

/// Returns an error with both values if `found` does not equal `expected`.
pub fn compared<T: PartialEq + Debug + Drop>(found: T, expected: T) -> Result<(), Differ<T>>
    ensures { IsOk result → IsTrue (T.eq found expected) }
{
    if found == expected {
        Ok(())
    } else {
        Err(Differ { found, expected })
    }
}

/// Shares a new unique handle, or returns the error.
pub fn shared<T: Drop, E>(made: Result<UniqueArc<T>, E>) -> Result<Arc<T>, E> {
    match made {
        Ok(unique) => Ok(unique.shareable()),
        Err(refusal) => Err(refusal),
    }
}

/// Ends the process unless the fact is true: `holds!(&rt, handle.is_unique())`.
#[macro_export]
macro_rules! holds {
    ($rt:expr, $fact:expr $(,)?) => {
        crate::ending::hold($rt, $fact, stringify!($fact))
    };
}

/// Ends the process unless both values are equal: `same!(&rt, found, expected)`.
#[macro_export]
macro_rules! same {
    ($rt:expr, $found:expr, $expected:expr $(,)?) => {
        crate::ending::same($rt, $found, $expected, stringify!($found))
    };
}

/// Does the same as `same`, and prints the row of a table too.
#[macro_export]
macro_rules! same_at {
    ($rt:expr, $row:expr, $found:expr, $expected:expr $(,)?) => {
        crate::ending::same($rt, ($row, $found), ($row, $expected), stringify!($found))
    };
}

/// Returns the value of a call that has to succeed: `let stack = ok!(&rt, stack.push(alloc, 9));`.
#[macro_export]
macro_rules! ok {
    ($rt:expr, $given:expr $(,)?) => {
        crate::ending::given($rt, $given, stringify!($given))
    };
}

/// Returns a clone, which has to succeed: `again!(&rt, key)`.
#[macro_export]
macro_rules! again {
    ($rt:expr, $value:expr $(,)?) => {
        crate::ending::given($rt, ($value).clone(), stringify!($value))
    };
}

/// Builds a vector of commands, and the replies that they should get.
#[macro_export]
macro_rules! served {
    ($rt:expr; $($command:expr => $reply:expr),* $(,)?) => {{
        let replies: &[servo_arc::table::Reply] = &[$($reply),*];
        let commands = vec![in $rt.alloc(); $($command),*];
        (crate::ending::given($rt, commands, "commands"), replies)
    }};
}

/// Builds a row of a table: a name, and calls in turn, each with its caller and perhaps with what holds after it.
#[macro_export]
macro_rules! turns {
    ($name:literal; $($who:ident $call:expr $(=> $($after:expr),+)?);* $(;)?) => {
        ($name, &[$(($who, $call $($(, $after)+)?)),*])
    };
}
