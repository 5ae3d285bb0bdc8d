//! How the macros of `testing` end the process.
ghost use Rattle.std.specs.Prelude.{◌≡◌, IsTrue, Ok};

use std::fmt::Debug;
use std::process::Abort;
use testing::compared;

pub fn hold(rt: &impl Abort, fact: bool, text: &str)
    ensures { IsTrue fact }
{
    assert!(rt; fact, "{text}")
}

pub fn same<T: PartialEq + Debug + Drop>(rt: &impl Abort, found: T, expected: T, text: &str)
    ensures { IsTrue (T.eq found expected) }
{
    compared(found, expected).expect(rt, text)
}

pub fn given<T, E: Drop>(rt: &impl Abort, given: Result<T, E>, text: &str) -> T
    ensures { given ≡ Ok result }
{
    given.ok().expect(rt, text)
}
