//! The faults that end a run before the end of its script.
ghost use Rattle.std.specs.Prelude.{◌≡◌, []};
ghost use Rattle.scripts.specs.Written.{WroteBeginning};
ghost use Rattle.scripts.specs.declared.fault.Fault.TheVariants as Fault;

use crate::output::write_whole;
use std::alloc::{AllocError, AllocFailed};
use std::io::Write;

/// A fault that ended a run: `Fault::Line(2)`. `Line` is reported as the last line of the output, `Output` is not
/// reported, and the others are reported on standard error.
#[derive(Clone, Copy, Debug, PartialEq, Eq)]
pub enum Fault {
    /// The arguments are wrong.
    Arguments,
    /// The line with this number is faulty. The first line is line 1.
    Line(u64),
    /// The script cannot be read.
    Input,
    /// The output cannot be written.
    Output,
    /// Memory that the run itself needs cannot be allocated. Memory that one line needs is no fault.
    Memory,
}

impl From<AllocError> for Fault {
    ghost from_gives = { λ _ fault. fault ≡ Fault.Memory };

    fn from(_error: AllocError) -> Fault {
        Fault::Memory
    }
}

impl<T: Drop> From<AllocFailed<T>> for Fault {
    ghost from_gives = { λ _ fault. fault ≡ Fault.Memory };

    fn from(_refusal: AllocFailed<T>) -> Fault {
        Fault::Memory
    }
}

impl Fault {
    ghost use Rattle.scripts.specs.Fault.{note_of, status_of};

    /// Returns the exit status that reports the fault.
    fn status(self) -> u8
        ensures { result ≡ status_of self }
    {
        match self {
            Fault::Arguments => 1,
            Fault::Line(_) => 2,
            Fault::Input => 3,
            Fault::Output => 4,
            Fault::Memory => 5,
        }
    }

    /// Returns the line for standard error, which is empty if there is none.
    fn note(self) -> &'static str
        ensures { result.now ≡ note_of self }
    {
        match self {
            Fault::Arguments => "fault: arguments\n",
            Fault::Input => "fault: input\n",
            Fault::Memory => "fault: memory\n",
            Fault::Line(_) | Fault::Output => "",
        }
    }

    /// Writes the fault to standard error, if it is reported there, and returns its exit status:
    /// `fault.report(errors)`. A failed write does not change the status.
    pub fn report<E: Write>(self, errors: &mut E) -> u8
        ensures status { result ≡ status_of self }
        ensures quiet { note_of self ≡ [] → errors.new ≡ errors.old }
        ensures reported { WroteBeginning (note_of self)
            (E.contents errors.old) (E.contents errors.new) }
    {
        let _ = write_whole(self.note().as_bytes(), errors);
        self.status()
    }
}
