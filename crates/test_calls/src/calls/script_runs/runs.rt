//! Runs of the program.
use scripts::bench;
use servo_arc::table::Table;
use std::alloc::Global;
use std::fmt::Debug;
use std::io::Read;
use std::process::Abort;
use testing::same_at;

/// What a run wrote, and how it ended.
#[derive(Drop)]
pub struct Ran {
    pub output: Vec<u8>,
    pub errors: Vec<u8>,
    pub status: u8,
}

impl Ran {
    /// Checks the output, the errors and the status.
    pub fn check<R: Debug + PartialEq + Copy + Drop>(
        self,
        rt: &impl Abort,
        row: R,
        output: &[u8],
        errors: &[u8],
        status: u8,
    ) {
        let seen = (self.output.as_slice(), self.errors.as_slice(), self.status);
        same_at!(rt, row, seen, (output, errors, status));
    }
}

pub fn run_from(alloc: Global, words: &[&str], input: &mut impl Read) -> Ran {
    let (mut output, mut errors) = (Vec::new(alloc), Vec::new(alloc));
    let status = bench::<Table<u32>, _, _, _, _>(alloc, words, input, &mut output, &mut errors);
    Ran {
        output,
        errors,
        status,
    }
}
