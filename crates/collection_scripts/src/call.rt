//! A line of a script.
use std::alloc::Global;
use std::fmt::Debug;
use std::io;
use std::io::Print;
use testing::counted::{Counted, Tally, counted_items};

/// A line of a script as a call. Each number that the line lacks is 0.
#[derive(Drop)]
pub struct Call<'a> {
    pub word: &'a str,
    pub text: &'a str,
    pub numbers: [usize; 5],
    count: usize,
    tally: &'a Tally,
}

impl<'a> Call<'a> {
    /// Reads a line: a word, and then numbers or a text.
    pub fn read(line: &'a str, tally: &'a Tally) -> Call<'a> {
        let (word, text) = line.split_once(' ').unwrap_or((line, ""));
        let mut numbers = [0; 5];
        let mut count = 0;
        for number in text.split(' ') {
            if count < numbers.len()
                && let Ok(number) = number.parse()
            {
                numbers[count] = number;
                count += 1;
            }
        }
        Call {
            word,
            text,
            numbers,
            count,
            tally,
        }
    }

    /// Creates an item of that value.
    pub fn item(&self, value: usize) -> Counted<'a> {
        Counted::new(self.tally, value as u64)
    }

    /// Creates the items 0, 1 and so on, as many as the first number says.
    pub fn items(&self, alloc: Global) -> Option<Vec<Counted<'a>>> {
        counted_items(alloc, self.tally, self.numbers[0] as u64)
    }

    /// Returns the numbers of the line from the index `from` on.
    pub fn path(&self, from: usize) -> &[usize] {
        self.numbers.get(from..self.count).unwrap_or(&[])
    }
}

/// A collection that a script calls.
pub trait Collection<'a>: Debug + Drop {
    /// Makes the call, and prints the value that it returns.
    fn answer<R: Print + AllocGlobal>(&mut self, rt: &R, call: &Call<'a>) -> io::Result<()>;
}

/// Prints a returned value as a line, in the form of `{:?}`.
pub fn tell(rt: &impl Print, answer: impl Debug + Drop) -> io::Result<()> {
    println!(rt; "{answer:?}")
}
