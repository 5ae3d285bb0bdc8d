//! Readers and writers that fail at a chosen call.
ghost use Rattle.std.specs.Prelude.{None};
ghost use Rattle.std.specs.Io.{ReadsAtMost, WritesAtMost};
ghost use Rattle.std.specs.Io.KnownBytes.{ReadConsumes};

use std::alloc::Global;
use std::io;
use std::io::{ErrorKind, Read, Write};

/// Gives so many bytes of a script at each read, and fails at one read.
#[derive(Drop)]
pub struct FailingReader<'a> {
    script: &'a [u8],
    most: usize,
    reads_before: usize,
    has_failed: bool,
}

impl<'a> FailingReader<'a> {
    pub fn new(script: &'a [u8], most: usize, reads_before: usize) -> Self {
        FailingReader {
            script,
            most,
            reads_before,
            has_failed: false,
        }
    }
}

impl Read for FailingReader<'_> {
    fn read(&mut self, buf: &mut [u8]) -> io::Result<usize>
        ensures bound { ReadsAtMost result buf.new }
        ensures bytes { ReadConsumes None None result buf.new }
    {
        if self.reads_before == 0 && !self.has_failed {
            self.has_failed = true;
            return Err(io::Error::from(ErrorKind::Other));
        }
        self.reads_before = self.reads_before.saturating_sub(1);
        let mut part = self.script.get(..self.most).unwrap_or(self.script);
        let count = part.read(buf)?;
        self.script = self.script.get(count..).unwrap_or_default();
        Ok(count)
    }
}

/// Holds what is written, and whether it is flushed. It fails at one write or flush.
#[derive(Drop)]
pub struct FailingWriter {
    pub held: Vec<u8>,
    pub has_failed: bool,
    pub is_flushed: bool,
    calls_before: usize,
}

impl FailingWriter {
    pub fn new(alloc: Global, calls_before: usize) -> Self {
        FailingWriter {
            held: Vec::new(alloc),
            has_failed: false,
            is_flushed: false,
            calls_before,
        }
    }

    fn fail_in_turn(&mut self) -> io::Result<()> {
        if self.calls_before == 0 && !self.has_failed {
            self.has_failed = true;
            return Err(io::Error::from(ErrorKind::BrokenPipe));
        }
        self.calls_before = self.calls_before.saturating_sub(1);
        Ok(())
    }
}

impl Write for FailingWriter {
    fn write(&mut self, buf: &[u8]) -> io::Result<usize>
        ensures { WritesAtMost result buf.now }
    {
        self.is_flushed = false;
        self.fail_in_turn()?;
        self.held.write(buf)
    }

    fn flush(&mut self) -> io::Result<()> {
        self.fail_in_turn()?;
        self.is_flushed = true;
        Ok(())
    }
}
