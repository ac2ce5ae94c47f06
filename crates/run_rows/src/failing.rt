//! A reader and a writer that fail.

use std::io;
use std::io::{Read, Write};

/// Gives some bytes, and then fails.
#[derive(Drop)]
pub(super) struct FailingReader<'a> {
    left: &'a [u8],
}

impl<'a> FailingReader<'a> {
    pub(super) fn new(bytes: &'a [u8]) -> FailingReader<'a> {
        FailingReader { left: bytes }
    }
}

impl Read for FailingReader<'_> {
    fn read(&mut self, buf: &mut [u8]) -> io::Result<usize> {
        if self.left.is_empty() {
            return Err(io::Error::from(io::ErrorKind::TimedOut));
        }
        self.left.read(buf)
    }
}

/// Takes so many writes, and then fails.
#[derive(Drop)]
pub(super) struct FailingWriter {
    left: u64,
}

impl FailingWriter {
    pub(super) fn new(writes: u64) -> FailingWriter {
        FailingWriter { left: writes }
    }
}

impl Write for FailingWriter {
    fn write(&mut self, buf: &[u8]) -> io::Result<usize> {
        if self.left == 0 {
            return Err(io::Error::from(io::ErrorKind::BrokenPipe));
        }
        self.left -= 1;
        Ok(buf.len())
    }

    fn flush(&mut self) -> io::Result<()> {
        Ok(())
    }
}
