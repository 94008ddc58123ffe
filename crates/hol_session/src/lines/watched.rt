//! Readers and writers of std, watched for failures.

ghost use Rattle.std.specs.Prelude.{◌≡◌, true, false};

use crate::lines::service::{Sink, Source};
use std::io;
use std::io::{Read, Write};

/// A reader or writer that notes whether it failed.
#[derive(Drop)]
pub struct Watched<T> {
    /// The reader or writer.
    pub inner: T,
    /// Whether a call of it failed, or took no byte of some.
    pub failed: bool,
    /// How often it was read, up to 2^64 - 1.
    pub reads: u64,
}

impl<T> Watched<T> {
    /// One that hasn't failed and wasn't read.
    pub fn new(inner: T) -> Watched<T>
        ensures inner { result.inner ≡ inner }
        ensures fresh { result.failed ≡ false }
        ensures unread { result.reads ≡ 0 }
    {
        Watched {
            inner,
            failed: false,
            reads: 0,
        }
    }
}

impl<R: Read> Read for Watched<R> {
    ghost remaining = { λ w. R.remaining w.inner };

    fn read(&mut self, buf: &mut [u8]) -> io::Result<usize> {
        self.inner.read(buf)
    }
}

impl<R: Read> Source for Watched<R> {
    ghost has_failed = { λ w. w.failed ≡ true };

    ghost reads = { λ w. w.reads };

    fn read_some(&mut self, buffer: &mut [u8]) -> io::Result<usize> {
        let result = self.inner.read(buffer);
        self.reads = self.reads.saturating_add(1);
        if result.is_err() {
            self.failed = true;
        }
        result
    }
}

impl<W: Write> Write for Watched<W> {
    ghost contents = { λ w. W.contents w.inner };

    fn write(&mut self, buf: &[u8]) -> io::Result<usize> {
        self.inner.write(buf)
    }

    fn flush(&mut self) -> io::Result<()> {
        self.inner.flush()
    }
}

impl<W: Write> Sink for Watched<W> {
    ghost has_failed = { λ w. w.failed ≡ true };

    fn write_some(&mut self, buffer: &[u8]) -> io::Result<usize> {
        let result = self.inner.write(buffer);
        if !matches!(result, Ok(count) if count > 0) {
            self.failed = true;
        }
        result
    }
}
