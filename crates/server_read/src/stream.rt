//! The reader and the writer of a session. Both count their failures. So a contract can say that a fault is answered only where the reader
//! or the writer failed in that call.
ghost use Rattle.std.specs.Prelude.{◌≡◌, ◌<◌, ◌+◌, ◌-◌, ◌^◌, ℕ, List, Option, IfOk, OnOk, IsTrue};
ghost use Rattle.std.specs.Io.{ReadsAtMost, WritesAtMost};
ghost use Rattle.std.specs.Io.KnownBytes.{Keeps, ReadConsumes, WriteAppends};
ghost use Rattle.server_read.specs.Failures.{CountsFailure};

use std::io::{Read, Write};

/// A failure of the reader.
#[derive(Clone, Copy, Debug, PartialEq, Eq)]
pub struct ReadFailed;

/// A failure of the writer.
#[derive(Clone, Copy, Debug, PartialEq, Eq)]
pub struct WriteFailed;

/// A source of bytes.
pub trait ByteSource {
    /// The bytes that later reads will give, where they are known.
    ghost remaining: { Self → Option (List ℕ) };

    /// The count of failed reads. It changes at each failure, and at nothing else.
    ghost failures: { Self → ℕ };

    /// The count of reads.
    ghost reads: { Self → ℕ };

    /// Reads bytes into the front of the buffer, and returns how many; 0 at the end of the input.
    fn read(&mut self, buf: &mut [u8]) -> Result<usize, ReadFailed>
        requires { reads self.old < 2 ^ 64 - 1 }
        ensures bound { ReadsAtMost result buf.new }
        ensures bytes { ReadConsumes (remaining self.old) (remaining self.new) result buf.new }
        ensures reads { reads self.new ≡ reads self.old + 1 }
        ensures counted { CountsFailure (failures self.old) (failures self.new) result };
}

/// A sink of bytes.
pub trait Sink {
    /// The bytes that were written, where they are known.
    ghost contents: { Self → Option (List ℕ) };

    /// The count of failed writes and failed flushes. It changes at each failure, and at nothing else.
    ghost failures: { Self → ℕ };

    /// All bytes that were written are sent to the client.
    ghost sent: { Self → Type 0 };

    /// Writes at least one byte, or fails. Returns how many were written.
    fn write(&mut self, buf: &[u8]) -> Result<usize, WriteFailed>
        ensures bound { WritesAtMost result buf.now }
        ensures some { IfOk result (λ n. 0 < n) }
        ensures bytes { WriteAppends (contents self.old) (contents self.new) result buf.now }
        ensures counted { CountsFailure (failures self.old) (failures self.new) result };

    /// Sends all bytes that were written, or fails.
    fn flush(&mut self) -> Result<(), WriteFailed>
        ensures sent { OnOk result (sent self.new) }
        ensures bytes { Keeps (contents self.old) (contents self.new) }
        ensures counted { CountsFailure (failures self.old) (failures self.new) result };
}

/// A reader as a source, with the counts of its reads and its failures.
#[derive(Drop)]
pub struct Reading<R> {
    reader: R,
    reads: u64,
    failures: u64,
}

impl<R: Read> Reading<R> {
    /// A source over a reader, with both counts at 0.
    pub fn new(reader: R) -> Self
        ensures bytes { ⟦<Reading<R> as ByteSource>⟧.remaining result ≡ R.remaining reader }
        ensures none { ⟦<Reading<R> as ByteSource>⟧.failures result ≡ 0 }
        ensures unread { ⟦<Reading<R> as ByteSource>⟧.reads result ≡ 0 }
    {
        Reading {
            reader,
            reads: 0,
            failures: 0,
        }
    }
}

impl<R: Read> ByteSource for Reading<R> {
    ghost remaining = { λ r. R.remaining r.reader };

    ghost failures = { λ r. r.failures };

    ghost reads = { λ r. r.reads };

    fn read(&mut self, buf: &mut [u8]) -> Result<usize, ReadFailed> {
        self.reads += 1;
        match self.reader.read(buf) {
            Ok(count) => Ok(count),
            Err(_) => {
                self.failures = self.failures.wrapping_add(1);
                Err(ReadFailed)
            }
        }
    }
}

/// A writer as a sink, with the count of its failures, and whether it was flushed after the last write.
#[derive(Drop)]
pub struct Writing<W> {
    writer: W,
    is_flushed: bool,
    failures: u64,
}

impl<W: Write> Writing<W> {
    /// A sink over a writer, with no failure counted.
    pub fn new(writer: W) -> Self
        ensures bytes { ⟦<Writing<W> as Sink>⟧.contents result ≡ W.contents writer }
        ensures none { ⟦<Writing<W> as Sink>⟧.failures result ≡ 0 }
    {
        Writing {
            writer,
            is_flushed: false,
            failures: 0,
        }
    }

    /// The writer, with the bytes that were written.
    pub fn into_inner(self) -> W
        ensures bytes { W.contents result ≡ ⟦<Writing<W> as Sink>⟧.contents self }
    {
        let Writing { writer, .. } = self;
        writer
    }
}

impl<W: Write> Sink for Writing<W> {
    ghost contents = { λ w. W.contents w.writer };

    ghost failures = { λ w. w.failures };

    ghost sent = { λ w. IsTrue w.is_flushed };

    fn write(&mut self, buf: &[u8]) -> Result<usize, WriteFailed> {
        self.is_flushed = false;
        match self.writer.write(buf) {
            Ok(count) if count > 0 => Ok(count),
            _ => {
                self.failures = self.failures.wrapping_add(1);
                Err(WriteFailed)
            }
        }
    }

    fn flush(&mut self) -> Result<(), WriteFailed> {
        match self.writer.flush() {
            Ok(()) => {
                self.is_flushed = true;
                Ok(())
            }
            Err(_) => {
                self.failures = self.failures.wrapping_add(1);
                Err(WriteFailed)
            }
        }
    }
}
