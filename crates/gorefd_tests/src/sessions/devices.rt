//! Tests sessions whose reader and writer move one byte at a time, nothing, or fail at each call in turn.
use base_files::Limits;
use server_session::{SessionFault, session_alone};
use std::alloc::Global;
use std::io;
use std::io::{ErrorKind, Read, Write};
use std::process::Abort;

/// A put, a query, an undo and a redo, and a put whose bytes are refused.
const SENT: &str =
    "put 0 a/a.go 10\npackage a\ncat a/a.go\nundo 1\nredo 0\nput 1 /a 3\nabclist\nend\n";

const TOLD: &str = "ok 1 0\nok 1 10\npackage a\nok 0 0\nok 1 0\nno 3 0\nok 1 10\na/a.go 10\n";

/// What happens at the call of a number.
#[derive(Clone, Copy, PartialEq, Eq)]
enum Mishap {
    Fails,
    MovesNothing,
}

/// A stream that moves at most one byte a call. At the call of a number, from 1 on, a mishap happens.
#[derive(Drop)]
struct Creeping<T> {
    inner: T,
    calls: usize,
    at: usize,
    mishap: Mishap,
}

impl<T> Creeping<T> {
    fn new(inner: T, at: usize, mishap: Mishap) -> Self {
        Creeping {
            inner,
            calls: 0,
            at,
            mishap,
        }
    }

    /// How many of so many bytes the next call moves.
    fn turn(&mut self, len: usize) -> io::Result<usize> {
        self.calls = self.calls.saturating_add(1);
        if self.calls != self.at {
            return Ok(len.min(1));
        }
        match self.mishap {
            Mishap::Fails => Err(io::Error::from(ErrorKind::Other)),
            Mishap::MovesNothing => Ok(0),
        }
    }
}

impl<T: Read> Read for Creeping<T> {
    fn read(&mut self, buf: &mut [u8]) -> io::Result<usize> {
        let len = self.turn(buf.len())?.min(buf.len());
        self.inner.read(&mut buf[..len])
    }
}

impl<T: Write> Write for Creeping<T> {
    fn write(&mut self, buf: &[u8]) -> io::Result<usize> {
        let len = self.turn(buf.len())?.min(buf.len());
        self.inner.write(&buf[..len])
    }

    fn flush(&mut self) -> io::Result<()> {
        Ok(())
    }
}

/// No call has this number.
const NEVER: usize = 0;

/// Serves a session over a book of its own, with a mishap at a read and one at a write. Returns how it ended and what it wrote.
fn served(
    alloc: Global,
    at_read: (usize, Mishap),
    at_write: (usize, Mishap),
    limits: Limits,
) -> (Result<(), SessionFault>, Vec<u8>) {
    let reader = Creeping::new(SENT.as_bytes(), at_read.0, at_read.1);
    let writer = Creeping::new(Vec::new(alloc), at_write.0, at_write.1);
    let (ended, writer) = session_alone(alloc, reader, writer, limits);
    let Creeping { inner, .. } = writer;
    (ended, inner)
}

/// Whether this is a first part of the session's text.
fn is_first_part(text: &[u8]) -> bool {
    TOLD.as_bytes().starts_with(text)
}

const NONE: (usize, Mishap) = (NEVER, Mishap::Fails);

#[test]
fn one_byte_at_a_time(rt: HostRuntime) {
    let (ended, text) = served(rt.alloc(), NONE, NONE, Limits::FULL);
    let is_right = ended == Ok(()) && text.as_slice() == TOLD.as_bytes();
    assert!(rt; is_right);
}

#[test]
fn each_read_fails(rt: HostRuntime) {
    for at in 1..=SENT.len() {
        let (ended, text) = served(rt.alloc(), (at, Mishap::Fails), NONE, Limits::FULL);
        let is_right = ended == Err(SessionFault::Read) && is_first_part(text.as_slice());
        assert!(rt; is_right);
    }
}

/// A read that gives nothing is the end of the input.
#[test]
fn each_read_gives_nothing(rt: HostRuntime) {
    for at in 1..=SENT.len() {
        let (ended, _text) = served(rt.alloc(), (at, Mishap::MovesNothing), NONE, Limits::FULL);
        let is_right = ended == Ok(());
        assert!(rt; is_right);
    }
}

/// Of what was written before stands a part as long as the count of writes that were well.
fn write_fails(rt: &impl Abort, alloc: Global, mishap: Mishap) {
    for at in 1..=TOLD.len() {
        let (ended, text) = served(alloc, NONE, (at, mishap), Limits::FULL);
        let is_right = ended == Err(SessionFault::Write)
            && text.len() == at - 1
            && is_first_part(text.as_slice());
        assert!(rt; is_right);
    }
}

#[test]
fn each_write_fails(rt: HostRuntime) {
    write_fails(&rt, rt.alloc(), Mishap::Fails);
}

#[test]
fn each_write_takes_nothing(rt: HostRuntime) {
    write_fails(&rt, rt.alloc(), Mishap::MovesNothing);
}

#[test]
fn few_reads(rt: HostRuntime) {
    let mut limits = Limits::FULL;
    limits.reads = 2;
    let (ended, text) = served(rt.alloc(), NONE, NONE, limits);
    let is_right = ended == Err(SessionFault::Turns) && text.is_empty();
    assert!(rt; is_right);
}
