//! A session over any reader and writer, and one over a book of its own.
ghost use Rattle.server_session.specs.Conversing.{Converses, EndsAlone, EndsOver};

use crate::exchange::{SessionFault, session};
use base_files::Limits;
use history_book::Book;
use server_commands::{Desk, Solo};
use server_read::{Reading, Writing};
use std::alloc::Global;
use std::io::{Read, Write};

/// Serves one session at a desk, from any reader to any writer. Returns how the session ended, and the writer.
pub fn converse<R: Read + Drop, W: Write, D: Desk>(
    alloc: Global,
    reader: R,
    writer: W,
    desk: &mut D,
    limits: Limits,
) -> (Result<(), SessionFault>, W)
    ensures { Converses D.steps D.waits limits (R.remaining reader) (W.contents writer) (W.contents result.1) desk.old desk.new result.0 }
{
    let mut source = Reading::new(reader);
    let mut sink = Writing::new(writer);
    let ended = session(alloc, &mut source, &mut sink, desk, limits);
    (ended, sink.into_inner())
}

/// Serves one session over a book, and closes the book.
fn session_over<R: Read + Drop, W: Write>(
    alloc: Global,
    book: Book,
    reader: R,
    writer: W,
    limits: Limits,
) -> (Result<(), SessionFault>, W)
    ensures { EndsOver book limits (R.remaining reader) (W.contents writer) (W.contents result.1) result.0 }
{
    let mut solo = Solo::new(book);
    let ended = converse(alloc, reader, writer, &mut solo, limits);
    let _entries = solo.into_book().close();
    ended
}

/// Serves one session over a new book, from any reader to any writer. Returns how the session ended, and the writer.
pub fn session_alone<R: Read + Drop, W: Write>(
    alloc: Global,
    reader: R,
    writer: W,
    limits: Limits,
) -> (Result<(), SessionFault>, W)
    ensures { EndsAlone limits (R.remaining reader) (W.contents writer) (W.contents result.1) result.0 }
{
    match Book::new(alloc, limits) {
        Ok(book) => session_over(alloc, book, reader, writer, limits),
        Err(_) => (Err(SessionFault::Memory), writer),
    }
}
