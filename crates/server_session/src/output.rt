//! Writes replies. A new form of answer is a case of `is_done`, `reply_number` and `reply_body` in specs/Replies.antt, and an arm of
//! `print_response`. If its body takes memory, it is also an arm of `made_body` in written.rt.
ghost use Rattle.std.specs.Prelude.{◌≡◌, ◌++◌, ◌≤◌, true, length};
ghost use Rattle.server_session.specs.Listings.{package_line};
ghost use Rattle.server_session.specs.Replies.{count_line, made_body, reply_head, reply_text, status_lines, steps_line};
ghost use Rattle.server_read.specs.Failures.{CountsFailure, WritesText};

use crate::entries::entry_text;
use crate::refusal::{LONGEST_BODY, refusal_body, refusal_code};
use arrayvec::ArrayString;
use itoa::Buffer;
use server_commands::{Response, ServerNumbers};
use server_read::{Sink, WriteFailed};

/// The size of the longest first line, in bytes: a word, two numbers of at most 20 digits, a space and a newline.
const LONGEST_HEAD: usize = 48;

/// The size of the longest line with a word and a number, in bytes.
const LONGEST_COUNT: usize = 64;

/// The size of the longest reply that is written in one piece, in bytes.
const LONGEST_SHORT: usize = 700;

/// Writes all bytes, in as many writes as that takes.
fn write_whole<T: Sink>(sink: &mut T, bytes: &[u8]) -> Result<(), WriteFailed>
    ensures written { WritesText (T.contents sink.old) (T.contents sink.new) bytes.now result }
    ensures counted { CountsFailure (T.failures sink.old) (T.failures sink.new) result }
{
    let mut rest = bytes;
    while !rest.is_empty() {
        let count = sink.write(rest)?;
        rest = &rest[count..];
    }
    Ok(())
}

/// The first line of a reply. It takes no memory.
fn head(is_done: bool, number: u64, body_len: usize) -> ArrayString<LONGEST_HEAD>
    ensures { result.bytes ≡ reply_head is_done number body_len }
{
    let mut digits = Buffer::new();
    let mut head = ArrayString::new();
    head.push_str(if is_done { "ok " } else { "no " });
    head.push_str(digits.format(number));
    head.push_str(" ");
    head.push_str(digits.format(body_len));
    head.push_str("\n");
    head
}

/// The line with how many steps undo and redo can make.
fn steps_text(undo: usize, redo: usize) -> ArrayString<LONGEST_BODY>
    ensures { result.bytes ≡ steps_line undo redo }
{
    let mut digits = Buffer::new();
    let mut text = ArrayString::new();
    text.push_str("undo ");
    text.push_str(digits.format(undo));
    text.push_str(" redo ");
    text.push_str(digits.format(redo));
    text.push_str("\n");
    text
}

/// A line with a word and a number.
fn count_line(word: &str, number: u64) -> ArrayString<LONGEST_COUNT>
    requires { length word.now ≤ 20 }
    ensures { result.bytes ≡ count_line word.now number }
{
    let mut digits = Buffer::new();
    let mut text = ArrayString::new();
    text.push_str(word);
    text.push_str(" ");
    text.push_str(digits.format(number));
    text.push_str("\n");
    text
}

/// The lines with what a server tells of itself.
fn status_text(numbers: &ServerNumbers) -> ArrayString<LONGEST_BODY>
    ensures { result.bytes ≡ status_lines numbers.now }
{
    let mut text = ArrayString::new();
    text.push_str(count_line("sessions", numbers.sessions).as_str());
    text.push_str(count_line("workers", numbers.workers).as_str());
    text.push_str(count_line("chapter", numbers.book.chapter).as_str());
    text.push_str(count_line("due", numbers.due).as_str());
    text.push_str(count_line("left", numbers.book.left).as_str());
    text.push_str(count_line("bytes", numbers.book.bytes).as_str());
    text.push_str(count_line("kept", numbers.kept).as_str());
    text
}

/// Writes two texts, one after the other.
fn write_both<T: Sink>(sink: &mut T, first: &[u8], second: &[u8]) -> Result<(), WriteFailed>
    ensures written { WritesText (T.contents sink.old) (T.contents sink.new) (first.now ++ second.now) result }
    ensures counted { CountsFailure (T.failures sink.old) (T.failures sink.new) result }
{
    write_whole(sink, first)?;
    write_whole(sink, second)
}

/// Writes a reply whose body may be long.
fn print_parts<T: Sink>(sink: &mut T, number: u64, body: &[u8]) -> Result<(), WriteFailed>
    ensures written { WritesText (T.contents sink.old) (T.contents sink.new) (reply_head true number (length body.now) ++ body.now) result }
    ensures counted { CountsFailure (T.failures sink.old) (T.failures sink.new) result }
{
    let first_line = head(true, number, body.len());
    write_both(sink, first_line.as_str().as_bytes(), body)
}

/// Writes a reply whose body is the line of a package's path.
fn print_line<T: Sink>(sink: &mut T, number: u64, path: &[u8]) -> Result<(), WriteFailed>
    ensures written { WritesText (T.contents sink.old) (T.contents sink.new) (reply_head true number (length (package_line path.now)) ++ package_line path.now) result }
    ensures counted { CountsFailure (T.failures sink.old) (T.failures sink.new) result }
{
    let first_line = head(true, number, path.len() + 1);
    write_whole(sink, first_line.as_str().as_bytes())?;
    write_both(sink, path, b"\n")
}

/// Writes a reply with a short body in one piece.
fn print_short<T: Sink>(
    sink: &mut T,
    is_done: bool,
    number: u64,
    body: &str,
) -> Result<(), WriteFailed>
    requires { length body.now ≤ LONGEST_BODY }
    ensures written { WritesText (T.contents sink.old) (T.contents sink.new) (reply_head is_done number (length body.now) ++ body.now) result }
    ensures counted { CountsFailure (T.failures sink.old) (T.failures sink.new) result }
{
    let mut text: ArrayString<LONGEST_SHORT> = ArrayString::new();
    text.push_str(head(is_done, number, body.len()).as_str());
    text.push_str(body);
    write_whole(sink, text.as_str().as_bytes())
}

/// Writes a response; `made` is its body if that takes memory. On an `Err` a first part of it is written.
pub(crate) fn print_response<T: Sink>(
    sink: &mut T,
    response: &Response,
    made: &[u8],
) -> Result<(), WriteFailed>
    requires { made.now ≡ made_body response.now }
    ensures written { WritesText (T.contents sink.old) (T.contents sink.new) (reply_text response.now) result }
    ensures counted { CountsFailure (T.failures sink.old) (T.failures sink.new) result }
{
    match response {
        Response::Done { number } => print_short(sink, true, *number, ""),
        Response::Steps { number, undo, redo } => {
            print_short(sink, true, *number, steps_text(*undo, *redo).as_str())
        }
        Response::File { number, text } => print_parts(sink, *number, text.bytes()),
        Response::Listing { number, .. }
        | Response::Places { number, .. }
        | Response::Faults { number, .. }
        | Response::Objects { number, .. } => print_parts(sink, *number, made),
        Response::Entry { number, shown } => {
            print_short(sink, true, *number, entry_text(*shown).as_str())
        }
        Response::Status { numbers } => print_short(
            sink,
            true,
            numbers.book.state,
            status_text(numbers).as_str(),
        ),
        Response::Built { number, package } => print_line(sink, *number, package.path()),
        Response::Refused { refusal } => print_short(
            sink,
            false,
            u64::from(refusal_code(refusal)),
            refusal_body(refusal).as_str(),
        ),
    }
}
