//! The text of an entry of the journal, as a log shows it.
ghost use Rattle.std.specs.Prelude.{◌≡◌};
ghost use Rattle.server_session.specs.Listings.{closed_line, entry_line, entry_text, told_number, told_word};

use crate::refusal::{LONGEST_BODY, refusal_code};
use arrayvec::ArrayString;
use history_machine::{Line, ShownEntry, Told};
use itoa::Buffer;

/// The word of an outcome: `ok` or `no`, and a space.
fn told_word(out: Told) -> &'static str
    ensures { result.now ≡ told_word out }
{
    match out {
        Told::Done(_) => "ok ",
        Told::Refused(_) => "no ",
    }
}

/// The number of an outcome: that of the state, or the refusal's code.
fn told_number(out: Told) -> u64
    ensures { result ≡ told_number out }
{
    match out {
        Told::Done(number) => number,
        Told::Refused(reason) => u64::from(refusal_code(&reason.refusal())),
    }
}

/// The text line of an entry: its kind, its basis and its outcome.
fn entry_line(line: Line) -> ArrayString<LONGEST_BODY>
    ensures { result.bytes ≡ entry_line line }
{
    let mut digits = Buffer::new();
    let mut text = ArrayString::new();
    text.push_str(line.kind.name());
    text.push_str(" ");
    text.push_str(digits.format(line.basis));
    text.push_str(" ");
    text.push_str(told_word(line.out));
    text.push_str(digits.format(told_number(line.out)));
    text.push_str("\n");
    text
}

/// The text line that says with which entry the current journal begins.
fn closed_line(begun: u64) -> ArrayString<LONGEST_BODY>
    ensures { result.bytes ≡ closed_line begun }
{
    let mut digits = Buffer::new();
    let mut text = ArrayString::new();
    text.push_str("closed ");
    text.push_str(digits.format(begun));
    text.push_str("\n");
    text
}

/// The text of what a log shows: the line of the entry, or where the current journal begins, or nothing. It takes no memory.
pub(crate) fn entry_text(shown: ShownEntry) -> ArrayString<LONGEST_BODY>
    ensures { result.bytes ≡ entry_text shown }
{
    match shown {
        ShownEntry::OfLine(line) => entry_line(line),
        ShownEntry::Closed(begun) => closed_line(begun),
        ShownEntry::Unwritten => ArrayString::new(),
    }
}
