//! Reads the lines of an input, within a limit of reads.
ghost use Rattle.std.specs.Prelude.{◌≡◌, ◌+◌, ◌^◌, ◌≤◌, ◌<◌, IfOk, vec_capacity, if◌then◌else◌, ◌==◌, length};
ghost use Rattle.std.specs.Io.{ReadsAtMost};
ghost use Rattle.std.specs.Io.KnownBytes.{ReadConsumes};
ghost use Rattle.server_read.specs.Failures.{CountsReadFault};
ghost use Rattle.server_read.specs.Incoming.{TakesByte, ReadsLine};

use crate::stream::ByteSource;

/// Why an input can't be read further.
#[derive(Clone, Copy, Debug, PartialEq, Eq)]
pub enum InputFault {
    /// The source failed.
    Read,
    /// No read is left of those that a session may make.
    Turns,
}

/// The outcome of reading a line.
#[derive(Clone, Copy, Debug, PartialEq, Eq)]
pub enum ReadLine {
    /// The input is over: there is no line.
    Nothing,
    /// The line is within the limit.
    Whole,
    /// The line is longer than the limit.
    TooLong,
}

/// Makes one of the reads that are left.
pub fn read_some<S: ByteSource>(
    source: &mut S,
    reads_left: &mut u64,
    buf: &mut [u8],
) -> Result<usize, InputFault>
    requires reads { S.reads source.old + reads_left.old < 2 ^ 64 }
    ensures bound { ReadsAtMost result buf.new }
    ensures bytes { ReadConsumes (S.remaining source.old) (S.remaining source.new) result buf.new }
    ensures counted { CountsReadFault (S.failures source.old) (S.failures source.new) result }
    ensures turns { IfOk result (λ _. reads_left.new < reads_left.old) }
    ensures reads { S.reads source.new + reads_left.new ≡ S.reads source.old + reads_left.old }
    ensures turns_over { result ≡ Err InputFault.Turns → reads_left.new ≡ 0 }
{
    if *reads_left == 0 {
        return Err(InputFault::Turns);
    }
    *reads_left -= 1;
    match source.read(buf) {
        Ok(count) => Ok(count),
        Err(_) => Err(InputFault::Read),
    }
}

/// Reads one byte, or returns `None` at the end of the input.
fn read_byte<S: ByteSource>(source: &mut S, reads_left: &mut u64) -> Result<Option<u8>, InputFault>
    requires reads { S.reads source.old + reads_left.old < 2 ^ 64 }
    ensures byte { TakesByte (S.remaining source.old) (S.remaining source.new) result }
    ensures counted { CountsReadFault (S.failures source.old) (S.failures source.new) result }
    ensures turns { IfOk result (λ _. reads_left.new < reads_left.old) }
    ensures reads { S.reads source.new + reads_left.new ≡ S.reads source.old + reads_left.old }
    ensures turns_over { result ≡ Err InputFault.Turns → reads_left.new ≡ 0 }
{
    let mut byte = [0];
    match read_some(source, reads_left, &mut byte) {
        Ok(0) => Ok(None),
        Ok(_) => Ok(Some(byte[0])),
        Err(fault) => Err(fault),
    }
}

/// Reads a line and its newline. If the line is no longer than `limit` bytes, `line` has it without the newline.
pub fn read_line<S: ByteSource>(
    source: &mut S,
    reads_left: &mut u64,
    line: &mut Vec<u8>,
    limit: usize,
) -> Result<ReadLine, InputFault>
    requires reads { S.reads source.old + reads_left.old < 2 ^ 64 }
    requires line_room { limit ≤ vec_capacity line.old }
    ensures room { vec_capacity line.old ≤ vec_capacity line.new }
    ensures line { ReadsLine limit (S.remaining source.old) (S.remaining source.new) line.new.items result }
    ensures counted { CountsReadFault (S.failures source.old) (S.failures source.new) result }
    ensures turns { IfOk result (λ _. reads_left.new < reads_left.old) }
    ensures reads { S.reads source.new + reads_left.new ≡ S.reads source.old + reads_left.old }
    ensures turns_over { result ≡ Err InputFault.Turns → reads_left.new ≡ 0 }
{
    line.clear();
    let mut is_too_long = false;
    loop {
        match read_byte(source, reads_left)? {
            None => return Ok(last_line(line, is_too_long)),
            Some(b'\n') => return Ok(whole_line(is_too_long)),
            Some(byte) => {
                if line.len() < limit {
                    line.push(byte).unwrap();
                } else {
                    is_too_long = true;
                }
            }
        }
    }
}

/// The outcome of a line that a newline ended.
fn whole_line(is_too_long: bool) -> ReadLine
    ensures { result ≡ (if is_too_long then ReadLine.TooLong else ReadLine.Whole) }
{
    if is_too_long {
        ReadLine::TooLong
    } else {
        ReadLine::Whole
    }
}

/// The outcome of a line that the end of the input ended.
fn last_line(line: &[u8], is_too_long: bool) -> ReadLine
    ensures { result ≡ (if is_too_long then ReadLine.TooLong else (if length line.now == 0 then ReadLine.Nothing else ReadLine.Whole)) }
{
    if !is_too_long && line.is_empty() {
        ReadLine::Nothing
    } else {
        whole_line(is_too_long)
    }
}
