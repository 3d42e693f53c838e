//! Reads the next message of an input. A later command whose line announces bytes is an arm of `command_after`.
ghost use Rattle.std.specs.Prelude.{◌≡◌, ◌↔◌, ◌+◌, ◌^◌, ◌≤◌, ◌<◌, IfOk, IsTrue, vec_capacity, codes};
ghost use Rattle.server_read.specs.Failures.{CountsReadFault};
ghost use Rattle.server_read.specs.NextMessage.{ReadsNext};
ghost use Rattle.server_read.specs.Puts.{ReadsPut, ReadsAfter, put_next, SaysIfKept};
ghost use Rattle.server_read.specs.Parsing.{ReadsLineText};

use crate::{
    Body, ByteSource, Command, InputFault, Message, ReadLine, Sink, StateCommand, Word,
    parse_command, read_body, read_line, skip,
};
use base_files::{Limits, Path, Refusal};
use std::alloc::{AllocError, Global};

/// The outcome of reading the next message.
#[derive(Drop)]
pub enum Next<'a> {
    /// The input is over, or its line is `end`.
    End,
    Message(Message<'a>),
    /// A command was read and dropped for want of memory.
    NoRoom,
}

/// A buffer with room for the longest command line.
#[derive(Drop)]
pub struct LineBuffer {
    bytes: Vec<u8>,
    ghost room: { 1024 ≤ vec_capacity bytes },
}

impl LineBuffer {
    pub fn new(alloc: Global) -> Result<LineBuffer, AllocError> {
        let bytes = Vec::with_capacity(alloc, 1024)?;
        Ok(LineBuffer { bytes })
    }
}

/// Whether the body of a put is kept: its path is a path of a file, and its size is within the limit of a file.
fn is_kept(alloc: Global, path: &str, size: u32, limits: &Limits) -> Result<bool, AllocError>
    ensures { IfOk result (SaysIfKept limits.now path.now size) }
{
    if size as usize > limits.file_bytes {
        return Ok(false);
    }
    match Path::read(alloc, path, 2) {
        Ok(path) => {
            drop(path);
            Ok(true)
        }
        Err(Refusal::Memory) => Err(AllocError),
        Err(_) => Ok(false),
    }
}

/// The basis and the path of a line `put`, and the size of its body in bytes.
#[derive(Drop)]
struct PutLine<'a> {
    basis: u64,
    path: Word<'a>,
    size: u32,
}

/// The message of a line `put`, after its body was read.
fn put_message(line: PutLine<'_>, body: Body) -> Next<'_>
    ensures { result ≡ put_next line.entry.basis line.entry.path line.entry.size body }
{
    let body = match body {
        Body::Kept(text) => Some(text),
        Body::Dropped => None,
        Body::NoRoom => return Next::NoRoom,
        Body::Short => return Next::Message(Message::CutShort),
    };
    let PutLine { basis, path, size } = line;
    ask(StateCommand::Put {
        basis,
        path,
        size,
        body,
    })
}

/// Reads the body of a line `put`, and makes the command.
fn read_put<'a, S: ByteSource>(
    alloc: Global,
    source: &mut S,
    reads_left: &mut u64,
    line: PutLine<'a>,
    limits: &Limits,
) -> Result<Next<'a>, InputFault>
    requires reads { S.reads source.old + reads_left.old < 2 ^ 64 }
    ensures put { ReadsPut limits.now line.entry.basis line.entry.path line.entry.size (S.remaining source.old) (S.remaining source.new) result }
    ensures counted { CountsReadFault (S.failures source.old) (S.failures source.new) result }
    ensures turns { IfOk result (λ _. reads_left.new ≤ reads_left.old) }
    ensures reads { S.reads source.new + reads_left.new ≡ S.reads source.old + reads_left.old }
    ensures turns_over { result ≡ Err InputFault.Turns → reads_left.new ≡ 0 }
{
    match is_kept(alloc, line.path.as_str(), line.size, limits) {
        Err(_) => {
            let is_whole = skip(source, reads_left, line.size as usize)?;
            Ok(if is_whole {
                Next::NoRoom
            } else {
                Next::Message(Message::CutShort)
            })
        }
        Ok(is_kept) => {
            let body = read_body(alloc, source, reads_left, line.size as usize, is_kept)?;
            Ok(put_message(line, body))
        }
    }
}

/// A command about the current state, as a message.
fn ask(command: StateCommand<'_>) -> Next<'_>
    ensures { result ≡ Next.Message (Message.Ask (Command.OnState command.entry)) }
{
    Next::Message(Message::Ask(Command::OnState(command)))
}

/// Reads the bytes that a command's line announces, and makes the message.
fn command_after<'a, S: ByteSource>(
    alloc: Global,
    source: &mut S,
    reads_left: &mut u64,
    command: Command<'a>,
    limits: &Limits,
) -> Result<Next<'a>, InputFault>
    requires reads { S.reads source.old + reads_left.old < 2 ^ 64 }
    ensures line { ReadsAfter limits.now command.entry (S.remaining source.old) (S.remaining source.new) result }
    ensures counted { CountsReadFault (S.failures source.old) (S.failures source.new) result }
    ensures turns { IfOk result (λ _. reads_left.new ≤ reads_left.old) }
    ensures reads { S.reads source.new + reads_left.new ≡ S.reads source.old + reads_left.old }
    ensures turns_over { result ≡ Err InputFault.Turns → reads_left.new ≡ 0 }
{
    match command {
        Command::OnState(
            StateCommand::Put {
                basis,
                path,
                size,
                body: _unread,
            },
        ) => {
            let line = PutLine { basis, path, size };
            read_put(alloc, source, reads_left, line, limits)
        }
        command => Ok(Next::Message(Message::Ask(command))),
    }
}

/// Whether a line's bytes are `end`.
fn is_end(line: &[u8]) -> bool
    ensures { IsTrue result ↔ (line.now ≡ codes "end") }
{
    line == b"end".as_slice()
}

/// The command in a line's bytes, or `None` where they are no command's line.
fn command_of(line: &[u8]) -> Option<Command<'_>>
    ensures { ReadsLineText line.now result }
{
    match str::from_utf8(line) {
        Ok(text) => parse_command(text),
        Err(_) => None,
    }
}

/// Reads the next message whole, and nothing beyond it. Each read of the source takes one from `reads_left`. A read may wait for the
/// client, so everything that was written to the sink must be sent before.
pub fn read_message<'a, S: ByteSource, T: Sink>(
    alloc: Global,
    source: &mut S,
    _sink: &T,
    reads_left: &mut u64,
    line: &'a mut LineBuffer,
    limits: &Limits,
) -> Result<Next<'a>, InputFault>
    requires reads { S.reads source.old + reads_left.old < 2 ^ 64 }
    requires sent { T.sent _sink.now }
    ensures next { ReadsNext limits.now (S.remaining source.old) (S.remaining source.new) result }
    ensures counted { CountsReadFault (S.failures source.old) (S.failures source.new) result }
    ensures turns { IfOk result (λ _. reads_left.new < reads_left.old) }
    ensures reads { S.reads source.new + reads_left.new ≡ S.reads source.old + reads_left.old }
    ensures turns_over { result ≡ Err InputFault.Turns → reads_left.new ≡ 0 }
{
    match read_line(source, reads_left, &mut line.bytes, limits.command_bytes) {
        Err(fault) => Err(fault),
        Ok(ReadLine::Nothing) => Ok(Next::End),
        Ok(ReadLine::TooLong) => Ok(Next::Message(Message::Unknown)),
        Ok(ReadLine::Whole) if is_end(&line.bytes) => Ok(Next::End),
        Ok(ReadLine::Whole) => match command_of(&line.bytes) {
            None => Ok(Next::Message(Message::Unknown)),
            Some(command) => command_after(alloc, source, reads_left, command, limits),
        },
    }
}
