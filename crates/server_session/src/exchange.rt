//! A session: reads messages, has them answered, and writes the replies.
ghost use Rattle.std.specs.Prelude.{◌≡◌, ◌+◌, ◌^◌, ◌≤◌, ◌<◌, IfOk};
ghost use Rattle.server_session.specs.Answers.{AnswersMessage, AnswersOneAtMost, AnswersSome};
ghost use Rattle.server_session.specs.Awaits.{AwaitsNext, LeavesSent, StepLeavesSent};
ghost use Rattle.server_session.specs.Sending.{AnswersNext};
ghost use Rattle.server_session.specs.Transcript.{SessionEnds, CountsFaults, StepEnds};

use crate::outgoing::Outgoing;
use crate::written::WrittenReply;
use base_files::{Limits, Refusal};
use server_commands::{Desk, act};
use server_read::{
    ByteSource, InputFault, LineBuffer, Message, Next, Sink, WriteFailed, read_message,
};
use std::alloc::{AllocError, Global};

/// Why a session ended before its input.
#[derive(Clone, Copy, Debug, PartialEq, Eq)]
pub enum SessionFault {
    /// Memory was wanting at the start.
    Memory,
    /// The reader failed.
    Read,
    /// The writer failed.
    Write,
    /// No read is left of those that a session may make.
    Turns,
}

impl From<WriteFailed> for SessionFault {
    ghost use Rattle.server_session.specs.declared.exchange.SessionFault.TheVariants.{Write};

    ghost from_gives = { λ _ result. result ≡ Write };

    fn from(_failed: WriteFailed) -> SessionFault {
        SessionFault::Write
    }
}

/// Has a message answered, and makes the reply's body if that takes memory.
fn answer<D: Desk>(alloc: Global, desk: &mut D, message: Message<'_>) -> WrittenReply
    ensures { AnswersMessage D.steps D.waits desk.old message.entry result desk.new }
{
    match message {
        Message::Ask(command) => WrittenReply::of(alloc, act(alloc, desk, command)),
        Message::Unknown => WrittenReply::refuse(alloc, Refusal::BadCommand),
        Message::CutShort => WrittenReply::refuse(alloc, Refusal::BodyShort),
    }
}

/// What reading uses: the room for a line, and the reads that are left.
#[derive(Drop)]
pub struct Allowance {
    line: LineBuffer,
    pub reads_left: u64,
}

impl Allowance {
    /// The room for a line, and so many reads.
    pub fn new(alloc: Global, reads_left: u64) -> Result<Allowance, AllocError>
        ensures { IfOk result (λ reading. reading.reads_left ≡ reads_left) }
    {
        let line = LineBuffer::new(alloc)?;
        Ok(Allowance { line, reads_left })
    }
}

/// Sends everything that was written, since a read may wait for the client, and reads the next message.
fn await_message<'a, S: ByteSource, T: Sink>(
    alloc: Global,
    source: &mut S,
    sink: &mut T,
    reads_left: &mut u64,
    line: &'a mut LineBuffer,
    limits: &Limits,
) -> Result<Next<'a>, SessionFault>
    requires reads { S.reads source.old + reads_left.old < 2 ^ 64 }
    ensures awaits { AwaitsNext limits.now (S.remaining source.old) (S.remaining source.new)
        (T.contents sink.old) (T.contents sink.new) result }
    ensures sent { LeavesSent (T.sent sink.new) result }
    ensures counted { CountsFaults (S.failures source.old) (S.failures source.new)
        (T.failures sink.old) (T.failures sink.new) result }
    ensures turns { IfOk result (λ _. reads_left.new < reads_left.old) }
    ensures turns_over { result ≡ Err SessionFault.Turns → reads_left.new ≡ 0 }
    ensures reads { S.reads source.new + reads_left.new ≡ S.reads source.old + reads_left.old }
{
    sink.flush()?;
    match read_message(alloc, source, sink, reads_left, line, limits) {
        Ok(next) => Ok(next),
        Err(InputFault::Read) => Err(SessionFault::Read),
        Err(InputFault::Turns) => Err(SessionFault::Turns),
    }
}

/// Sends what was written before, reads the next message and has it answered. The reply is left to be sent. The desk answers one message at
/// most, whatever is known of the reader and the writer.
pub fn answer_next<S: ByteSource, T: Sink, D: Desk>(
    alloc: Global,
    source: &mut S,
    sink: &mut T,
    desk: &mut D,
    reading: &mut Allowance,
    limits: &Limits,
) -> Result<Outgoing, SessionFault>
    requires reads { S.reads source.old + reading.old.reads_left < 2 ^ 64 }
    ensures next { AnswersNext D.steps D.waits limits.now (S.remaining source.old) (S.remaining source.new)
        (T.contents sink.old) (T.contents sink.new) desk.old desk.new result }
    ensures answers { AnswersOneAtMost D.steps D.waits desk.old desk.new }
    ensures sent { LeavesSent (T.sent sink.new) result }
    ensures counted { CountsFaults (S.failures source.old) (S.failures source.new)
        (T.failures sink.old) (T.failures sink.new) result }
    ensures turns { IfOk result (λ _. reading.new.reads_left < reading.old.reads_left) }
    ensures turns_over { result ≡ Err SessionFault.Turns → reading.new.reads_left ≡ 0 }
    ensures reads { S.reads source.new + reading.new.reads_left ≡ S.reads source.old + reading.old.reads_left }
{
    match await_message(
        alloc,
        source,
        sink,
        &mut reading.reads_left,
        &mut reading.line,
        limits,
    )? {
        Next::End => Ok(Outgoing::End),
        Next::NoRoom => {
            let reply = WrittenReply::refuse(alloc, Refusal::Memory);
            Ok(Outgoing::Reply {
                reply,
                is_last: false,
            })
        }
        Next::Message(message) => {
            let is_last = message.is_last();
            let reply = answer(alloc, desk, message);
            Ok(Outgoing::Reply { reply, is_last })
        }
    }
}

/// Reads the next message, has it answered, and writes the reply. Returns false where the session ends. The desk answers one message at most,
/// whatever is known of the reader and the writer.
fn serve_next<S: ByteSource, T: Sink, D: Desk>(
    alloc: Global,
    source: &mut S,
    sink: &mut T,
    desk: &mut D,
    reading: &mut Allowance,
    limits: &Limits,
) -> Result<bool, SessionFault>
    requires reads { S.reads source.old + reading.old.reads_left < 2 ^ 64 }
    ensures step { StepEnds D.steps D.waits limits.now (S.remaining source.old) (S.remaining source.new)
        (T.contents sink.old) (T.contents sink.new) desk.old desk.new result }
    ensures answers { AnswersOneAtMost D.steps D.waits desk.old desk.new }
    ensures sent { StepLeavesSent (T.sent sink.new) result }
    ensures counted { CountsFaults (S.failures source.old) (S.failures source.new)
        (T.failures sink.old) (T.failures sink.new) result }
    ensures turns { IfOk result (λ _. reading.new.reads_left < reading.old.reads_left) }
    ensures turns_over { result ≡ Err SessionFault.Turns → reading.new.reads_left ≡ 0 }
    ensures reads { S.reads source.new + reading.new.reads_left ≡ S.reads source.old + reading.old.reads_left }
{
    let outgoing = answer_next(alloc, source, sink, desk, reading, limits)?;
    outgoing.send(sink)
}

/// Serves one session: reads messages to the end, has each answered, and writes the replies. Each reply is sent before the next read, and
/// the last at the end. A fault undoes nothing of what was done before it.
pub fn session<S: ByteSource, T: Sink, D: Desk>(
    alloc: Global,
    source: &mut S,
    sink: &mut T,
    desk: &mut D,
    limits: Limits,
) -> Result<(), SessionFault>
    requires { S.reads source.old + limits.reads < 2 ^ 64 }
    ensures session { SessionEnds D.steps D.waits limits (S.remaining source.old) (S.remaining source.new)
        (T.contents sink.old) (T.contents sink.new) desk.old desk.new result }
    ensures answers { AnswersSome D.steps D.waits desk.old desk.new }
    ensures sent { LeavesSent (T.sent sink.new) result }
    ensures counted { CountsFaults (S.failures source.old) (S.failures source.new)
        (T.failures sink.old) (T.failures sink.new) result }
    ensures memory_first { result ≡ Err SessionFault.Memory → S.reads source.new ≡ S.reads source.old }
    ensures few_reads { S.reads source.new ≤ S.reads source.old + limits.reads }
    ensures turns { result ≡ Err SessionFault.Turns → S.reads source.new ≡ S.reads source.old + limits.reads }
{
    let mut reading = match Allowance::new(alloc, limits.reads) {
        Ok(reading) => reading,
        Err(_) => return Err(SessionFault::Memory),
    };
    while serve_next(alloc, source, sink, desk, &mut reading, &limits)? {}
    Ok(())
}
