//! A session at a seat. Behind each message the seat hands its receipts in, before the reply is sent. So a client that sends nothing, or reads
//! nothing, holds up no border between chapters.
ghost use Rattle.std.specs.Prelude.{◌≡◌, ◌+◌, ◌<◌, ◌^◌, [], IfOk};
ghost use Rattle.server_session.specs.Awaits.{LeavesSent};
ghost use Rattle.server_session.specs.Sending.{AnswersNext};
ghost use Rattle.server_session.specs.Transcript.{SessionEnds};
ghost use Rattle.server_session.specs.Answers.{AnswersOneAtMost};
ghost use Rattle.server_shared.specs.Held.{WithHandedIn};
ghost use Rattle.server_socket.specs.SeatStep.{CallsAtSeat};
ghost use Rattle.server_socket.specs.SeatWait.{WaitsUntilBuilt};
ghost use Rattle.server_socket.specs.Session.{AccountsForMessages, AnswersAtRest, AnswersAtSeat, ConversesAtSeat, HoldsSessionWithin, ServesMessage};

use crate::seat_desk::SeatDesk;
use base_files::Limits;
use server_read::{ByteSource, Reading, Sink, Writing};
use server_session::{Allowance, Outgoing, SessionFault, answer_next};
use server_shared::{Opening, Seat, Shared};
use std::alloc::Global;
use std::io::{Read, Write};
use std::sync::Wait;

/// The reader and the writer of a session.
#[derive(Drop)]
pub struct Connection<I, O> {
    pub input: I,
    pub output: O,
}

/// Reads the next message and has it answered at the seat. The reply is left to be sent.
fn answer_at_desk<L: Opening, W: Wait, S: ByteSource, T: Sink>(
    rt: &W,
    alloc: Global,
    shared: &Shared<L>,
    seat: &mut Seat<L>,
    source: &mut S,
    sink: &mut T,
    reading: &mut Allowance,
    limits: &Limits,
) -> Result<Outgoing, SessionFault>
    requires reads { S.reads source.old + reading.old.reads_left < 2 ^ 64 }
    ensures next { AnswersNext (CallsAtSeat L.most) (WaitsUntilBuilt L.most) limits.now (S.remaining source.old) (S.remaining source.new)
        (T.contents sink.old) (T.contents sink.new) seat.old seat.new result }
    ensures answers { AnswersOneAtMost (CallsAtSeat L.most) (WaitsUntilBuilt L.most) seat.old seat.new }
    ensures sent { LeavesSent (T.sent sink.new) result }
    ensures turns { IfOk result (λ _. reading.new.reads_left < reading.old.reads_left) }
    ensures reads { S.reads source.new + reading.new.reads_left ≡ S.reads source.old + reading.old.reads_left }
{
    let mut seen = None;
    let mut held = SeatDesk {
        rt,
        shared,
        seat,
        seen: &mut seen,
    };
    answer_next(alloc, source, sink, &mut held, reading, limits)
}

/// Does the same, and has the seat hand its receipts in.
fn answer_and_rest<L: Opening, W: Wait, S: ByteSource, T: Sink>(
    rt: &W,
    alloc: Global,
    shared: &Shared<L>,
    seat: &mut Seat<L>,
    source: &mut S,
    sink: &mut T,
    reading: &mut Allowance,
    limits: &Limits,
) -> Result<Outgoing, SessionFault>
    requires reads { S.reads source.old + reading.old.reads_left < 2 ^ 64 }
    requires fresh { AccountsForMessages L.accounts L.most [] }
    requires here { AccountsForMessages L.accounts L.most seat.old }
    ensures here { AccountsForMessages L.accounts L.most seat.new }
    ensures next { AnswersAtRest L.most limits.now (S.remaining source.old) (S.remaining source.new)
        (T.contents sink.old) (T.contents sink.new) seat.old seat.new result }
    ensures sent { LeavesSent (T.sent sink.new) result }
    ensures turns { IfOk result (λ _. reading.new.reads_left < reading.old.reads_left) }
    ensures reads { S.reads source.new + reading.new.reads_left ≡ S.reads source.old + reading.old.reads_left }
{
    let answered = answer_at_desk(rt, alloc, shared, seat, source, sink, reading, limits);
    shared.hand_in(rt, seat);
    answered
}

/// Reads the next message, has it answered at the seat, and sends the reply, which holds up no border. Returns false where the session ends.
fn serve_message<L: Opening, W: Wait, S: ByteSource, T: Sink>(
    rt: &W,
    alloc: Global,
    shared: &Shared<L>,
    seat: &mut Seat<L>,
    source: &mut S,
    sink: &mut T,
    reading: &mut Allowance,
    limits: &Limits,
) -> Result<bool, SessionFault>
    requires reads { S.reads source.old + reading.old.reads_left < 2 ^ 64 }
    requires fresh { AccountsForMessages L.accounts L.most [] }
    requires here { AccountsForMessages L.accounts L.most seat.old }
    ensures here { AccountsForMessages L.accounts L.most seat.new }
    ensures step { ServesMessage L.most limits.now (S.remaining source.old) (S.remaining source.new)
        (T.contents sink.old) (T.contents sink.new) seat.old seat.new result }
    ensures turns { IfOk result (λ _. reading.new.reads_left < reading.old.reads_left) }
    ensures reads { S.reads source.new + reading.new.reads_left ≡ S.reads source.old + reading.old.reads_left }
{
    let outgoing = answer_and_rest(rt, alloc, shared, seat, source, sink, reading, limits)?;
    outgoing.send(sink)
}

/// Serves the messages of a session at a seat.
fn exchange_at_seat<L: Opening, W: Wait, S: ByteSource, T: Sink>(
    rt: &W,
    alloc: Global,
    shared: &Shared<L>,
    seat: &mut Seat<L>,
    source: &mut S,
    sink: &mut T,
    limits: Limits,
) -> Result<(), SessionFault>
    requires reads { S.reads source.old + limits.reads < 2 ^ 64 }
    requires fresh { AccountsForMessages L.accounts L.most [] }
    requires here { AccountsForMessages L.accounts L.most seat.old }
    ensures here { AccountsForMessages L.accounts L.most seat.new }
    ensures session { WithHandedIn (λ old all. SessionEnds (CallsAtSeat L.most) (WaitsUntilBuilt L.most) limits (S.remaining source.old)
        (S.remaining source.new) (T.contents sink.old) (T.contents sink.new) old all result × AnswersAtSeat L.most old all) seat.old seat.new }
{
    let mut reading = match Allowance::new(alloc, limits.reads) {
        Ok(reading) => reading,
        Err(_) => return Err(SessionFault::Memory),
    };
    while serve_message(rt, alloc, shared, seat, source, sink, &mut reading, &limits)? {}
    Ok(())
}

/// Serves one session at a seat, from any reader to any writer. Returns how the session ended, and the writer. The session's receipts are those
/// that were handed in, and those that the seat still holds.
pub fn session_at_seat<L: Opening, W: Wait, I: Read + Drop, O: Write>(
    rt: &W,
    alloc: Global,
    shared: &Shared<L>,
    seat: &mut Seat<L>,
    connection: Connection<I, O>,
    limits: Limits,
) -> (Result<(), SessionFault>, O)
    requires fresh { AccountsForMessages L.accounts L.most [] }
    requires here { AccountsForMessages L.accounts L.most seat.old }
    ensures here { AccountsForMessages L.accounts L.most seat.new }
    ensures converses { WithHandedIn (λ old all. ConversesAtSeat L.most limits (I.remaining connection.input) (O.contents connection.output)
        (O.contents result.1) old all result.0) seat.old seat.new }
    ensures holds { WithHandedIn (HoldsSessionWithin L.most limits) seat.old seat.new }
{
    let Connection { input, output } = connection;
    let mut source = Reading::new(input);
    let mut sink = Writing::new(output);
    let ended = exchange_at_seat(rt, alloc, shared, seat, &mut source, &mut sink, limits);
    (ended, sink.into_inner())
}
