//! The second part of a step of a session: the reply to a message that was answered is sent. Nothing is called at the desk meanwhile.
ghost use Rattle.std.specs.Prelude.{IsTrue, OnOk};
ghost use Rattle.server_read.specs.Failures.{CountsFailure, WritesText};
ghost use Rattle.server_session.specs.Awaits.{StepLeavesSent};
ghost use Rattle.server_session.specs.Sending.{SendsOut};
ghost use Rattle.server_session.specs.Replies.{reply_text};

use crate::exchange::SessionFault;
use crate::written::{WrittenReply, print_reply};
use server_read::{Sink, WriteFailed};

/// What is left of a step of a session once its message is answered.
#[derive(Drop)]
pub enum Outgoing {
    /// The input is over, so there is no reply.
    End,
    /// A reply is to be sent. The session ends behind the last one.
    Reply { reply: WrittenReply, is_last: bool },
}

/// Writes a reply, and sends it if it is the last one.
fn send_reply<T: Sink>(sink: &mut T, reply: &WrittenReply, is_last: bool) -> Result<(), WriteFailed>
    ensures written { WritesText (T.contents sink.old) (T.contents sink.new) (reply_text reply.now) result }
    ensures sent { OnOk result (IsTrue is_last → T.sent sink.new) }
    ensures counted { CountsFailure (T.failures sink.old) (T.failures sink.new) result }
{
    print_reply(sink, reply)?;
    if is_last { sink.flush() } else { Ok(()) }
}

impl Outgoing {
    /// Writes the reply, and sends it if it is the last one. Returns false where the session ends.
    pub fn send<T: Sink>(self, sink: &mut T) -> Result<bool, SessionFault>
        requires { T.sent sink.old }
        ensures written { SendsOut self (T.contents sink.old) (T.contents sink.new) result }
        ensures sent { StepLeavesSent (T.sent sink.new) result }
        ensures counted { CountsFailure (T.failures sink.old) (T.failures sink.new) result }
    {
        match self {
            Outgoing::End => Ok(false),
            Outgoing::Reply { reply, is_last } => {
                send_reply(sink, &reply, is_last)?;
                Ok(!is_last)
            }
        }
    }
}
