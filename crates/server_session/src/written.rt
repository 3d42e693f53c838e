//! A reply that is ready to be written: everything of it that takes memory is made first.
ghost use Rattle.std.specs.Prelude.{◌≡◌, IfOk, OnErr};
ghost use Rattle.server_read.specs.Failures.{CountsFailure, WritesText};
ghost use Rattle.server_session.specs.Replies.{IsWrittenFor, TakesMemory, made_body, reply_text};

use crate::lines::{fault_lines, listing, object_lines, place_lines};
use crate::output::print_response;
use base_files::Refusal;
use server_commands::Response;
use server_read::{Sink, WriteFailed};
use std::alloc::{AllocError, Global};
use std::marker::Model;

/// A response, with its body if that takes memory.
#[derive(Drop)]
pub struct WrittenReply {
    response: Response,
    body: Vec<u8>,
}

impl Model for WrittenReply {
    ghost use Rattle.std.specs.Prelude.{◌≡◌};
    ghost use Rattle.server_commands.specs.contracts.response.Response.{the_row};
    ghost use Rattle.server_commands.specs.declared.response.Response.{Response};
    ghost use Rattle.server_session.specs.Replies.{made_body};

    ghost Value = { Response };

    ghost coded = { the_row.coded };

    ghost view = { λ a. a.response };

    ghost invariant = { λ a. a.body.items ≡ made_body a.response };
}

/// The body of a response if that takes memory, else nothing.
fn made_body(alloc: Global, response: &Response) -> Result<Vec<u8>, AllocError>
    ensures made { IfOk result (λ body. body.items ≡ made_body response.now) }
    ensures wanting { OnErr result (TakesMemory response.now) }
{
    match response {
        Response::Listing { files, .. } => listing(alloc, files.files()),
        Response::Places { places, .. } => place_lines(alloc, places.as_slice()),
        Response::Faults { faults, .. } => fault_lines(alloc, faults.as_slice()),
        Response::Objects { objects, .. } => object_lines(alloc, objects.as_slice()),
        _ => Ok(Vec::new(alloc)),
    }
}

impl WrittenReply {
    /// The reply to a command with this answer. Where memory is wanting for its body, the reply is a refusal.
    pub fn of(alloc: Global, answer: Response) -> WrittenReply
        ensures { IsWrittenFor answer result }
    {
        match made_body(alloc, &answer) {
            Ok(body) => WrittenReply {
                response: answer,
                body,
            },
            Err(_) => WrittenReply::refuse(alloc, Refusal::Memory),
        }
    }

    /// The reply that refuses a message. It takes no memory.
    pub fn refuse(alloc: Global, refusal: Refusal) -> WrittenReply
        ensures { result ≡ Response.Refused refusal }
    {
        WrittenReply {
            response: Response::Refused { refusal },
            body: Vec::new(alloc),
        }
    }
}

/// Writes a reply. It takes no memory. On an `Err` a first part of it is written.
pub fn print_reply<T: Sink>(sink: &mut T, reply: &WrittenReply) -> Result<(), WriteFailed>
    ensures written { WritesText (T.contents sink.old) (T.contents sink.new) (reply_text reply.now) result }
    ensures counted { CountsFailure (T.failures sink.old) (T.failures sink.new) result }
{
    print_response(sink, &reply.response, reply.body.as_slice())
}
