//! Answers requests.
ghost use Rattle.std.specs.Prelude.{◌≡◌};
ghost use Rattle.lsp_params.specs.Asked.{place_view};
ghost use Rattle.lsp_requests.specs.Answers.{AnswersRequest, AnswersSeen, TellsByte};
ghost use Rattle.lsp_told.specs.Asking.{AtByte};
ghost use Rattle.lsp_told.specs.Requests.{request_view};

use crate::moving::move_first;
use crate::preparing::prepare;
use crate::renaming::rename;
use crate::sight::Sight;
use crate::taking_back::take_back;
use crate::uses::{definition, highlights, references};
use lsp_edits::Telling;
use lsp_params::AskedAt;
use lsp_told::{AskFault, AskedByte, ByteQuestion, EditorRequest, byte_asked};
use serde_json::Value;
use server_commands::Desk;
use std::alloc::Global;

/// Answers a question about a byte.
fn answer_byte<D: Desk>(
    alloc: Global,
    desk: &mut D,
    sight: Sight<'_>,
    at: &AskedByte,
    question: ByteQuestion,
) -> Result<Value, AskFault>
    requires { D.sees desk.old sight.view.now.snapshot.files }
    ensures told { TellsByte sight.entry.telling sight.entry.view.now question at.now result }
    ensures same { desk.new ≡ desk.old }
{
    match question {
        ByteQuestion::Prepare => prepare(alloc, desk, sight, at),
        ByteQuestion::References { with_declaration } => {
            references(alloc, desk, sight, at, with_declaration)
        }
        ByteQuestion::Definition => definition(alloc, desk, sight, at),
        ByteQuestion::Highlights => highlights(alloc, desk, sight, at),
    }
}

/// Answers a question about the byte at a place.
fn answer_at<D: Desk>(
    alloc: Global,
    desk: &mut D,
    sight: Sight<'_>,
    at: AskedAt<'_>,
    question: ByteQuestion,
) -> Result<Value, AskFault>
    requires { D.sees desk.old sight.view.now.snapshot.files }
    ensures told { AtByte sight.entry.telling sight.entry.view.now.snapshot.files (place_view at.entry) (TellsByte sight.entry.telling sight.entry.view.now question) result }
    ensures same { desk.new ≡ desk.old }
{
    match byte_asked(alloc, sight.telling, sight.files(), at) {
        Ok(at) => answer_byte(alloc, desk, sight, &at, question),
        Err(fault) => Err(fault),
    }
}

/// Answers a request on what a look shows.
fn answer_seen<D: Desk>(
    alloc: Global,
    desk: &mut D,
    sight: Sight<'_>,
    request: EditorRequest<'_>,
) -> Result<Value, AskFault>
    requires { D.sees desk.old sight.view.now.snapshot.files }
    ensures { AnswersSeen D.steps sight.entry.telling (request_view request.entry) desk.old sight.entry.view.now result desk.new }
{
    match request {
        EditorRequest::Rename(asked) => rename(alloc, desk, sight, asked),
        EditorRequest::At(at, question) => answer_at(alloc, desk, sight, at, question),
        EditorRequest::WillRename(files) => move_first(alloc, desk, sight, files),
        EditorRequest::TakeBack(way) => take_back(alloc, desk, sight, way),
    }
}

/// Answers a request. Of undo and redo the answer is the edits that the client is to make.
pub fn answer<D: Desk>(
    alloc: Global,
    desk: &mut D,
    telling: Telling<'_>,
    request: EditorRequest<'_>,
) -> Result<Value, AskFault>
    ensures { AnswersRequest D.steps telling.entry (request_view request.entry) desk.old result desk.new }
{
    match desk.look() {
        Ok(view) => {
            let sight = Sight {
                telling,
                view: &view,
            };
            answer_seen(alloc, desk, sight, request)
        }
        Err(refusal) => Err(AskFault::from(refusal)),
    }
}
