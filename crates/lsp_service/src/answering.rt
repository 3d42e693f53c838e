//! Answers requests, after the desk has caught up.
ghost use Rattle.std.specs.Prelude.{◌≡◌, nat_eq};
ghost use Rattle.lsp_message.specs.Calls.{viewed};
ghost use Rattle.lsp_told.specs.Requests.{request_in, request_view};
ghost use Rattle.lsp_service.specs.Answering.{AnsweredBy, AnswersNow, AnswersRead, AnswersCaughtUp, AsksDesk, AsksToStep, SteppedBy, StepsIf, no_step, note_of, step_label, renames_left, stepped};

use crate::catching_up::{catch_up_for, step_in};
use crate::desk::RequestDesk;
use crate::failure::Failure;
use base_files::Refusal;
use lsp_answers::apply_edit_params;
use lsp_editor::Editor;
use lsp_session::ServiceAnswer;
use lsp_told::{AskFault, EditorRequest, Way, request_in};
use serde_json::Value;
use std::alloc::Global;
use std::rt::Files;

/// How many steps can be made this way.
fn renames_left(way: Way, editor: &Editor) -> usize
    ensures { result ≡ renames_left way editor.now }
{
    match way {
        Way::Undo => editor.undos,
        Way::Redo => editor.redos,
    }
}

/// Why no step is made this way where there is none.
fn no_step(way: Way) -> AskFault
    ensures { result ≡ no_step way }
{
    match way {
        Way::Undo => AskFault::Refused(Refusal::NothingToUndo),
        Way::Redo => AskFault::Refused(Refusal::NothingToRedo),
    }
}

/// What the client shows of the edits of a step.
fn step_label(way: Way) -> &'static str
    ensures { result.now ≡ step_label way }
{
    match way {
        Way::Undo => "gorefd.undo",
        Way::Redo => "gorefd.redo",
    }
}

/// Notes that a step was made this way.
fn note_step(editor: &mut Editor, way: Way)
    ensures { editor.new ≡ stepped way editor.old }
{
    match way {
        Way::Undo => editor.note_undo(),
        Way::Redo => editor.note_redo(),
    }
}

/// The request that the client make the edits of a step, and the answer behind it.
fn ask_to_step(alloc: Global, way: Way, edits: Value) -> Result<ServiceAnswer, Failure>
    ensures { AsksToStep way edits result }
{
    match apply_edit_params(alloc, step_label(way), edits) {
        Ok(params) => Ok(ServiceAnswer {
            edit: Some(params),
            outcome: Ok(Value::Null),
        }),
        Err(_) => Err(Failure::Asked(AskFault::Memory)),
    }
}

/// What the client gets of a step that the desk was asked for.
fn stepped_by(
    alloc: Global,
    editor: &mut Editor,
    way: Way,
    told: Result<Value, AskFault>,
) -> Result<ServiceAnswer, Failure>
    ensures { SteppedBy way told editor.old result editor.new }
{
    match told {
        Ok(edits) => {
            note_step(editor, way);
            ask_to_step(alloc, way, edits)
        }
        Err(fault) => Err(Failure::Asked(fault)),
    }
}

/// Whether no step can be made this way.
fn has_no_step(way: Way, editor: &Editor) -> bool
    ensures { result ≡ nat_eq (renames_left way editor.now) 0 }
{
    renames_left(way, editor) == 0
}

/// Takes a rename back, or does it again, if there is one.
fn step_back<D: RequestDesk>(
    alloc: Global,
    editor: &mut Editor,
    desk: &mut D,
    way: Way,
) -> Result<ServiceAnswer, Failure>
    ensures { StepsIf D.answers (nat_eq (renames_left way editor.old) 0) way editor.old desk.old result editor.new desk.new }
{
    if has_no_step(way, editor) {
        return Err(Failure::Asked(no_step(way)));
    }
    let told = desk.answer(alloc, editor.telling(), EditorRequest::TakeBack(way));
    stepped_by(alloc, editor, way, told)
}

/// Notes the answer to a request that is no step.
fn note_told(editor: &mut Editor, request: EditorRequest<'_>)
    ensures { editor.new ≡ note_of (request_view request.entry) editor.old }
{
    match request {
        EditorRequest::Rename(_) => editor.note_rename(),
        EditorRequest::At(_, _) => {}
        EditorRequest::WillRename(_) => {}
        EditorRequest::TakeBack(_) => {}
    }
}

/// What the client gets of a request that is no step.
fn answered_by(
    editor: &mut Editor,
    request: EditorRequest<'_>,
    told: Result<Value, AskFault>,
) -> Result<ServiceAnswer, Failure>
    ensures { AnsweredBy (request_view request.entry) told editor.old result editor.new }
{
    match told {
        Ok(value) => {
            note_told(editor, request);
            Ok(ServiceAnswer {
                edit: None,
                outcome: Ok(value),
            })
        }
        Err(fault) => Err(Failure::Asked(fault)),
    }
}

/// Asks the desk for the answer to a request that is no step.
fn ask_desk<D: RequestDesk>(
    alloc: Global,
    editor: &mut Editor,
    desk: &mut D,
    request: EditorRequest<'_>,
) -> Result<ServiceAnswer, Failure>
    ensures { AsksDesk D.answers editor.old desk.old (request_view request.entry) (λ told. AnsweredBy (request_view request.entry) told editor.old result editor.new) desk.new }
{
    let told = desk.answer(alloc, editor.telling(), request);
    answered_by(editor, request, told)
}

/// Answers a request at a desk that has caught up.
fn answer_now<D: RequestDesk>(
    alloc: Global,
    editor: &mut Editor,
    desk: &mut D,
    request: EditorRequest<'_>,
) -> Result<ServiceAnswer, Failure>
    ensures { AnswersNow D.answers (request_view request.entry) editor.old desk.old result editor.new desk.new }
{
    match step_in(request) {
        Some(way) => step_back(alloc, editor, desk, way),
        None => ask_desk(alloc, editor, desk, request),
    }
}

/// Answers a request, after the desk has caught up.
fn answer_request<R: Files + AllocGlobal + Clone + Drop, D: RequestDesk>(
    rt: &R,
    editor: &mut Editor,
    desk: &mut D,
    request: EditorRequest<'_>,
) -> Result<ServiceAnswer, Failure>
    ensures { AnswersCaughtUp D.takes_disk D.takes_documents D.answers (request_view request.entry) editor.old desk.old result editor.new desk.new }
{
    match catch_up_for(rt, editor, desk, request) {
        Ok(()) => answer_now(rt.alloc(), editor, desk, request),
        Err(failure) => Err(failure),
    }
}

/// Answers a request of a method.
pub(crate) fn answer_method<R: Files + AllocGlobal + Clone + Drop, D: RequestDesk>(
    rt: &R,
    editor: &mut Editor,
    desk: &mut D,
    method: &str,
    params: Option<&Value>,
) -> Result<ServiceAnswer, Failure>
    ensures { AnswersRead D.takes_disk D.takes_documents D.answers (request_in method.now (viewed params.entry)) editor.old desk.old result editor.new desk.new }
{
    match request_in(method, params) {
        Ok(request) => answer_request(rt, editor, desk, request),
        Err(fault) => Err(Failure::Asked(fault)),
    }
}
