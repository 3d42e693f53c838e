//! Pays what calls owe.
ghost use Rattle.std.specs.Prelude.{◌≡◌, List, OnOk, Some, map, option_map};
ghost use Rattle.serde_json.specs.Data.{Data, null};
ghost use Rattle.serde_json.specs.View.{view};
ghost use Rattle.lsp_message.specs.Answers.{error_answer, result_answer};
ghost use Rattle.lsp_message.specs.Calls.{viewed};
ghost use Rattle.lsp_message.specs.Stages.{answer_to, owed_view, start};
ghost use Rattle.lsp_session.specs.Messages.{WritesMessage, WritesMessages, edit_request, edit_requests, published, refused_words};
ghost use Rattle.lsp_session.specs.Paying.{PaysDebt, next_counted, stopped};

use crate::fault::LspFault;
use crate::sending::{publish_all, send_edit, send_error, send_outcome, send_result};
use crate::service::{EditorService, ServiceAnswer};
use crate::turns::SessionProgress;
use lsp_message::{ErrorCode, Owed, SessionStage};
use serde_json::Value;
use std::alloc::Global;
use std::io::Write;

/// What is told where a message is refused.
fn refused_words(code: ErrorCode) -> &'static str
    ensures { result.now ≡ refused_words code }
{
    match code {
        ErrorCode::ServerNotInitialized => "the session is not initialized",
        ErrorCode::ParseError => "this is no message",
        ErrorCode::InternalError => "memory was wanting",
        _ => "this is no call that can be made now",
    }
}

/// Sends a refusal.
fn refuse<W: Write>(
    alloc: Global,
    out: &mut W,
    id: Option<&Value>,
    code: ErrorCode,
) -> Result<(), LspFault>
    ensures { OnOk result (WritesMessage (error_answer (viewed id.entry) code (refused_words code)) (W.contents out.old) (W.contents out.new)) }
{
    send_error(alloc, out, id, code, refused_words(code))
}

/// Answers initialize.
fn answer_start<W: Write, E: EditorService>(
    alloc: Global,
    out: &mut W,
    progress: &mut SessionProgress,
    service: &mut E,
    asked: (&Value, Option<&Value>),
) -> Result<(), LspFault>
    ensures { OnOk result (PaysDebt E.starts E.answers E.heeds (start (view asked.entry.0.now) (viewed asked.entry.1)) (W.contents out.old) (W.contents out.new) (progress.old, service.old) (progress.new, service.new)) }
{
    let outcome = service.start(asked.1)?;
    progress.stage = SessionStage::Ready;
    send_result(alloc, out, asked.0, outcome)
}

/// Answers shutdown.
fn answer_stop<W: Write>(
    alloc: Global,
    out: &mut W,
    progress: &mut SessionProgress,
    id: &Value,
) -> Result<(), LspFault>
    ensures written { OnOk result (WritesMessage (result_answer (view id.now) null) (W.contents out.old) (W.contents out.new)) }
    ensures progress { progress.new ≡ stopped progress.old }
{
    progress.stage = SessionStage::Down;
    send_result(alloc, out, id, Value::Null)
}

/// Asks the client to make an edit, under the next id.
fn ask_to_edit<W: Write>(
    alloc: Global,
    out: &mut W,
    progress: &mut SessionProgress,
    params: Value,
) -> Result<(), LspFault>
    ensures written { OnOk result (WritesMessage (edit_request progress.old.next_id (view params)) (W.contents out.old) (W.contents out.new)) }
    ensures progress { progress.new ≡ next_counted (Some (view params)) progress.old }
{
    let id = progress.next_id;
    progress.next_id = id.saturating_add(1);
    send_edit(alloc, out, id, params)
}

/// Asks the client to make an edit, if there is one.
fn ask_for_edit<W: Write>(
    alloc: Global,
    out: &mut W,
    progress: &mut SessionProgress,
    edit: Option<Value>,
) -> Result<(), LspFault>
    ensures { OnOk result (WritesMessages (edit_requests progress.old.next_id (option_map view edit)) (W.contents out.old) (W.contents out.new) × (progress.new ≡ next_counted (option_map view edit) progress.old)) }
{
    match edit {
        Some(params) => ask_to_edit(alloc, out, progress, params),
        None => Ok(()),
    }
}

/// Answers another request.
fn answer_request<W: Write, E: EditorService>(
    alloc: Global,
    out: &mut W,
    progress: &mut SessionProgress,
    service: &mut E,
    id: &Value,
    asked: (&str, Option<&Value>),
) -> Result<(), LspFault>
    ensures { OnOk result (PaysDebt E.starts E.answers E.heeds (answer_to (view id.now) asked.entry.0.now (viewed asked.entry.1)) (W.contents out.old) (W.contents out.new) (progress.old, service.old) (progress.new, service.new)) }
{
    let answered = service.answer(asked.0, asked.1)?;
    let ServiceAnswer { edit, outcome } = answered;
    ask_for_edit(alloc, out, progress, edit)?;
    send_outcome(alloc, out, id, outcome)
}

/// Heeds a notification, and publishes what comes of it.
fn heed_told<W: Write, E: EditorService>(
    alloc: Global,
    out: &mut W,
    service: &mut E,
    told: (&str, Option<&Value>),
) -> Result<(), LspFault>
    ensures { OnOk result ((faults : List Data) × E.heeds service.old told.entry.0.now (viewed told.entry.1) faults service.new × WritesMessages (map published faults) (W.contents out.old) (W.contents out.new)) }
{
    let faults = service.heed(told.0, told.1)?;
    publish_all(alloc, out, faults.as_slice())
}

/// Pays what a call owes.
pub(crate) fn pay<W: Write, E: EditorService>(
    alloc: Global,
    out: &mut W,
    progress: &mut SessionProgress,
    service: &mut E,
    owed: Owed<'_>,
) -> Result<(), LspFault>
    ensures { OnOk result (PaysDebt E.starts E.answers E.heeds (owed_view owed.entry) (W.contents out.old) (W.contents out.new) (progress.old, service.old) (progress.new, service.new)) }
{
    match owed {
        Owed::Refusal { id, code } => refuse(alloc, out, id, code),
        Owed::Start { id, params } => answer_start(alloc, out, progress, service, (id, params)),
        Owed::Stop { id } => answer_stop(alloc, out, progress, id),
        Owed::Answer { id, method, params } => {
            answer_request(alloc, out, progress, service, id, (method, params))
        }
        Owed::Heed { method, params } => heed_told(alloc, out, service, (method, params)),
        Owed::End { .. } | Owed::HeedAnswer { .. } | Owed::Nothing => Ok(()),
    }
}
