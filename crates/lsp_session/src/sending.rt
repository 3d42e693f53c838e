//! Sends messages to the client.
ghost use Rattle.std.specs.Prelude.{OnOk, map};
ghost use Rattle.serde_json.specs.View.{view};
ghost use Rattle.lsp_message.specs.Answers.{error_answer, result_answer};
ghost use Rattle.lsp_message.specs.Calls.{viewed};
ghost use Rattle.lsp_session.specs.Messages.{WritesMessage, WritesMessages, answer_of, edit_request, published};
ghost use Rattle.lsp_session.specs.Outcomes.{outcome_view};

use crate::fault::LspFault;
use crate::service::ServiceResult;
use lsp_message::{ErrorCode, error_answer, frame, notification, request, result_answer};
use serde_json::Value;
use std::alloc::Global;
use std::io::Write;

/// Sends a message.
fn send<W: Write>(alloc: Global, out: &mut W, message: &Value) -> Result<(), LspFault>
    ensures { OnOk result (WritesMessage (view message.now) (W.contents out.old) (W.contents out.new)) }
{
    let bytes = frame(alloc, message)?;
    out.write_all(bytes.as_slice())?;
    out.flush()?;
    Ok(())
}

/// Sends the result of a request.
pub(crate) fn send_result<W: Write>(
    alloc: Global,
    out: &mut W,
    id: &Value,
    outcome: Value,
) -> Result<(), LspFault>
    ensures { OnOk result (WritesMessage (result_answer (view id.now) (view outcome)) (W.contents out.old) (W.contents out.new)) }
{
    let message = result_answer(alloc, id, outcome)?;
    send(alloc, out, &message)
}

/// Sends an error.
pub(crate) fn send_error<W: Write>(
    alloc: Global,
    out: &mut W,
    id: Option<&Value>,
    code: ErrorCode,
    words: &str,
) -> Result<(), LspFault>
    ensures { OnOk result (WritesMessage (error_answer (viewed id.entry) code words.now) (W.contents out.old) (W.contents out.new)) }
{
    let message = error_answer(alloc, id, code, words)?;
    send(alloc, out, &message)
}

/// Sends what came of a request.
pub(crate) fn send_outcome<W: Write>(
    alloc: Global,
    out: &mut W,
    id: &Value,
    outcome: ServiceResult,
) -> Result<(), LspFault>
    ensures { OnOk result (WritesMessage (answer_of (view id.now) (outcome_view outcome)) (W.contents out.old) (W.contents out.new)) }
{
    match outcome {
        Ok(value) => send_result(alloc, out, id, value),
        Err(fault) => send_error(alloc, out, Some(id), fault.code, fault.words.as_str()),
    }
}

/// Sends the request that the client make an edit.
pub(crate) fn send_edit<W: Write>(
    alloc: Global,
    out: &mut W,
    number: u64,
    params: Value,
) -> Result<(), LspFault>
    ensures { OnOk result (WritesMessage (edit_request number (view params)) (W.contents out.old) (W.contents out.new)) }
{
    let message = request(alloc, number, "workspace/applyEdit", params)?;
    send(alloc, out, &message)
}

/// Publishes faults of a document.
fn publish<W: Write>(alloc: Global, out: &mut W, params: &Value) -> Result<(), LspFault>
    ensures { OnOk result (WritesMessage (published (view params.now)) (W.contents out.old) (W.contents out.new)) }
{
    let message = notification(alloc, "textDocument/publishDiagnostics", params.clone()?)?;
    send(alloc, out, &message)
}

/// Publishes faults of documents.
pub(crate) fn publish_all<W: Write>(
    alloc: Global,
    out: &mut W,
    all: &[Value],
) -> Result<(), LspFault>
    ensures { OnOk result (WritesMessages (map published (map view all.now)) (W.contents out.old) (W.contents out.new)) }
{
    for params in all {
        publish(alloc, out, params)?;
    }
    Ok(())
}
