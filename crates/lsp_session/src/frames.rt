//! Does what frames ask.
ghost use Rattle.std.specs.Prelude.{◌≡◌, IfOk, None};
ghost use Rattle.serde_json.specs.View.{view};
ghost use Rattle.lsp_message.specs.Stages.{owed_view, refusal};
ghost use Rattle.lsp_session.specs.Turns.{TakesBody, TakesDebt, TakesFrame, TakesJson, turn_of, unread_code};

use crate::fault::LspFault;
use crate::paying::pay;
use crate::service::EditorService;
use crate::turns::{EditorTurn, SessionProgress};
use lsp_frames::Frame;
use lsp_message::{BodyFault, ErrorCode, Owed, call_in, owed_by, read_json};
use serde_json::Value;
use std::alloc::Global;
use std::io::Write;

/// How the session goes on behind a call.
fn turn_of(owed: Owed<'_>) -> EditorTurn
    ensures { result ≡ turn_of (owed_view owed.entry) }
{
    match owed {
        Owed::End { is_orderly } => EditorTurn::Ended(is_orderly),
        _ => EditorTurn::GoesOn,
    }
}

/// Does what a JSON value asks.
fn take_value<W: Write, E: EditorService>(
    alloc: Global,
    out: &mut W,
    progress: &mut SessionProgress,
    service: &mut E,
    value: &Value,
) -> Result<EditorTurn, LspFault>
    ensures { IfOk result (TakesJson E.starts E.answers E.heeds (view value.now) (W.contents out.old) (W.contents out.new) (progress.old, service.old) (progress.new, service.new)) }
{
    let owed = owed_by(progress.stage, call_in(value));
    pay(alloc, out, progress, service, owed)?;
    Ok(turn_of(owed))
}

/// The code of the error for a body that is no JSON value.
fn unread_code(fault: BodyFault) -> ErrorCode
    ensures { result ≡ unread_code fault }
{
    match fault {
        BodyFault::NotJson => ErrorCode::ParseError,
        BodyFault::Memory => ErrorCode::InternalError,
    }
}

/// Sends an error without an id: the session goes on.
fn refuse_frame<W: Write, E: EditorService>(
    alloc: Global,
    out: &mut W,
    progress: &mut SessionProgress,
    service: &mut E,
    code: ErrorCode,
) -> Result<EditorTurn, LspFault>
    ensures { IfOk result (TakesDebt E.starts E.answers E.heeds (refusal None code) (W.contents out.old) (W.contents out.new) (progress.old, service.old) (progress.new, service.new)) }
{
    pay(
        alloc,
        out,
        progress,
        service,
        Owed::Refusal { id: None, code },
    )?;
    Ok(EditorTurn::GoesOn)
}

/// Does what the body of a frame asks.
fn take_body<W: Write, E: EditorService>(
    alloc: Global,
    out: &mut W,
    progress: &mut SessionProgress,
    service: &mut E,
    body: &[u8],
) -> Result<EditorTurn, LspFault>
    ensures { IfOk result (TakesBody E.starts E.answers E.heeds body.now (W.contents out.old) (W.contents out.new) (progress.old, service.old) (progress.new, service.new)) }
{
    match read_json(alloc, body) {
        Ok(value) => take_value(alloc, out, progress, service, &value),
        Err(fault) => refuse_frame(alloc, out, progress, service, unread_code(fault)),
    }
}

/// Does what a frame asks.
pub(crate) fn take_frame<W: Write, E: EditorService>(
    alloc: Global,
    out: &mut W,
    progress: &mut SessionProgress,
    service: &mut E,
    frame: &Frame,
) -> Result<EditorTurn, LspFault>
    ensures { IfOk result (TakesFrame E.starts E.answers E.heeds frame.now (W.contents out.old) (W.contents out.new) (progress.old, service.old) (progress.new, service.new)) }
{
    match frame {
        Frame::End => Ok(EditorTurn::Ended(false)),
        Frame::Body(text) => take_body(alloc, out, progress, service, text.bytes()),
        Frame::NoLength => refuse_frame(alloc, out, progress, service, ErrorCode::ParseError),
        Frame::TooLarge => refuse_frame(alloc, out, progress, service, ErrorCode::InvalidRequest),
        Frame::NoRoom => refuse_frame(alloc, out, progress, service, ErrorCode::InternalError),
    }
}
