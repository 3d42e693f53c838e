//! What a call owes at each stage of a session, from initialize to exit.
ghost use Rattle.std.specs.Prelude.{◌≡◌};
ghost use Rattle.serde_json.specs.View.{view};
ghost use Rattle.lsp_message.specs.Calls.{call_view, viewed};
ghost use Rattle.lsp_message.specs.Stages.{asked_owes, asked_when_ready, owed_by, owed_view, told_owes};

use crate::answers::ErrorCode;
use crate::calls::Call;
use serde_json::Value;

/// How far a session is.
#[derive(Clone, Copy, Debug, PartialEq, Eq)]
pub enum SessionStage {
    /// Before initialize.
    New,
    /// Between initialize and shutdown.
    Ready,
    /// After shutdown.
    Down,
}

/// What a call owes.
#[derive(Clone, Copy)]
pub enum Owed<'a> {
    /// An error, under the id or none.
    Refusal {
        id: Option<&'a Value>,
        code: ErrorCode,
    },
    /// The answer to initialize; the session is ready then.
    Start {
        id: &'a Value,
        params: Option<&'a Value>,
    },
    /// The answer to shutdown; the session is down then.
    Stop {
        id: &'a Value,
    },
    /// The end. It is orderly after shutdown.
    End {
        is_orderly: bool,
    },
    /// The answer to another request.
    Answer {
        id: &'a Value,
        method: &'a str,
        params: Option<&'a Value>,
    },
    /// A notification is to be heeded.
    Heed {
        method: &'a str,
        params: Option<&'a Value>,
    },
    /// An answer of the client is to be heeded.
    HeedAnswer {
        id: Option<&'a Value>,
        result: Option<&'a Value>,
    },
    Nothing,
}

/// What a request other than initialize owes in a session that is ready.
fn asked_when_ready<'a>(id: &'a Value, method: &'a str, params: Option<&'a Value>) -> Owed<'a>
    ensures { owed_view result ≡ asked_when_ready (view id.now) method.now (viewed params.entry) }
{
    if method == "shutdown" {
        Owed::Stop { id }
    } else {
        Owed::Answer { id, method, params }
    }
}

/// What a request owes.
fn asked_owes<'a>(
    stage: SessionStage,
    id: &'a Value,
    method: &'a str,
    params: Option<&'a Value>,
) -> Owed<'a>
    ensures { owed_view result ≡ asked_owes stage (view id.now) method.now (viewed params.entry) }
{
    match stage {
        SessionStage::New if method == "initialize" => Owed::Start { id, params },
        SessionStage::New => Owed::Refusal {
            id: Some(id),
            code: ErrorCode::ServerNotInitialized,
        },
        SessionStage::Ready if method == "initialize" => Owed::Refusal {
            id: Some(id),
            code: ErrorCode::InvalidRequest,
        },
        SessionStage::Ready => asked_when_ready(id, method, params),
        SessionStage::Down => Owed::Refusal {
            id: Some(id),
            code: ErrorCode::InvalidRequest,
        },
    }
}

/// What a notification owes.
fn told_owes<'a>(stage: SessionStage, method: &'a str, params: Option<&'a Value>) -> Owed<'a>
    ensures { owed_view result ≡ told_owes stage method.now (viewed params.entry) }
{
    if method == "exit" {
        return Owed::End {
            is_orderly: stage == SessionStage::Down,
        };
    }
    match stage {
        SessionStage::Ready => Owed::Heed { method, params },
        _ => Owed::Nothing,
    }
}

/// What a call owes at a stage of a session.
pub fn owed_by<'a>(stage: SessionStage, call: Call<'a>) -> Owed<'a>
    ensures { owed_view result ≡ owed_by stage (call_view call.entry) }
{
    match call {
        Call::Request { id, method, params } => asked_owes(stage, id, method, params),
        Call::Notification { method, params } => told_owes(stage, method, params),
        Call::Answer { id, result } => Owed::HeedAnswer { id, result },
        Call::Malformed { id } => Owed::Refusal {
            id,
            code: ErrorCode::InvalidRequest,
        },
    }
}
