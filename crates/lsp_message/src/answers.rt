//! The values of answers, and of calls that the server makes.
ghost use Rattle.std.specs.Prelude.{◌≡◌, IfOk};
ghost use Rattle.serde_json.specs.View.{view};
ghost use Rattle.lsp_message.specs.Answers.{error_answer, error_code, error_value, id_value, notification_value, request_value, result_answer};
ghost use Rattle.lsp_message.specs.Calls.{viewed};

use serde_json::{Value, json};
use std::alloc::{AllocError, Global};

/// Why a request fails, as JSON-RPC and the protocol number it.
#[derive(Clone, Copy, Debug, PartialEq, Eq)]
pub enum ErrorCode {
    ParseError,
    InvalidRequest,
    MethodNotFound,
    InvalidParams,
    InternalError,
    ServerNotInitialized,
    RequestFailed,
}

impl ErrorCode {
    /// The number of the code.
    pub fn number(self) -> i64
        ensures { result ≡ error_code self }
    {
        match self {
            ErrorCode::ParseError => -32700,
            ErrorCode::InvalidRequest => -32600,
            ErrorCode::MethodNotFound => -32601,
            ErrorCode::InvalidParams => -32602,
            ErrorCode::InternalError => -32603,
            ErrorCode::ServerNotInitialized => -32002,
            ErrorCode::RequestFailed => -32803,
        }
    }
}

/// The id of an answer: `null` where the request has none.
fn id_value(alloc: Global, id: Option<&Value>) -> Result<Value, AllocError>
    ensures { IfOk result (λ value. view value ≡ id_value (viewed id.entry)) }
{
    match id {
        Some(id) => id.clone(),
        None => Ok(Value::Null),
    }
}

/// The answer to a request with this id that has this result.
pub fn result_answer(alloc: Global, id: &Value, outcome: Value) -> Result<Value, AllocError>
    ensures { IfOk result (λ value. view value ≡ result_answer (view id.now) (view outcome)) }
{
    json!(in alloc; {"jsonrpc": "2.0", "id": id, "result": outcome})
}

/// What an answer says of an error.
fn error_value(alloc: Global, code: ErrorCode, message: &str) -> Result<Value, AllocError>
    ensures { IfOk result (λ value. view value ≡ error_value code message.now) }
{
    json!(in alloc; {"code": code.number(), "message": message})
}

/// The answer to a request that fails.
pub fn error_answer(
    alloc: Global,
    id: Option<&Value>,
    code: ErrorCode,
    message: &str,
) -> Result<Value, AllocError>
    ensures { IfOk result (λ value. view value ≡ error_answer (viewed id.entry) code message.now) }
{
    let id = id_value(alloc, id)?;
    let error = error_value(alloc, code, message)?;
    json!(in alloc; {"jsonrpc": "2.0", "id": id, "error": error})
}

/// A notification of the server.
pub fn notification(alloc: Global, method: &str, params: Value) -> Result<Value, AllocError>
    ensures { IfOk result (λ value. view value ≡ notification_value method.now (view params)) }
{
    json!(in alloc; {"jsonrpc": "2.0", "method": method, "params": params})
}

/// A request of the server.
pub fn request(alloc: Global, id: u64, method: &str, params: Value) -> Result<Value, AllocError>
    ensures { IfOk result (λ value. view value ≡ request_value id method.now (view params)) }
{
    json!(in alloc; {"jsonrpc": "2.0", "id": id, "method": method, "params": params})
}
