//! Which call of JSON-RPC a body makes.
ghost use Rattle.std.specs.Prelude.{◌≡◌, ◌↔◌, IsUtf8, MatchResult, Some};
ghost use Rattle.serde_json.specs.Errors.{IsMemory};
ghost use Rattle.serde_json.specs.Read.{read};
ghost use Rattle.serde_json.specs.View.{view};
ghost use Rattle.lsp_message.specs.Calls.{FailsToRead, asked, call_made, call_view, has_legal_params, is_id, is_legal_params, legal_id, named_member, names_version, params_of, viewed, shaped_call, unasked};

use serde_json::{Category, Error, Value};
use std::alloc::Global;

/// Why a body gives no JSON value.
#[derive(Clone, Copy, Debug, PartialEq, Eq)]
pub enum BodyFault {
    /// It is no UTF-8, or no JSON.
    NotJson,
    /// Memory was wanting.
    Memory,
}

/// A call that a body makes.
#[derive(Clone, Copy)]
pub enum Call<'a> {
    /// A request, which is to be answered.
    Request {
        id: &'a Value,
        method: &'a str,
        params: Option<&'a Value>,
    },
    /// A notification, which is not answered.
    Notification {
        method: &'a str,
        params: Option<&'a Value>,
    },
    /// The answer to a request of the server.
    Answer {
        id: Option<&'a Value>,
        result: Option<&'a Value>,
    },
    /// No call; the id is that of the value, where it is a legal one.
    Malformed {
        id: Option<&'a Value>,
    },
}

/// Why a read gave no value.
fn why_unread(fault: &Error) -> BodyFault
    ensures { (result ≡ BodyFault.Memory) ↔ IsMemory fault.now }
{
    match fault.classify() {
        Category::Memory => BodyFault::Memory,
        _ => BodyFault::NotJson,
    }
}

/// Reads the JSON value of a body.
pub fn read_json(alloc: Global, body: &[u8]) -> Result<Value, BodyFault>
    ensures { MatchResult result (λ value. IsUtf8 body.now × (read body.now ≡ Some (view value))) (FailsToRead body.now) }
{
    match Value::from_slice(alloc, body) {
        Ok(value) => Ok(value),
        Err(fault) => Err(why_unread(&fault)),
    }
}

/// A member of an object.
fn member<'a>(value: &'a Value, name: &str) -> Option<&'a Value>
    ensures { viewed result ≡ named_member name.now (view value.now) }
{
    value.get(name)
}

/// Whether the value can be an id: a string or an integer.
fn is_id(value: &Value) -> bool
    ensures { result ≡ is_id (view value.now) }
{
    value.is_string() || (value.is_number() && !value.is_f64())
}

/// The id of a value, where it is a legal one.
fn legal_id(value: &Value) -> Option<&Value>
    ensures { viewed result ≡ legal_id (view value.now) }
{
    match member(value, "id") {
        Some(id) if is_id(id) => Some(id),
        _ => None,
    }
}

/// Whether the value says that it is of JSON-RPC 2.0.
fn names_version(value: &Value) -> bool
    ensures { result ≡ names_version (view value.now) }
{
    match member(value, "jsonrpc").and_then(Value::as_str) {
        Some(version) => version == "2.0",
        None => false,
    }
}

/// Whether the value can be the parameters of a call, where `null` stands for none.
fn is_legal_params(value: &Value) -> bool
    ensures { result ≡ is_legal_params (view value.now) }
{
    value.is_null() || value.is_array() || value.is_object()
}

/// Whether the value has legal parameters or none.
fn has_legal_params(value: &Value) -> bool
    ensures { result ≡ has_legal_params (view value.now) }
{
    match member(value, "params") {
        Some(params) => is_legal_params(params),
        None => true,
    }
}

/// The parameters of a call, if it has some.
fn params(value: &Value) -> Option<&Value>
    ensures { viewed result ≡ params_of (view value.now) }
{
    match member(value, "params") {
        Some(params) if !params.is_null() => Some(params),
        _ => None,
    }
}

/// The call of a value with this method.
fn asked<'a>(value: &'a Value, method: &'a str) -> Call<'a>
    ensures { call_view result ≡ asked method.now (view value.now) }
{
    let params = params(value);
    match member(value, "id") {
        None => Call::Notification { method, params },
        Some(id) if is_id(id) => Call::Request { id, method, params },
        Some(_) => Call::Malformed { id: None },
    }
}

/// The call of a value without a method.
fn unasked(value: &Value) -> Call<'_>
    ensures { call_view result ≡ unasked (view value.now) }
{
    let id = legal_id(value);
    let result = member(value, "result");
    if result.is_some() || member(value, "error").is_some() {
        Call::Answer { id, result }
    } else {
        Call::Malformed { id }
    }
}

/// The call of a value whose version and parameters are legal.
fn shape(value: &Value) -> Call<'_>
    ensures { call_view result ≡ shaped_call (view value.now) }
{
    match member(value, "method") {
        None => unasked(value),
        Some(method) => match method.as_str() {
            Some(method) => asked(value, method),
            None => Call::Malformed {
                id: legal_id(value),
            },
        },
    }
}

/// Which call a value makes.
pub fn call_in(value: &Value) -> Call<'_>
    ensures { call_view result ≡ call_made (view value.now) }
{
    if names_version(value) && has_legal_params(value) {
        shape(value)
    } else {
        Call::Malformed {
            id: legal_id(value),
        }
    }
}
