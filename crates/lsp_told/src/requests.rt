//! The requests that the server knows, read from their methods and parameters.
ghost use Rattle.std.specs.Prelude.{◌≡◌, option_and_then, option_map};
ghost use Rattle.serde_json.specs.View.{items_view, view};
ghost use Rattle.lsp_message.specs.Calls.{viewed};
ghost use Rattle.lsp_params.specs.Asked.{command_in};
ghost use Rattle.lsp_told.specs.Requests.{
  executed_in,
  known_method,
  other_method,
  question_in,
  references_in,
  rename_in,
  renamed_files,
  renamed_files_in,
  request_in,
  request_of,
  request_read,
  request_with,
  way_of,
};

use crate::fault::AskFault;
use lsp_params::{AskedAt, AskedName, asked_at, asked_name, command_in, includes_declaration};
use serde_json::Value;

/// Which way the history goes.
#[derive(Clone, Copy, Debug, PartialEq, Eq)]
pub enum Way {
    Undo,
    Redo,
}

/// What is asked about an identifier.
#[derive(Clone, Copy, Debug, PartialEq, Eq)]
pub enum ByteQuestion {
    /// Can it be renamed?
    Prepare,
    /// Which identifiers are bound to the same declaration?
    References { with_declaration: bool },
    /// Where is it declared?
    Definition,
    /// Which identifiers of the file are bound to the same declaration?
    Highlights,
}

/// A method that the server knows.
#[derive(Clone, Copy)]
pub(crate) enum KnownMethod {
    Rename,
    Prepare,
    References,
    Definition,
    Highlights,
    WillRename,
    Execute,
}

/// A request.
#[derive(Clone, Copy)]
pub enum EditorRequest<'a> {
    Rename(AskedName<'a>),
    At(AskedAt<'a>, ByteQuestion),
    /// Files and folders are to be renamed.
    WillRename(&'a [Value]),
    /// The last rename is to be taken back, or done again.
    TakeBack(Way),
}

/// The files that are to be renamed.
fn renamed_files(params: &Value) -> Option<&[Value]>
    ensures { option_map (λ files. items_view files.now) result ≡ renamed_files (view params.now) }
{
    match params.get("files").and_then(Value::as_array) {
        Some(files) => Some(files.as_slice()),
        None => None,
    }
}

/// The way of a command, if the server knows it.
fn way_of(command: &str) -> Option<Way>
    ensures { result ≡ way_of command.now }
{
    if command == "gorefd.undo" {
        Some(Way::Undo)
    } else if command == "gorefd.redo" {
        Some(Way::Redo)
    } else {
        None
    }
}

/// The way of the command that is to be executed.
fn way_in(params: &Value) -> Option<Way>
    ensures { result ≡ option_and_then way_of (command_in (view params.now)) }
{
    match command_in(params) {
        Some(command) => way_of(command),
        None => None,
    }
}

/// The request to rename.
fn rename_in(params: &Value) -> Result<EditorRequest<'_>, AskFault>
    ensures { request_read result ≡ rename_in (view params.now) }
{
    match asked_name(params) {
        Some(asked) => Ok(EditorRequest::Rename(asked)),
        None => Err(AskFault::Params),
    }
}

/// The request about the byte at a place.
fn question_in(params: &Value, question: ByteQuestion) -> Result<EditorRequest<'_>, AskFault>
    ensures { request_read result ≡ question_in (view params.now) question }
{
    match asked_at(params) {
        Some(at) => Ok(EditorRequest::At(at, question)),
        None => Err(AskFault::Params),
    }
}

/// The question about references.
fn references_in(params: &Value) -> ByteQuestion
    ensures { result ≡ references_in (view params.now) }
{
    ByteQuestion::References {
        with_declaration: includes_declaration(params),
    }
}

/// The request before a rename of files.
fn renamed_files_in(params: &Value) -> Result<EditorRequest<'_>, AskFault>
    ensures { request_read result ≡ renamed_files_in (view params.now) }
{
    match renamed_files(params) {
        Some(files) => Ok(EditorRequest::WillRename(files)),
        None => Err(AskFault::Params),
    }
}

/// The request to execute a command.
fn executed_in(params: &Value) -> Result<EditorRequest<'_>, AskFault>
    ensures { request_read result ≡ executed_in (view params.now) }
{
    match way_in(params) {
        Some(way) => Ok(EditorRequest::TakeBack(way)),
        None => Err(AskFault::Params),
    }
}

/// The method of this name, if it is one on files or commands that the server knows.
fn other_method(name: &str) -> Option<KnownMethod>
    ensures { result ≡ other_method name.now }
{
    if name == "workspace/willRenameFiles" {
        Some(KnownMethod::WillRename)
    } else if name == "workspace/executeCommand" {
        Some(KnownMethod::Execute)
    } else {
        None
    }
}

/// The method of this name, if the server knows it.
fn known_method(name: &str) -> Option<KnownMethod>
    ensures { result ≡ known_method name.now }
{
    if name == "textDocument/rename" {
        Some(KnownMethod::Rename)
    } else if name == "textDocument/prepareRename" {
        Some(KnownMethod::Prepare)
    } else if name == "textDocument/references" {
        Some(KnownMethod::References)
    } else if name == "textDocument/definition" {
        Some(KnownMethod::Definition)
    } else if name == "textDocument/documentHighlight" {
        Some(KnownMethod::Highlights)
    } else {
        other_method(name)
    }
}

/// The request of a method with parameters.
fn request_with(method: KnownMethod, params: &Value) -> Result<EditorRequest<'_>, AskFault>
    ensures { request_read result ≡ request_with method (view params.now) }
{
    match method {
        KnownMethod::Rename => rename_in(params),
        KnownMethod::Prepare => question_in(params, ByteQuestion::Prepare),
        KnownMethod::References => question_in(params, references_in(params)),
        KnownMethod::Definition => question_in(params, ByteQuestion::Definition),
        KnownMethod::Highlights => question_in(params, ByteQuestion::Highlights),
        KnownMethod::WillRename => renamed_files_in(params),
        KnownMethod::Execute => executed_in(params),
    }
}

/// The request of a known method and its parameters.
fn request_of(method: KnownMethod, params: Option<&Value>) -> Result<EditorRequest<'_>, AskFault>
    ensures { request_read result ≡ request_of method (viewed params.entry) }
{
    match params {
        Some(params) => request_with(method, params),
        None => Err(AskFault::Params),
    }
}

/// The request of a method and its parameters.
pub fn request_in<'a>(
    method: &str,
    params: Option<&'a Value>,
) -> Result<EditorRequest<'a>, AskFault>
    ensures { request_read result ≡ request_in method.now (viewed params.entry) }
{
    match known_method(method) {
        Some(method) => request_of(method, params),
        None => Err(AskFault::Method),
    }
}
