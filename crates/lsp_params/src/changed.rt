//! What notifications tell of documents.
ghost use Rattle.std.specs.Prelude.{◌≡◌, IfOk, option_map};
ghost use Rattle.serde_json.specs.View.{items_view, view};
ghost use Rattle.lsp_params.specs.Changed.{change_in, change_view, changes_in, changes_listed, changes_of, document_view, integer_at, opened, opened_document, part_in, part_view, version_of_document};

use crate::members::{json_member, position_named, text_at};
use lsp_documents::{ChangedPart, TextChange};
use serde_json::Value;
use std::alloc::{AllocError, Global};

/// A document that is opened.
#[derive(Clone, Copy, Debug)]
pub struct OpenedDocument<'a> {
    pub uri: &'a str,
    pub version: i64,
    pub text: &'a str,
}

/// A member that is an integer.
fn integer_at(value: &Value, name: &str) -> Option<i64>
    ensures { result ≡ integer_at name.now (view value.now) }
{
    json_member(value, name).and_then(Value::as_i64)
}

/// The document that is opened.
fn opened(document: &Value) -> Option<OpenedDocument<'_>>
    ensures { option_map document_view result ≡ opened (view document.now) }
{
    let uri = text_at(document, "uri")?;
    let version = integer_at(document, "version")?;
    let text = text_at(document, "text")?;
    Some(OpenedDocument { uri, version, text })
}

/// The document that parameters open.
pub fn opened_document(params: &Value) -> Option<OpenedDocument<'_>>
    ensures { option_map document_view result ≡ opened_document (view params.now) }
{
    match json_member(params, "textDocument") {
        Some(document) => opened(document),
        None => None,
    }
}

/// The version of the document that parameters name.
pub fn version_of_document(params: &Value) -> Option<i64>
    ensures { result ≡ version_of_document (view params.now) }
{
    match json_member(params, "textDocument") {
        Some(document) => integer_at(document, "version"),
        None => None,
    }
}

/// The part that a range and a text change.
fn part_in<'a>(range: &Value, text: &'a str) -> Option<ChangedPart<'a>>
    ensures { option_map part_view result ≡ part_in (view range.now) text.now }
{
    let start = position_named(range, "start")?;
    let end = position_named(range, "end")?;
    Some(ChangedPart { start, end, text })
}

/// A content change: of a part, where it has a range, and else of the whole text.
fn change_in(value: &Value) -> Option<TextChange<'_>>
    ensures { option_map change_view result ≡ change_in (view value.now) }
{
    let text = text_at(value, "text")?;
    match json_member(value, "range") {
        Some(range) => {
            let part = part_in(range, text)?;
            Some(TextChange::Part(part))
        }
        None => Some(TextChange::Whole(text)),
    }
}

/// The content changes of a list, or `None` where one is none.
fn changes_of<'a>(
    alloc: Global,
    items: &'a [Value],
) -> Result<Option<Vec<TextChange<'a>>>, AllocError>
    ensures { IfOk result (λ changes. changes_listed changes ≡ changes_of (items_view items.now)) }
{
    let mut changes = Vec::new(alloc);
    for item in items {
        match change_in(item) {
            Some(change) => changes.push(change)?,
            None => return Ok(None),
        }
    }
    Ok(Some(changes))
}

/// The content changes that parameters give.
pub fn changes_in(alloc: Global, params: &Value) -> Result<Option<Vec<TextChange<'_>>>, AllocError>
    ensures { IfOk result (λ changes. changes_listed changes ≡ changes_in (view params.now)) }
{
    match json_member(params, "contentChanges").and_then(Value::as_array) {
        Some(items) => changes_of(alloc, items),
        None => Ok(None),
    }
}
